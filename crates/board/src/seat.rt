//! A seat at a board.

ghost use Rattle.std.specs.Prelude.{◌≡◌, ◌<◌, ◌≤◌, []};
ghost use Rattle.board.specs.Rule.{fresh_view};
ghost use Rattle.board.specs.declared.limits.TheConstants.{MAX_JOBS, MAX_WORKERS};

use crate::rule::SeatView;
use crate::trail::Trail;
use atomic_table::Seat as Token;
use std::marker::Model;

/// A place at a board, from which one thread at a time draws. Contracts see what was done at it.
// `passed` shares were seen empty, of which the seat's own is the first.
#[derive(Drop)]
pub struct Seat {
    pub(crate) number: u64,
    pub(crate) passed: u64,
    pub(crate) jobs: u64,
    pub(crate) seats: u64,
    pub(crate) done: u64,
    pub(crate) failed: u64,
    pub(crate) skipped: u64,
    pub(crate) trail: Trail,
    pub(crate) token: Token<(), SeatView>,
}

impl Model for Seat {
    ghost use Rattle.board.specs.Progress.{Progress};
    ghost use Rattle.board.specs.Seats.{progress_of, IsSeated, IsCounted};

    ghost Value = { Progress };

    ghost view = { λ s. progress_of s.token.table_id s.number s.token.me.0 s.trail.items };

    ghost invariant = { λ s.
        IsSeated s.number s.passed s.jobs s.seats s.token.me
        × IsCounted s.token.me.0 s.trail.items s.done s.failed s.skipped };
}

impl Seat {
    ghost use Rattle.board.specs.Progress.{unused_seat};
    ghost use Rattle.board.specs.Seats.{layout};

    // The seat of this number, at which nothing was done.
    pub(crate) fn new(number: u64, jobs: u64, seats: u64, token: Token<(), SeatView>) -> Seat
        requires view { token.me ≡ (fresh_view 1 jobs seats, []) }
        requires number { number < seats }
        requires few { (seats ≤ MAX_WORKERS) × (jobs ≤ MAX_JOBS) }
        ensures { result ≡ unused_seat (layout token.table_id jobs seats) number }
    {
        Seat {
            number,
            passed: 0,
            jobs,
            seats,
            done: 0,
            failed: 0,
            skipped: 0,
            trail: Trail::new(),
            token,
        }
    }

    // The seat's number, from 0 on, as a gate is told it.
    pub(crate) fn number(&self) -> u32
        ensures { result ≡ self.now.number }
    {
        self.number as u32
    }
}
