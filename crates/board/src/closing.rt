//! The end of a board.

ghost use Rattle.std.specs.Prelude.{◌≡◌, ℕ, ◌≤◌, ◌<◌, All, List, ◌∷◌, vec_len};
ghost use Rattle.board.specs.Shares.{times};
ghost use Rattle.board.specs.Progress.{Progress};
ghost use Rattle.board.specs.FinishedSeats.{CountsOf, HasSpentAll, IsFinished, times_spent};
ghost use Rattle.board.specs.FinishedSeats.{all_drawn};
ghost use Rattle.board.specs.Words.{once_below};
ghost use Rattle.board.specs.Rule.{IsWhole};
ghost use Rattle.board.specs.Seats.{layout};
ghost use Rattle.board.specs.GatheredSeats.{Gathers};
ghost use Rattle.board.specs.declared.limits.TheConstants.{MAX_JOBS};

use crate::board::{Board, FAULT, fault_at};
use crate::gathered::Gathered;
use crate::rule::{Gathering, SeatView};
use crate::seat::Seat;
use crate::tally::Tally;
use atomic_table::Seat as Token;

impl Board {
    /// Ends the board, and counts what was done at these `seats` together. If they are all seats of
    /// the board, `least` is the least job that failed.
    pub fn close(self, mut seats: Vec<Seat>) -> Tally
        requires boards { All (λ p. p.board ≡ self) seats.items }
        ensures counts { CountsOf seats.items result }
        ensures spent { All HasSpentAll seats.items
            → (x : ℕ) → times_spent x seats.items ≡ times x (all_drawn seats.items) }
        ensures all { vec_len seats ≡ self.seats → IsFinished self seats.items result.least }
    {
        let Some(first) = seats.pop() else {
            seats.destroy_empty();
            return Tally {
                done: 0,
                failed: 0,
                skipped: 0,
                least: None,
            };
        };
        let mut gathered = Gathered::of(first);
        while let Some(seat) = seats.pop() {
            self.gather(&mut gathered, seat);
        }
        seats.destroy_empty();
        let Gathered {
            token,
            done,
            failed,
            skipped,
        } = gathered;
        Tally {
            done,
            failed,
            skipped,
            least: fault_at(self.last_fault(token)),
        }
    }

    // Takes in one more seat.
    fn gather(&self, gathered: &mut Gathered, seat: Seat)
        requires board { layout gathered.old.token.table_id
            gathered.old.token.me.0.jobs gathered.old.token.me.0.seats
            ≡ self.now }
        requires seat { seat.board ≡ self.now }
        requires seats { 0 < gathered.old.token.me.0.members }
        ensures { (ps : List Progress)
            → Gathers self.now gathered.old ps → Gathers self.now gathered.new (seat ∷ ps) }
    {
        let Seat {
            number: _,
            passed: _,
            jobs: _,
            seats: _,
            done,
            failed,
            skipped,
            trail: _,
            token,
        } = seat;
        self.table
            .shared
            .join_seat::<Gathering>(&mut gathered.token, token);
        gathered.done = gathered.done.saturating_add(done);
        gathered.failed = gathered.failed.saturating_add(failed);
        gathered.skipped = gathered.skipped.saturating_add(skipped);
    }

    // The fault word after the board was closed.
    fn last_fault(self, token: Token<(), SeatView>) -> u64
        requires board { layout token.table_id token.me.0.jobs token.me.0.seats ≡ self }
        requires seats { 0 < token.me.0.members }
        ensures once { (x : ℕ) → times x token.me.0.drawn ≤ once_below x token.me.0.jobs }
        ensures few { token.me.0.jobs ≤ MAX_JOBS }
        ensures whole { token.me.0.members ≡ token.me.0.seats → IsWhole token.me.0 result }
    {
        let Board { table } = self;
        let closed = table.close_with(token);
        let fault = closed.word(FAULT);
        closed.free();
        fault
    }
}
