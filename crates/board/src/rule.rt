//! What the seats share, in 65 words:
//!
//!     words 0 to 63    claim words: word k * (64 / w) counts the claims of share k of w
//!     word 64          the fault word: the least job that failed, 2^64 - 1 while none has
//!
//! 1. A claim adds 1 to a share's word, and draws the job at the place that it found there. No two
//!    claims find the same number, so no job is drawn twice.
//! 2. A claim that finds a place after the last job sees the share empty. A word never falls, so
//!    the share stays empty.
//! 3. A settle makes the fault word the lesser of itself and the job. It never rises, so a job
//!    above it stays above one that failed.
//!
//! What a seat has done is its view.

ghost use Rattle.std.specs.Prelude.{ℕ};

use atomic_table::{Join, Play, Split, TableRule};
use std::collections::LinkedList;
use std::marker::{Brand, PhantomData};

// What a seat has done, or `members` seats together. No value of it is made.
pub struct SeatView {
    pub members: u64,
    pub jobs: u64,
    pub seats: u64,
    pub drawn: LinkedList<u64>,
    pub empty: LinkedList<u64>,
    pub failed: LinkedList<u64>,
    pub looked: LinkedList<u64>,
    pub skipped: LinkedList<u64>,
}

// How many jobs and seats a board has.
#[derive(Clone, Copy)]
pub struct Extent {
    pub jobs: u64,
    pub seats: u64,
}

// The rule that holds of words and views between any two steps.
pub struct ByShares;

impl TableRule<(), SeatView, Extent> for ByShares {
    ghost use Rattle.board.specs.Rule.{TableKeepsRule, fresh_view};

    ghost holds = { TableKeepsRule };

    ghost first = { λ e. fresh_view e.seats e.jobs e.seats };
}

// A claim draws the next number of a share, or sees the share empty.
pub struct Claim;

impl Play<(), SeatView> for Claim {
    ghost use Rattle.board.specs.Rule.{StepClaims};

    ghost then = { StepClaims };
}

// A settle: a number has failed.
pub struct Settle;

impl Play<(), SeatView> for Settle {
    ghost use Rattle.board.specs.Rule.{StepSettles};

    ghost then = { StepSettles };
}

// A look at the fault word.
pub struct Look;

impl Play<(), SeatView> for Look {
    ghost use Rattle.board.specs.Rule.{StepLooks};

    ghost then = { StepLooks };
}

// Names the job for which a seat looks. Each call picks it.
pub trait Skipping {
    ghost job: { ℕ };
}

impl Skipping for Brand {
    ghost job = { 0 };
}

// A look at the fault word, by which a job above it is skipped.
pub struct Skip<J> {
    of: PhantomData<J>,
}

impl<J: Skipping> Play<(), SeatView> for Skip<J> {
    ghost use Rattle.board.specs.Rule.{StepSkips};

    ghost then = { StepSkips J.job };
}

// A view of one seat is split from a view of several that have done nothing.
pub struct Seating;

impl Split<SeatView> for Seating {
    ghost use Rattle.std.specs.Prelude.{◌-◌};
    ghost use Rattle.board.specs.Rule.{fresh_view};

    ghost left = { λ v. fresh_view (v.members - 1) v.jobs v.seats };

    ghost right = { λ v. fresh_view 1 v.jobs v.seats };
}

// Two views are joined, and nothing is left of the second.
pub struct Gathering;

impl Join<SeatView> for Gathering {
    ghost use Rattle.board.specs.Rule.{gathered_views, fresh_view};

    ghost both = { gathered_views };

    ghost spent = { fresh_view 0 0 0 };
}
