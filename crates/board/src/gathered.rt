//! The seats of a closed board, taken in one after the other.

ghost use Rattle.std.specs.Prelude.{◌∷◌, []};
ghost use Rattle.board.specs.GatheredSeats.{Gathers};

use crate::rule::SeatView;
use crate::seat::Seat;
use atomic_table::Seat as Token;

// The token of all seats taken in so far, and the sums of their counts.
#[derive(Drop)]
pub struct Gathered {
    pub token: Token<(), SeatView>,
    pub done: u64,
    pub failed: u64,
    pub skipped: u64,
}

impl Gathered {
    pub(crate) fn of(seat: Seat) -> Gathered
        ensures { Gathers seat.board result (seat ∷ []) }
    {
        let Seat {
            number: _,
            passed: _,
            jobs: _,
            seats: _,
            done,
            failed,
            skipped,
            trail: _,
            token,
        } = seat;
        Gathered {
            token,
            done,
            failed,
            skipped,
        }
    }
}
