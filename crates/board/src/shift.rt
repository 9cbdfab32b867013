//! What a worker leaves.

use crate::seat::Seat;
use coding::Fault;

/// What a worker did: its seat, its results with their numbers, and the least job that it failed,
/// with the fault.
#[derive(Drop)]
pub struct Shift<O> {
    pub(crate) seat: Seat,
    pub(crate) results: Vec<(u64, O)>,
    pub(crate) refused: Option<(u64, Fault)>,
}
