/// What was done at the seats of a closed board.
#[derive(Clone, Copy, PartialEq, Eq)]
pub struct Tally {
    /// How many jobs were done.
    pub done: u64,
    /// How many failed.
    pub failed: u64,
    /// How many were skipped.
    pub skipped: u64,
    /// The least job that failed; None if none did.
    pub least: Option<u64>,
}
