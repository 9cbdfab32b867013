//! An output of a plan.

use crate::planned_block::PlannedBlock;

/// A table that is to be written.
#[derive(Drop)]
pub struct PlannedOutput<'r, 'a> {
    /// The number of its file.
    pub number: u64,
    /// Its data blocks in order, at least one.
    pub blocks: Vec<PlannedBlock<'r, 'a>>,
    /// The length of its table in bytes.
    pub len: u64,
}
