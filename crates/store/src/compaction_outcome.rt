//! What a compaction answers that is not installed.

use compact::DeletedFile;
use install::Outcome;
use std::collections::BTreeSet;

/// A compaction that was not installed.
#[derive(Drop)]
pub struct CompactionOutcome {
    /// The number and the length of each new table, in order.
    pub outputs: Vec<(u64, u64)>,
    /// The inputs, which its edit deletes, by level and number.
    pub deleted: BTreeSet<DeletedFile>,
    /// Its tables with their numbers, and the bytes of its edit.
    pub outcome: Outcome,
}
