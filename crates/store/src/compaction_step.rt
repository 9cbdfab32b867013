//! What a compaction leaves to its caller.

use crate::synced_version::SyncMark;
use compact::DeletedFile;
use std::collections::BTreeSet;

/// A compaction that was installed. Only this crate makes one.
#[derive(Drop)]
pub struct CompactionStep {
    /// The number and the length of each new table, in order.
    pub outputs: Vec<(u64, u64)>,
    /// The inputs, which it deleted, by level and number.
    pub deleted: BTreeSet<DeletedFile>,
    /// The number of its manifest.
    pub manifest: u64,
    /// The bytes of its edit, which makes the edited version of the one before.
    pub edit: Vec<u8>,
    pub(crate) mark: SyncMark,
}
