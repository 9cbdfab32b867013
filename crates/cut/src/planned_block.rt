//! A data block that is planned.

use crate::entry_ref::EntryRef;

/// A data block of which no byte is written yet.
#[derive(Drop)]
pub struct PlannedBlock<'r, 'a> {
    /// Its entries, which stay in the runs.
    pub entries: EntryRef<'r, 'a>,
    /// The length of the block in bytes, without its trailer.
    pub len: u64,
}

// A plan holds one for each data block.
const _: () = prove!(size_of::<PlannedBlock<'static, 'static>>() == 40);
