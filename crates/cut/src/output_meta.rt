//! What is known of an output before it is written.

use ikey::InternalKey;

/// What is known of an output before it is written: its number, its bounds and its sizes.
#[derive(Clone, Copy)]
pub struct OutputMeta<'r> {
    /// The number of its file.
    pub number: u64,
    /// The number of its entries.
    pub entries: u64,
    /// The number of its data blocks.
    pub blocks: usize,
    /// The length of its table in bytes, at most 2^30.
    pub len: u64,
    /// Its first internal key.
    pub smallest: InternalKey<'r>,
    /// Its last internal key.
    pub largest: InternalKey<'r>,
}
