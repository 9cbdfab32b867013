//! A kept entry, as a run stores it.

/// A kept entry: where its key ends in the buffer of its chunk, how much of it the key before it
/// has, its value, and a sum of lengths.
#[derive(Clone, Copy)]
pub(crate) struct KeptEntry<'a> {
    /// The offset after the last byte of the key. The key begins where the one before it ends.
    pub end: u32,
    /// How many bytes the key shares with the one before it in its chunk. Of a chunk's first entry
    /// no one reads it.
    pub shared: u32,
    /// The value, a slice of an input's bytes.
    pub value: &'a [u8],
    /// The lengths that the entries up to this one have in a block if no restart points at them,
    /// added up; 2^64 - 1 if they are more. The chunk's first entry is not counted.
    pub sum: u64,
}
