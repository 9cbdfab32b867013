//! A data block that was flushed.

use crate::handle::BlockHandle;
use ikey::KeyBuf;

/// What the index has of a data block.
#[derive(Drop)]
pub(crate) struct FlushedBlock {
    /// A key at or above the block's last key, and below the next block's first key.
    pub key: KeyBuf,
    /// Where the block is.
    pub handle: BlockHandle,
}
