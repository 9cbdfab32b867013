//! A data block that an index names.

ghost use Rattle.std.specs.Prelude.{◌≤◌, length};
ghost use Rattle.table.specs.declared.trailer.TheConstants.{TRAILER_LEN};

use ikey::KeyBuf;

/// What an entry of the index names.
#[derive(Drop)]
pub(crate) struct IndexedBlock<'a> {
    /// A key at or above the block's last key, and below the next block's first key.
    pub key: KeyBuf,
    /// The block's contents, and the 5 bytes of their trailer.
    pub stored: &'a [u8],
    ghost long: { TRAILER_LEN ≤ length stored.now },
}
