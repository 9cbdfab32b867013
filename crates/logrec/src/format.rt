//! What the writer and the reader both know of the format.

ghost use Rattle.std.specs.Prelude.{◌≡◌, ◌<◌, length};
ghost use Rattle.logrec.specs.Log.{block_left, zeros_due, room_at, fragment_type, checksum};
ghost use Rattle.logrec.specs.declared.format.TheConstants.{HEADER_LEN};

use coding::{crc32c_pair, mask};

/// The bytes of a block. Only a log's last block has fewer.
pub const BLOCK_LEN: usize = 32_768;

/// The bytes of a header: a checksum of 4, a length of 2, and a type.
pub const HEADER_LEN: usize = 7;

/// The most content of a fragment: a block without the header.
pub const MAX_CONTENT_LEN: usize = BLOCK_LEN - HEADER_LEN;

/// The most zeros that a block can end with: one byte less than a header.
pub const ZEROS: [u8; 6] = [0; 6];

/// How many zeros are due at `offset`, before the next header: 0 to 6.
pub fn zeros_len(offset: usize) -> usize
    ensures len { result ≡ length (zeros_due offset) }
    ensures short { result < HEADER_LEN }
{
    let left = block_left(offset);
    if left < HEADER_LEN { left } else { 0 }
}

/// How many bytes of a record at `offset` its first fragment has room for.
pub fn room_at(offset: usize) -> usize
    ensures { result ≡ room_at offset }
{
    let left = block_left(offset);
    if left < HEADER_LEN {
        MAX_CONTENT_LEN
    } else {
        left - HEADER_LEN
    }
}

/// The type of a fragment: does it begin its record, and does it end it?
pub fn type_of(begins: bool, ends: bool) -> u8
    ensures { result ≡ fragment_type begins ends }
{
    let fragment_type = match (begins, ends) {
        (true, true) => FragmentType::Full,
        (true, false) => FragmentType::First,
        (false, false) => FragmentType::Middle,
        (false, true) => FragmentType::Last,
    };
    fragment_type as u8
}

/// The checksum in a fragment's header: the masked CRC-32C of its type and content.
#[tactic(auto, unfolding(crate::specs::Log::checksum))]
pub fn checksum(kind: u8, content: &[u8]) -> u32
    ensures { result ≡ checksum kind content.now }
{
    mask(crc32c_pair(&[kind], content))
}

/// How many bytes are left in the block that `offset` is in.
fn block_left(offset: usize) -> usize
    ensures { result ≡ block_left offset }
{
    BLOCK_LEN - offset % BLOCK_LEN
}

#[derive(Clone, Copy)]
enum FragmentType {
    /// It is its record.
    Full = 1,
    /// It begins its record and does not end it.
    First = 2,
    /// It neither begins nor ends its record.
    Middle = 3,
    /// It ends its record and does not begin it.
    Last = 4,
}
