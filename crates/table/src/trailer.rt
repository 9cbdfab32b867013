//! Stored blocks: contents, and a trailer of 5 bytes after them.
//!
//! ```text
//! contents
//! type: u8         0: contents as they are; 1: compressed by Snappy, which is refused
//! checksum: u32    the masked CRC-32C of contents and type, lowest byte first
//! ```

ghost use Rattle.std.specs.Prelude.{◌≡◌, ◌≤◌, ◌++◌, ◌∷◌, length, Ok, IsOk, OnOk, OnErr, IsOkUnless};
ghost use Rattle.std.specs.Result.{result_map_both};
ghost use Rattle.byteorder.specs.Endian.{little_bytes};
ghost use Rattle.table.specs.Trailer.{stored_reading};
ghost use Rattle.coding.specs.Answers.{fault};
ghost use Rattle.coding.specs.declared.fault.FaultName.TheVariants.{Memory};
ghost use Rattle.table.specs.declared.trailer.TheConstants.{TRAILER_LEN};

use byteorder::{ByteOrder, LittleEndian};
use coding::{Fault, FaultName, crc32c, crc32c_pair, mask};

/// The length of a trailer, in bytes.
pub const TRAILER_LEN: usize = 5;

/// The type of contents that are stored as they are.
const PLAIN: u8 = 0;

/// The type of contents that Snappy compressed.
const SNAPPY: u8 = 1;

/// The 5 bytes after a block's contents: the type, and then the checksum, lowest byte first.
#[derive(Clone, Copy, PartialEq, Eq)]
pub struct Trailer {
    /// The type of the contents: 0 if they are stored as they are, 1 if Snappy compressed them.
    pub block_type: u8,
    /// The masked CRC-32C of the contents and the type.
    pub checksum: u32,
}

impl Trailer {
    ghost use Rattle.table.specs.Trailer.{trailer_bytes};

    /// The trailer of contents that are stored as they are.
    #[tactic(auto, unfolding(crate::specs::Trailer::trailer_bytes))]
    pub fn of(contents: &[u8]) -> Trailer
        ensures { result.block_type ∷ little_bytes 4 result.checksum ≡ trailer_bytes contents.now }
    {
        Trailer {
            block_type: PLAIN,
            checksum: mask(crc32c_pair(contents, &[PLAIN])),
        }
    }

    /// Appends the 5 bytes.
    pub fn push(self, out: &mut Vec<u8>) -> Result<(), Fault>
        ensures ok { OnOk result (out.new.items
            ≡ out.old.items ++ self.block_type ∷ little_bytes 4 self.checksum) }
        ensures err { OnErr result (out.new.items ≡ out.old.items) }
        ensures memory { IsOkUnless result (fault Memory) }
    {
        let mut trailer = [self.block_type; 5];
        LittleEndian::write_u32(&mut trailer[1..], self.checksum);
        out.extend_from_slice(&trailer)?;
        Ok(())
    }
}

/// The contents of a stored block: `bytes` less the 5 of the trailer. Takes no memory.
///
/// Trailer if the checksum isn't that of the contents and the type; else Compressed if the type is
/// 1; else BlockType if it isn't 0.
#[tactic(auto, unfolding(crate::specs::Trailer::stored_reading))]
pub fn contents(bytes: &[u8]) -> Result<&[u8], Fault>
    requires { TRAILER_LEN ≤ length bytes.now }
    ensures { result_map_both (λ found. found.now) (λ e. e) result ≡ stored_reading bytes.now }
{
    let (summed, checksum) = bytes.split_at(bytes.len() - 4);
    // The checksum is read last: it comes after all the bytes that are read for the sum.
    let sum = mask(crc32c(summed));
    if sum != LittleEndian::read_u32(checksum) {
        return Err(Fault::of(FaultName::Trailer));
    }
    let size = bytes.len() - TRAILER_LEN;
    match bytes[size] {
        PLAIN => Ok(&bytes[..size]),
        SNAPPY => Err(Fault::of(FaultName::Compressed)),
        _ => Err(Fault::of(FaultName::BlockType)),
    }
}

/// The contents of a stored block that is known to pass the tests of [`contents`]. No test is made
/// again.
pub fn reopen_contents(bytes: &[u8]) -> &[u8]
    requires long { TRAILER_LEN ≤ length bytes.now }
    requires passed { IsOk (stored_reading bytes.now) }
    ensures { stored_reading bytes.now ≡ Ok result.now }
{
    let (found, _) = bytes.split_at(bytes.len() - TRAILER_LEN);
    found
}
