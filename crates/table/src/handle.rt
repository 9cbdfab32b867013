//! Block handles: where a block lies in its file.
//!
//! ```text
//! offset: varint    of the block's first byte, from the file's beginning
//! size: varint      of the block's contents, its trailer not counted
//! ```

ghost use Rattle.std.specs.Prelude.{◌≡◌, ◌≤◌, ◌++◌, length, OnOk, OnErr, IsOkUnless};
ghost use Rattle.std.specs.Option.{option_map};
ghost use Rattle.coding.specs.Answers.{fault};
ghost use Rattle.coding.specs.declared.fault.FaultName.TheVariants.{Memory};

use coding::{Fault, push_varint, read_u64_varint};

/// Where a block is in its file.
///
/// It is spelt as two varints, in 2 to 20 bytes: the offset, and then the size.
#[derive(Clone, Copy, PartialEq, Eq)]
pub struct BlockHandle {
    /// The offset of the block's first byte, in bytes from the file's beginning.
    pub offset: u64,
    /// The length of the block's contents in bytes. The 5 bytes of the trailer after them aren't
    /// counted.
    pub size: u64,
}

/// A handle at the front of bytes, and the bytes after it.
#[derive(Clone, Copy)]
pub struct HandleBehind<'a> {
    pub handle: BlockHandle,
    /// The bytes after its spelling.
    pub rest: &'a [u8],
}

impl BlockHandle {
    ghost use Rattle.table.specs.Handle.{handle_bytes, handle_reading};

    /// The handle whose spelling begins the bytes.
    ///
    /// None if the bytes don't begin with two numbers below 2^64, each in its shortest spelling.
    #[tactic(auto, unfolding(crate::specs::Handle::handle_reading))]
    pub fn read(bytes: &[u8]) -> Option<HandleBehind<'_>>
        ensures { option_map (λ found. record { handle = found.handle; rest = found.rest.now })
            result
            ≡ handle_reading bytes.now }
    {
        let (offset, used) = read_u64_varint(bytes)?;
        let (_, bytes) = bytes.split_at(used);
        let (size, used) = read_u64_varint(bytes)?;
        let (_, rest) = bytes.split_at(used);
        Some(HandleBehind {
            handle: BlockHandle { offset, size },
            rest,
        })
    }

    /// Appends the spelling of the handle.
    #[tactic(auto, unfolding(crate::specs::Handle::handle_bytes))]
    pub fn push(self, out: &mut Vec<u8>) -> Result<(), Fault>
        ensures ok { OnOk result (out.new.items
            ≡ out.old.items ++ handle_bytes self.offset self.size) }
        ensures err { OnErr result (out.new.items ≡ out.old.items) }
        ensures memory { IsOkUnless result (fault Memory) }
    {
        let start = out.len();
        push_varint(out, self.offset)?;
        if let Err(refused) = push_varint(out, self.size) {
            // The bytes of the offset are taken off too.
            out.truncate(start);
            return Err(refused);
        }
        Ok(())
    }
}
