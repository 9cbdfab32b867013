//! The footer of a table: its last 48 bytes.
//!
//! ```text
//! metaindex: handle    where the metaindex block lies
//! index: handle        where the index block lies
//! zeros                up to the footer's first 40 bytes
//! magic: u64           0xdb4775248b80fb57, lowest byte first
//! ```

ghost use Rattle.std.specs.Prelude.{◌≡◌, ◌≤◌, ◌++◌, length, take, OnOk, OnErr, IsOkUnless};
ghost use Rattle.coding.specs.Answers.{fault};
ghost use Rattle.coding.specs.declared.fault.FaultName.TheVariants.{Memory};
ghost use Rattle.table.specs.declared.footer.TheConstants.{FOOTER_LEN};

use crate::handle::BlockHandle;
use coding::{Fault, FaultName};

/// The length of a footer, in bytes.
pub const FOOTER_LEN: usize = 48;

/// The bytes of a footer before the magic.
pub const HANDLES_LEN: usize = 40;

/// What fills a footer up to the magic.
const ZEROS: [u8; HANDLES_LEN] = [0; HANDLES_LEN];

/// The magic of a table: the number 0xdb4775248b80fb57, lowest byte first.
const MAGIC: [u8; 8] = [0x57, 0xfb, 0x80, 0x8b, 0x24, 0x75, 0x47, 0xdb];

/// The last 48 bytes of a table: the handles of the metaindex and of the index, zeros up to 40
/// bytes, and the 8 bytes of the magic.
#[derive(Clone, Copy, PartialEq, Eq)]
pub struct Footer {
    /// Where the metaindex block is.
    pub metaindex: BlockHandle,
    /// Where the index block is.
    pub index: BlockHandle,
}

impl Footer {
    ghost use Rattle.table.specs.Footer.{footer_bytes, footer_reading, handles_bytes};

    /// Reads the 48 bytes of a footer. Takes no memory.
    ///
    /// Magic if the last 8 bytes aren't the magic; else Handle if the first 40 don't begin with two
    /// handles. What comes after the handles isn't tested.
    #[tactic(auto, unfolding(crate::specs::Footer::footer_reading))]
    pub fn read(bytes: &[u8]) -> Result<Footer, Fault>
        requires { length bytes.now ≡ FOOTER_LEN }
        ensures { result ≡ footer_reading bytes.now }
    {
        let (handles, magic) = bytes.split_at(HANDLES_LEN);
        if !magic.starts_with(&MAGIC) {
            return Err(Fault::of(FaultName::Magic));
        }
        let Some(metaindex) = BlockHandle::read(handles) else {
            return Err(Fault::of(FaultName::Handle));
        };
        let Some(index) = BlockHandle::read(metaindex.rest) else {
            return Err(Fault::of(FaultName::Handle));
        };
        Ok(Footer {
            metaindex: metaindex.handle,
            index: index.handle,
        })
    }

    /// Appends the 48 bytes.
    pub fn push(self, out: &mut Vec<u8>) -> Result<(), Fault>
        ensures ok { OnOk result (out.new.items ≡ out.old.items ++ footer_bytes self) }
        ensures err { OnErr result (out.new.items ≡ out.old.items) }
        ensures memory { IsOkUnless result (fault Memory) }
    {
        let start = out.len();
        let pushed = self.push_parts(out);
        if pushed.is_err() {
            out.truncate(start);
        }
        pushed
    }

    /// Appends the 48 bytes. The only fault is Memory, which may leave some of them.
    #[tactic(auto, unfolding(crate::specs::Footer::footer_bytes))]
    fn push_parts(self, out: &mut Vec<u8>) -> Result<(), Fault>
        ensures ok { OnOk result (out.new.items ≡ out.old.items ++ footer_bytes self) }
        ensures err { OnErr result (take (length out.old.items) out.new.items ≡ out.old.items) }
        ensures memory { IsOkUnless result (fault Memory) }
    {
        let start = out.len();
        self.metaindex.push(out)?;
        self.index.push(out)?;
        let (_, zeros) = ZEROS.split_at(out.len() - start);
        out.extend_from_slice(zeros)?;
        out.extend_from_slice(&MAGIC)?;
        Ok(())
    }
}
