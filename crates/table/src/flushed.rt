//! The data blocks of a table that were flushed.

ghost use Rattle.std.specs.Prelude.{◌≡◌, ◌<◌, ◌++◌, ◌∷◌, [], length, IfOk, IfErr};
ghost use Rattle.std.specs.Prelude.{OnOk, OnErr, IsOkUnless, Ok};
ghost use Rattle.coding.specs.Answers.{EqualOrMemory, UnlessMemory, fault};
ghost use Rattle.coding.specs.declared.fault.FaultName.TheVariants.{Memory, TooLarge};
ghost use Rattle.block.specs.BlockFormat.{block};
ghost use Rattle.table.specs.Trailer.{stored_block};
ghost use Rattle.table.specs.FlushedBlocks.{flushed_block_at, index_entries};
ghost use Rattle.table.specs.Table.{closing_bytes, within_limit};
ghost use Rattle.table.specs.declared.table_check.TheConstants.{MAX_TABLE_LEN};

use crate::flushed_block::FlushedBlock;
use crate::footer::FOOTER_LEN;
use crate::layout::{push_closing, push_index_entry, push_stored};
use crate::table_check::MAX_TABLE_LEN;
use crate::trailer::TRAILER_LEN;
use block::{BlockBuilder, EMPTY_BLOCK_LEN};
use coding::{Fault, FaultName};
use ikey::KeyBuf;
use std::alloc::Global;

/// The greatest number of bytes that are asked for before they are written, 64 MiB.
const MAX_ROOM: u64 = 1 << 26;

/// Data blocks with their trailers, as they are at the beginning of a table, and what the index has
/// of them.
#[derive(Drop)]
pub(crate) struct Flushed {
    pub bytes: Vec<u8>,
    pub index: Vec<FlushedBlock>,
}

impl Flushed {
    /// Appends a block with its trailer; `key` is its index key. At the first block, room is asked
    /// for a file of `file_size` bytes.
    ///
    /// The only fault is Memory, which leaves the blocks unchanged.
    pub fn push(&mut self, key: KeyBuf, builder: &BlockBuilder, file_size: u64) -> Result<(), Fault>
        ensures bytes { OnOk result
            (self.new.bytes.items ≡ self.old.bytes.items ++ stored_block
            (block builder.now.interval builder.now.entries)) }
        ensures index { OnOk result
            (self.new.index.items
            ≡ self.old.index.items
            ++ flushed_block_at key (length self.old.bytes.items) (length
            (block builder.now.interval builder.now.entries)) ∷ []) }
        ensures bytes_stay { OnErr result (self.new.bytes.items ≡ self.old.bytes.items) }
        ensures index_stays { OnErr result (self.new.index.items ≡ self.old.index.items) }
        ensures memory { IsOkUnless result (fault Memory) }
    {
        self.index.reserve(1)?;
        if self.bytes.is_empty() {
            // A sixteenth is for the index. If so much is refused, the file grows block by block.
            let size = file_size.min(MAX_ROOM);
            let _room = self.bytes.reserve((size + size / 16) as usize);
        }
        let handle = push_stored(&mut self.bytes, builder)?;
        self.index.push(FlushedBlock { key, handle })?;
        Ok(())
    }

    /// The table of these data blocks: the blocks, the metaindex, the index and the footer.
    ///
    /// Faults: TooLarge if it would have more than 2^30 bytes, else only Memory.
    pub fn finish(self, alloc: Global) -> Result<Vec<u8>, Fault>
        ensures { EqualOrMemory (λ v. v.items) result
            (within_limit (self.bytes.items
            ++ closing_bytes (length self.bytes.items) (index_entries self.index.items))) }
    {
        let Flushed { mut bytes, index } = self;
        let index = index_block(alloc, &index)?;
        // The metaindex has no entries.
        let closing_len = EMPTY_BLOCK_LEN + index.estimate() + 2 * TRAILER_LEN + FOOTER_LEN;
        if bytes.len() + closing_len > MAX_TABLE_LEN {
            return Err(Fault::of(FaultName::TooLarge));
        }
        push_closing(alloc, &mut bytes, &index)?;
        Ok(bytes)
    }
}

/// The index block. Faults: TooLarge, only if it has more than 2^30 bytes; else only Memory.
fn index_block(alloc: Global, index: &[FlushedBlock]) -> Result<BlockBuilder, Fault>
    ensures ok { IfOk result (λ b. b ≡ record { interval = 1; entries = index_entries index.now }) }
    ensures err { IfErr result
        (λ e. UnlessMemory e ((e
        ≡ fault TooLarge) × (MAX_TABLE_LEN < length (block 1 (index_entries index.now))))) }
{
    let mut entries = BlockBuilder::new(alloc, 1);
    let mut spelling = Vec::new(alloc);
    for entry in index {
        if entries.estimate() > MAX_TABLE_LEN {
            return Err(Fault::of(FaultName::TooLarge));
        }
        let key = entry.key.as_key().bytes();
        push_index_entry(&mut entries, &mut spelling, key, entry.handle)?;
    }
    Ok(entries)
}
