//! The index of a table whose data blocks are planned.

ghost use Rattle.std.specs.Prelude.{◌≡◌, ◌≤◌, ◌<◌, length, drop, IfOk, IfErr, Ok};
ghost use Rattle.std.specs.List.{AllByRecursion};
ghost use Rattle.coding.specs.Answers.{EqualOrMemory, fault};
ghost use Rattle.coding.specs.declared.fault.FaultName.TheVariants.{Memory};
ghost use Rattle.table.specs.Table.{index_keys, index_from, table_of_blocks};
ghost use Rattle.table.specs.declared.table_check.TheConstants.{MAX_TABLE_LEN};
ghost use Rattle.cut.specs.PlannedBlocks.{block_lists, IsPlanned};
ghost use Rattle.cut.specs.PlaceKey.{place_key};

use crate::planned_block::PlannedBlock;
use block::BlockBuilder;
use coding::Fault;
use ikey::{Comparator, KeyBuf, internal_separator, internal_successor};
use std::alloc::Global;
use table::{BlockHandle, TRAILER_LEN, push_index_entry};

/// The index of data blocks. Requires that their table has at most 2^30 bytes.
pub(crate) fn index_block<C: Comparator>(
    alloc: Global,
    blocks: &[PlannedBlock<'_, '_>],
    interval: u64,
) -> Result<BlockBuilder, Fault>
    requires planned { AllByRecursion (IsPlanned interval) blocks.now }
    requires fits { length
        (table_of_blocks (index_keys C.cmp C.short_keys) interval
        (block_lists blocks.now)) ≤ MAX_TABLE_LEN }
    ensures index { IfOk result (λ b. b ≡ record {
      interval = 1;
      entries = index_from (index_keys C.cmp C.short_keys) interval 0
          (block_lists blocks.now);
    }) }
    ensures memory { IfErr result (λ e. e ≡ fault Memory) }
{
    let mut index = BlockBuilder::new(alloc, 1);
    let mut spelling = Vec::new(alloc);
    let mut offset = 0;
    for place in 0..blocks.len() {
        let size = blocks[place].len;
        let key = index_key::<C>(alloc, blocks, place, interval)?;
        let handle = BlockHandle { offset, size };
        push_index_entry(&mut index, &mut spelling, key.as_key().bytes(), handle)?;
        offset += size + TRAILER_LEN as u64;
    }
    Ok(index)
}

/// The index key of a data block: the separator of its last key and the next block's first, or for
/// the last block the successor of its last key.
fn index_key<C: Comparator>(
    alloc: Global,
    blocks: &[PlannedBlock<'_, '_>],
    place: usize,
    interval: u64,
) -> Result<KeyBuf, Fault>
    requires within { place < length blocks.now }
    requires planned { AllByRecursion (IsPlanned interval) blocks.now }
    ensures { EqualOrMemory (λ own. own) result
        (Ok (place_key (index_keys C.cmp C.short_keys)
        (drop place (block_lists blocks.now)))) }
{
    let Some(last) = blocks[place].entries.last_key() else {
        unreachable!();
    };
    if place + 1 < blocks.len() {
        let next = blocks[place + 1].entries.first();
        internal_separator::<C>(alloc, last, next.key())
    } else {
        internal_successor::<C>(alloc, last)
    }
}
