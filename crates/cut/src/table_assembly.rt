//! Whole tables: their encoded data blocks, and what closes them.

ghost use Rattle.std.specs.Prelude.{◌≡◌, ◌≤◌, length, Ok};
ghost use Rattle.std.specs.List.{AllByRecursion};
ghost use Rattle.coding.specs.Answers.{EqualOrMemory};
ghost use Rattle.block.specs.BlockFormat.{block};
ghost use Rattle.block.specs.declared.builder.TheConstants.{MAX_BLOCK_LEN, MAX_RESTART_INTERVAL};
ghost use Rattle.table.specs.Table.{index_keys, stored_blocks, table_of_blocks};
ghost use Rattle.table.specs.declared.table_check.TheConstants.{MAX_TABLE_LEN};
ghost use Rattle.cut.specs.PlannedBlocks.{block_lists, IsPlanned};

use crate::data_blocks::encode_blocks;
use crate::planned_block::PlannedBlock;
use crate::table_index::index_block;
use coding::Fault;
use ikey::Comparator;
use std::alloc::Global;
use table::push_closing;

/// The table of data blocks, at a restart interval from 1 to 1,024. The memory has room for `room`
/// bytes from the start.
pub(crate) fn whole_table<C: Comparator>(
    alloc: Global,
    blocks: &[PlannedBlock<'_, '_>],
    interval: u64,
    room: usize,
) -> Result<Vec<u8>, Fault>
    requires positive { 1 ≤ interval }
    requires limited { interval ≤ MAX_RESTART_INTERVAL }
    requires short { AllByRecursion
        (λ b. length (block interval b.entries.entries) ≤ MAX_BLOCK_LEN) blocks.now }
    requires planned { AllByRecursion (IsPlanned interval) blocks.now }
    requires fits { length
        (table_of_blocks (index_keys C.cmp C.short_keys) interval
        (block_lists blocks.now)) ≤ MAX_TABLE_LEN }
    ensures { EqualOrMemory (λ v. v.items) result
        (Ok (table_of_blocks (index_keys C.cmp C.short_keys) interval
        (block_lists blocks.now))) }
{
    let stored = encode_blocks(alloc, blocks, interval, room)?;
    close_table::<C>(alloc, blocks, interval, stored)
}

/// The table of data blocks that are `stored`, each with its trailer, at this restart interval: the
/// metaindex, the index and the footer come after them. Requires that it has at most 2^30 bytes.
///
/// The only fault is Memory, and then the blocks are gone. They become the table: if their memory
/// has room for all of it, none of its bytes is copied.
pub(crate) fn close_table<C: Comparator>(
    alloc: Global,
    blocks: &[PlannedBlock<'_, '_>],
    interval: u64,
    stored: Vec<u8>,
) -> Result<Vec<u8>, Fault>
    requires planned { AllByRecursion (IsPlanned interval) blocks.now }
    requires stored { stored.items ≡ stored_blocks interval (block_lists blocks.now) }
    requires fits { length
        (table_of_blocks (index_keys C.cmp C.short_keys) interval
        (block_lists blocks.now)) ≤ MAX_TABLE_LEN }
    ensures { EqualOrMemory (λ v. v.items) result
        (Ok (table_of_blocks (index_keys C.cmp C.short_keys) interval
        (block_lists blocks.now))) }
{
    let index = index_block::<C>(alloc, blocks, interval)?;
    let mut table = stored;
    push_closing(alloc, &mut table, &index)?;
    Ok(table)
}
