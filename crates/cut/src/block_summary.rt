//! What planned data blocks have together.

ghost use Rattle.std.specs.Prelude.{◌≡◌, ◌≤◌, length, slice_get, Some};
ghost use Rattle.std.specs.Option.{option_map};
ghost use Rattle.table.specs.declared.table_check.TheConstants.{MAX_TABLE_LEN};
ghost use Rattle.cut.specs.BlockInProgress.{last_entry_key};
ghost use Rattle.cut.specs.OutputMeta.{IsMetaOf};
ghost use Rattle.cut.specs.PlannedBlocks.{block_lists};
ghost use Rattle.cut.specs.OutputInProgress.{entries_in_blocks};
ghost use Rattle.cut.specs.Plan.{block_ends_from};
ghost use Rattle.cut.specs.PlanInvariant.{HaveEntries, planned_of};

use crate::entry_ref::EntryRef;
use crate::output_meta::OutputMeta;
use crate::planned_block::PlannedBlock;
use crate::planned_output::PlannedOutput;
use ikey::InternalKey;

/// The number of entries of data blocks.
fn count_entries(blocks: &[PlannedBlock<'_, '_>]) -> u64
    requires { length (entries_in_blocks blocks.now) ≤ MAX_TABLE_LEN }
    ensures { result ≡ length (entries_in_blocks blocks.now) }
{
    let mut count = 0;
    for block in blocks {
        count += block.entries.len();
    }
    count
}

/// The place after the last entry of the data block of number `block`; None if there is no such
/// block.
pub(crate) fn end_of(blocks: &[PlannedBlock<'_, '_>], block: usize) -> Option<u64>
    requires { length (entries_in_blocks blocks.now) ≤ MAX_TABLE_LEN }
    ensures { result ≡ slice_get (block_ends_from 0 (block_lists blocks.now)) block }
{
    if block >= blocks.len() {
        return None;
    }
    Some(count_entries(&blocks[..block + 1]))
}

/// The entries of the data block of number `block`; None if there is no such block.
pub(crate) fn entries_of<'p, 'r, 'a>(
    blocks: &'p [PlannedBlock<'r, 'a>],
    block: usize,
) -> Option<&'p EntryRef<'r, 'a>>
    ensures { option_map (λ entries. entries.now.entries) result
        ≡ slice_get (block_lists blocks.now) block }
{
    if block >= blocks.len() {
        return None;
    }
    Some(&blocks[block].entries)
}

/// The first key of data blocks.
fn first_key<'r>(blocks: &[PlannedBlock<'r, '_>]) -> InternalKey<'r>
    requires { HaveEntries blocks.now }
    ensures { option_map (λ e. e.key) (slice_get (entries_in_blocks blocks.now) 0)
        ≡ Some result.bytes.now }
{
    let first = blocks[0].entries.first();
    first.key()
}

/// The last key of data blocks.
fn last_key<'r>(blocks: &[PlannedBlock<'r, '_>]) -> InternalKey<'r>
    requires { HaveEntries blocks.now }
    ensures { last_entry_key (entries_in_blocks blocks.now) ≡ Some result.bytes.now }
{
    match blocks[blocks.len() - 1].entries.last_key() {
        Some(key) => key,
        None => unreachable!(),
    }
}

/// What is known of an output before it is written.
pub(crate) fn meta_of<'r>(output: &PlannedOutput<'r, '_>) -> OutputMeta<'r>
    requires some { HaveEntries output.now.blocks.items }
    requires fits { length (entries_in_blocks output.now.blocks.items) ≤ MAX_TABLE_LEN }
    ensures { IsMetaOf (planned_of output.now) result }
{
    OutputMeta {
        number: output.number,
        entries: count_entries(&output.blocks),
        blocks: output.blocks.len(),
        len: output.len,
        smallest: first_key(&output.blocks),
        largest: last_key(&output.blocks),
    }
}
