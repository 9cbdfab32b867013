//! The exact length of a table, computed of the lengths of its data blocks.
//!
//!     data blocks      each with the 5 bytes of its trailer
//!     metaindex        a block without entries: 8 bytes and 5
//!     index            at restart interval 1, an entry for each data block, and 5 bytes
//!     footer           48 bytes
//!
//! Why: the version edit and the test for `TooLarge` need it before the table is written.

ghost use Rattle.std.specs.Prelude.{◌≡◌, ◌≢◌, ◌≤◌, ◌<◌, [], length, drop, Ok};
ghost use Rattle.std.specs.List.{AllByRecursion};
ghost use Rattle.coding.specs.Answers.{EqualOrMemory};
ghost use Rattle.coding.specs.Saturated.{saturated};
ghost use Rattle.block.specs.BlockFormat.{block};
ghost use Rattle.table.specs.Table.{index_keys};
ghost use Rattle.table.specs.declared.table_check.TheConstants.{MAX_TABLE_LEN};
ghost use Rattle.cut.specs.TableLength.{planned_index_entries, planned_index_key, lens_of};
ghost use Rattle.cut.specs.TableLength.{table_size};

use crate::open_block::{EMPTY_LEN, RESTART_LEN};
use crate::planned_block::PlannedBlock;
use coding::Fault;
use ikey::{Comparator, KeyBuf, internal_separator, internal_successor};
use keep::{encoded_entry_len, varint_len};
use std::alloc::Global;
use table::{FOOTER_LEN, MAX_TABLE_LEN, TRAILER_LEN};

/// What a table has beside its data blocks and the contents of its index: the metaindex, its
/// trailer, the trailer of the index, and the footer.
pub const CLOSING_LEN: u64 = EMPTY_LEN + 2 * TRAILER_LEN as u64 + FOOTER_LEN as u64;

/// The length of data blocks with their trailers; 2^64 - 1 if it is more.
fn stored_len(blocks: &[PlannedBlock<'_, '_>]) -> u64
    ensures { result ≡ saturated (lens_of blocks.now) }
{
    let mut len: u64 = 0;
    for block in blocks {
        len = len
            .saturating_add(block.len)
            .saturating_add(TRAILER_LEN as u64);
    }
    len
}

/// The index key of the data block at `place`.
fn index_key<C: Comparator>(
    alloc: Global,
    blocks: &[PlannedBlock<'_, '_>],
    place: usize,
) -> Result<KeyBuf, Fault>
    requires within { place < length blocks.now }
    requires some { AllByRecursion (λ b. b.entries.entries ≢ []) blocks.now }
    ensures { EqualOrMemory (λ key. key) result
        (Ok (planned_index_key (index_keys C.cmp C.short_keys)
        (drop place blocks.now))) }
{
    let Some(last) = blocks[place].entries.last_key() else {
        unreachable!()
    };
    if place + 1 == blocks.len() {
        return internal_successor::<C>(alloc, last);
    }
    let next = blocks[place + 1].entries.first();
    internal_separator::<C>(alloc, last, next.key())
}

/// The length of the index block of data blocks; 2^64 - 1 if it is more.
fn index_len<C: Comparator>(alloc: Global, blocks: &[PlannedBlock<'_, '_>]) -> Result<u64, Fault>
    requires any { blocks.now ≢ [] }
    requires some { AllByRecursion (λ b. b.entries.entries ≢ []) blocks.now }
    requires short { lens_of blocks.now ≤ MAX_TABLE_LEN }
    ensures { EqualOrMemory (λ len. len) result
        (Ok (saturated
        (length (block 1
        (planned_index_entries (index_keys C.cmp C.short_keys) 0
        blocks.now))))) }
{
    let mut len = RESTART_LEN;
    let mut offset = 0;
    for place in 0..blocks.len() {
        let key = index_key::<C>(alloc, blocks, place)?;
        let size = blocks[place].len;
        let handle = varint_len(offset) + varint_len(size);
        let piece = encoded_entry_len(0, key.as_key().bytes().len(), handle as usize);
        len = len.saturating_add(piece).saturating_add(RESTART_LEN);
        offset += size + TRAILER_LEN as u64;
    }
    Ok(len)
}

/// The length of the table of these data blocks; 2^30 + 1 if it is more than 2^30.
pub(crate) fn table_len<C: Comparator>(
    alloc: Global,
    blocks: &[PlannedBlock<'_, '_>],
) -> Result<u64, Fault>
    requires any { blocks.now ≢ [] }
    requires some { AllByRecursion (λ b. b.entries.entries ≢ []) blocks.now }
    ensures { EqualOrMemory (λ len. len) result
        (Ok (table_size (index_keys C.cmp C.short_keys) blocks.now)) }
{
    let limit = MAX_TABLE_LEN as u64;
    let stored = stored_len(blocks);
    if stored > limit {
        return Ok(limit + 1);
    }
    let index = index_len::<C>(alloc, blocks)?;
    Ok((stored + CLOSING_LEN).saturating_add(index).min(limit + 1))
}
