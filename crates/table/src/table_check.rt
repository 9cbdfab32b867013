//! Which bytes are a table: the tests of a reader.

ghost use Rattle.std.specs.Prelude.{◌≡◌, ◌≤◌, IfOk, List, length, Ok};
ghost use Rattle.std.specs.Result.{result_map_both};
ghost use Rattle.coding.specs.Answers.{EqualOrMemory};
ghost use Rattle.block.specs.EncodedEntry.{Entry};
ghost use Rattle.table.specs.TableBytes.{IsTable, ReadsTables};
ghost use Rattle.table.specs.IndexReading.{stored_at, block_in, index_entry, index_reading};
ghost use Rattle.table.specs.TableContents.{index_in, contents_reading};
ghost use Rattle.table.specs.IndexEntries.{index_entry_of, index_entries_of};
ghost use Rattle.table.specs.declared.trailer.TheConstants.{TRAILER_LEN};

use crate::data_bounds::bounds_of_all;
use crate::footer::{FOOTER_LEN, Footer};
use crate::handle::BlockHandle;
use crate::indexed_block::IndexedBlock;
use crate::sound_table::SoundTable;
use crate::trailer::{TRAILER_LEN, contents};
use block::{BlockCursor, SoundBlock};
use coding::{Fault, FaultName};
use ikey::{Comparator, InternalKey, KeyBuf};
use std::alloc::Global;

/// The greatest length of a table, 2^30 bytes.
pub const MAX_TABLE_LEN: usize = 1 << 30;

/// The greatest length of a value, 2^24 - 1 bytes.
pub const MAX_VALUE_LEN: usize = 16_777_215;

/// Reads bytes as a table: one list of entries, whose internal keys rise strictly. `layout.rt`
/// shows the format. What the metaindex holds isn't read.
///
/// Other bytes are refused by the first of these tests that fails:
///
/// 1. they are at most 2^30: `Size`;
/// 2. they are at least 48: `Short`;
/// 3. the last 8 are the magic: `Magic`;
/// 4. both handles of the footer have a reading: `Handle`; the rest up to 40 bytes isn't tested;
/// 5. the metaindex, and then the index, is before the footer: `Range`;
/// 6. the metaindex is a stored block: (1);
/// 7. the index is a stored block: (1);
/// 8. of each entry of the index in order:
///    - the key is an internal key: `Key`;
///    - its user key has at most 65,535 bytes: `TooLarge`;
///    - the value is one handle: `Handle`;
///    - what it points at is before the footer: `Range`;
/// 9. the index has an entry: `Empty`;
/// 10. of each data block in the order of the index:
///     - it is a stored block: (1);
///     - it has an entry: `Empty`;
///     - and of each entry in order:
///       - the key is an internal key: `Key`;
///       - its user key has at most 65,535 bytes and the value at most 16,777,215: `TooLarge`;
///       - the key is above the one before it in the table: `Order`;
/// 11. each key of the index is at or above its block's last key, and below the next block's first:
///     `Index`.
///
/// (1) Its checksum is that of contents and type: `Trailer`; the type isn't 1, which is Snappy's:
///     `Compressed`; it is 0: `BlockType`; the contents are a block: `Block`.
///
/// Or the fault is Memory. It reads each data block once, keeps two keys, and counts; on the way it
/// takes the memory of the index keys. What a footer or an index claims is compared with the bytes
/// that are there before memory is asked for.
pub fn check<C: Comparator>(alloc: Global, bytes: &[u8]) -> Result<SoundTable<'_, C>, Fault>
    // The bytes are a table of what is read.
    ensures found { IfOk result (λ table. IsTable C.cmp bytes.now table.entries) }
    // A table is read, unless memory runs out.
    ensures only { (entries : List Entry) → IsTable C.cmp bytes.now entries
        → EqualOrMemory (λ table. table.entries) result (Ok entries) }
    // Which refusal it is, and all that is read.
    ensures exact { EqualOrMemory (λ table. table) result (contents_reading C.cmp bytes.now) }
{
    read(alloc, bytes)
}

/// The law that bytes read as a table exactly if they are one. A call does nothing.
pub fn reads_tables<C: Comparator>()
    ensures { ReadsTables C.cmp }
{}

/// The table that the bytes are, or the first test that they fail.
fn read<C: Comparator>(alloc: Global, bytes: &[u8]) -> Result<SoundTable<'_, C>, Fault>
    ensures { EqualOrMemory (λ table. table) result (contents_reading C.cmp bytes.now) }
{
    let block = index_in(bytes)?;
    let index = indexed_blocks(alloc, bytes, &block)?;
    let bounds = bounds_of_all::<C>(alloc, &index)?;
    Ok(SoundTable::of(bytes, block, bounds))
}

/// The stored block that `handle` points at; Range unless it is before the footer.
pub(crate) fn stored_at(bytes: &[u8], handle: BlockHandle) -> Result<&[u8], Fault>
    ensures reading { result_map_both (λ stored. stored.now) (λ e. e) result
        ≡ stored_at bytes.now handle }
    ensures long { IfOk result (λ stored. TRAILER_LEN ≤ length stored.now) }
{
    let Some(room) = bytes.len().checked_sub(FOOTER_LEN + TRAILER_LEN) else {
        return Err(Fault::of(FaultName::Range));
    };
    if handle.size > room as u64 || handle.offset > room as u64 - handle.size {
        return Err(Fault::of(FaultName::Range));
    }
    let offset = handle.offset as usize;
    let (_, behind) = bytes.split_at(offset);
    let (stored, _) = behind.split_at(handle.size as usize + TRAILER_LEN);
    Ok(stored)
}

/// The block in stored bytes, or the first test that they fail.
fn block_in(stored: &[u8]) -> Result<SoundBlock<'_>, Fault>
    requires { TRAILER_LEN ≤ length stored.now }
    ensures { EqualOrMemory (λ block. block.entries) result (block_in stored.now) }
{
    block::check(contents(stored)?)
}

/// The index block, or the first test that the footer, the metaindex block or the index block
/// fails.
fn index_in(bytes: &[u8]) -> Result<SoundBlock<'_>, Fault>
    ensures { EqualOrMemory (λ block. block.entries) result (index_in bytes.now) }
{
    if bytes.len() > MAX_TABLE_LEN {
        return Err(Fault::of(FaultName::Size));
    }
    if bytes.len() < FOOTER_LEN {
        return Err(Fault::of(FaultName::Short));
    }
    let (_, footer) = bytes.split_at(bytes.len() - FOOTER_LEN);
    let footer = Footer::read(footer)?;
    let metaindex = stored_at(bytes, footer.metaindex)?;
    let index = stored_at(bytes, footer.index)?;
    block_in(metaindex)?;
    block_in(index)
}

/// What an entry of the index names, or the first test that it fails.
fn indexed_block<'a>(
    alloc: Global,
    bytes: &'a [u8],
    key: &[u8],
    value: &[u8],
) -> Result<IndexedBlock<'a>, Fault>
    ensures { EqualOrMemory index_entry_of result
        (index_entry bytes.now (record { key = key.now; value = value.now })) }
{
    let key = InternalKey::parse(key)?;
    let Some(found) = BlockHandle::read(value) else {
        return Err(Fault::of(FaultName::Handle));
    };
    if !found.rest.is_empty() {
        return Err(Fault::of(FaultName::Handle));
    }
    let stored = stored_at(bytes, found.handle)?;
    Ok(IndexedBlock {
        key: KeyBuf::of(alloc, key)?,
        stored,
    })
}

/// What each entry of the index names, or the first test that one fails.
fn indexed_blocks<'a>(
    alloc: Global,
    bytes: &'a [u8],
    index: &SoundBlock<'_>,
) -> Result<Vec<IndexedBlock<'a>>, Fault>
    ensures { EqualOrMemory (λ v. index_entries_of v.items) result
        (index_reading bytes.now index.now.entries) }
{
    let mut cursor = BlockCursor::new(alloc, index)?;
    let mut all: Vec<IndexedBlock<'a>> = Vec::new(alloc);
    while cursor.valid() {
        all.push(indexed_block(alloc, bytes, cursor.key(), cursor.value())?)?;
        cursor.advance()?;
    }
    Ok(all)
}
