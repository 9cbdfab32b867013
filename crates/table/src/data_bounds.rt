//! The keys of the data blocks, and whether they rise.

ghost use Rattle.std.specs.Prelude.{◌≡◌, ◌≤◌, ◌&&◌, not, IfOk, OnOk, IsOk, length, Ok};
ghost use Rattle.std.specs.Option.{option_map};
ghost use Rattle.std.specs.Ordering.{is_gt};
ghost use Rattle.std.specs.Result.{result_map_both};
ghost use Rattle.coding.specs.Answers.{EqualOrMemory};
ghost use Rattle.block.specs.BlockReading.{block_reading};
ghost use Rattle.ikey.specs.Order.{internal_cmp};
ghost use Rattle.table.specs.EntryTests.{is_above, entry_test};
ghost use Rattle.table.specs.TableContents.{data_reading};
ghost use Rattle.table.specs.BoundsReading.{bounds_of, bounds_reading, stored_bounds};
ghost use Rattle.table.specs.IndexEntries.{index_entries_of};
ghost use Rattle.table.specs.declared.trailer.TheConstants.{TRAILER_LEN};

use crate::bounds::Bounds;
use crate::indexed_block::IndexedBlock;
use crate::table_check::MAX_VALUE_LEN;
use crate::tally::Tally;
use crate::trailer::contents;
use block::CheckingCursor;
use coding::{Fault, FaultName};
use ikey::{Comparator, InternalKey, KeyBuf};
use std::alloc::Global;
use std::cmp::Ordering;

/// Tests an entry after the key `before`, and answers its key.
#[inline(always)]
fn test_entry<'k, C: Comparator>(
    before: Option<InternalKey<'_>>,
    key: &'k [u8],
    value: &[u8],
) -> Result<InternalKey<'k>, Fault>
    ensures test { result_map_both (λ key. tt) (λ e. e) result
        ≡ entry_test C.cmp (option_map (λ key. key.bytes.now) before.entry)
        (record { key = key.now; value = value.now }) }
    ensures key { IfOk result (λ found. found.bytes.now ≡ key.now) }
{
    let key = InternalKey::parse(key)?;
    if value.len() > MAX_VALUE_LEN {
        return Err(Fault::of(FaultName::TooLarge));
    }
    match before {
        Some(before) if before.compare::<C>(&key) != Ordering::Less => Err(Fault::of(
            FaultName::Order,
        )),
        _ => Ok(key),
    }
}

/// The first and the last key of the entries still to come, after the key `before`, if they are of
/// a block and pass their tests. Counting goes on from `so_far`. A fault of an entry may be
/// answered although the bytes are no block.
fn bounds_ahead<C: Comparator>(
    alloc: Global,
    cursor: &mut CheckingCursor<'_>,
    before: Option<InternalKey<'_>>,
    so_far: Tally,
) -> Result<Bounds, Fault>
    ensures block { OnOk result (block_reading cursor.old.bytes ≡ Ok cursor.old.all) }
    ensures bounds { IsOk (block_reading cursor.old.bytes)
        → EqualOrMemory (λ bounds. bounds) result (bounds_reading C.cmp
        (option_map (λ key. key.bytes.now) before.entry) so_far cursor.old.ahead) }
{
    if !cursor.valid() {
        return Err(Fault::of(FaultName::Empty));
    }
    let first = test_entry::<C>(before, cursor.key(), cursor.value())?;
    let mut tally = so_far.with(before, first);
    let smallest = KeyBuf::of(alloc, first)?;
    let mut largest = KeyBuf::of(alloc, first)?;
    cursor.advance()?;
    while cursor.valid() {
        let last = Some(largest.as_key());
        let key = test_entry::<C>(last, cursor.key(), cursor.value())?;
        tally = tally.with(last, key);
        largest.set(key)?;
        cursor.advance()?;
    }
    Ok(Bounds {
        smallest,
        largest,
        tally,
    })
}

/// The first and the last key of a stored data block after the key `before`, or the first test that
/// it fails. Counting goes on from `so_far`. `cursor` walks over it, wherever it was before.
fn bounds_of<'a, C: Comparator>(
    alloc: Global,
    cursor: &mut CheckingCursor<'a>,
    stored: &'a [u8],
    before: Option<InternalKey<'_>>,
    so_far: Tally,
) -> Result<Bounds, Fault>
    requires { TRAILER_LEN ≤ length stored.now }
    ensures { EqualOrMemory (λ bounds. bounds) result
        (stored_bounds C.cmp (option_map (λ key. key.bytes.now) before.entry) so_far stored.now) }
{
    let bytes = contents(stored)?;
    cursor.enter(bytes)?;
    match bounds_ahead::<C>(alloc, cursor, before, so_far) {
        Ok(bounds) => Ok(bounds),
        Err(refused) => {
            // What is wrong with the block itself comes first.
            block::check(bytes)?;
            Err(refused)
        }
    }
}

/// Whether a block with these bounds is above the index key before it, and none of its keys is
/// above its own index key.
fn is_between<C: Comparator>(below: Option<&KeyBuf>, bounds: &Bounds, key: &KeyBuf) -> bool
    ensures { result
        ≡ (is_above C.cmp (option_map (λ key. key.now) below.entry) bounds.now.smallest
        && not (is_gt (internal_cmp C.cmp bounds.now.largest key.now))) }
{
    let above = match below {
        Some(below) => below.as_key().compare::<C>(&bounds.smallest.as_key()) == Ordering::Less,
        None => true,
    };
    above && bounds.largest.as_key().compare::<C>(&key.as_key()) != Ordering::Greater
}

/// The first and the last key of the data blocks that the index names, and what is counted of their
/// entries. Or the first test that they or the index keys among them fail.
pub(crate) fn bounds_of_all<'a, C: Comparator>(
    alloc: Global,
    index: &[IndexedBlock<'a>],
) -> Result<Bounds, Fault>
    ensures { EqualOrMemory (λ bounds. bounds) result
        (result_map_both bounds_of (λ e. e) (data_reading C.cmp (index_entries_of index.now))) }
{
    let Some((first, others)) = index.split_first() else {
        return Err(Fault::of(FaultName::Empty));
    };
    // One cursor walks all blocks, so the memory of its key is asked for once.
    let mut cursor = CheckingCursor::none(alloc);
    let mut bounds = bounds_of::<C>(alloc, &mut cursor, first.stored, None, Tally::none())?;
    let mut fits = is_between::<C>(None, &bounds, &first.key);
    let mut below = &first.key;
    for entry in others {
        let before = Some(bounds.largest.as_key());
        let next = bounds_of::<C>(alloc, &mut cursor, entry.stored, before, bounds.tally)?;
        fits = is_between::<C>(Some(below), &next, &entry.key) && fits;
        below = &entry.key;
        bounds.largest = next.largest;
        bounds.tally = next.tally;
    }
    if !fits {
        return Err(Fault::of(FaultName::Index));
    }
    Ok(bounds)
}
