//! A search in a block that nobody tested.

ghost use Rattle.std.specs.Prelude.{◌≡◌, ◌≢◌, ◌<◌, ◌≤◌, List, [], Ok, true, length, slice_get};
ghost use Rattle.std.specs.Prelude.{IfErr, IfOk};
ghost use Rattle.table.specs.Answers.{EqualOrMemory};
ghost use Rattle.table.specs.fault.FaultName.TheVariants.{Device, Empty};
ghost use Rattle.block.specs.EncodedEntry.{Entry};
ghost use Rattle.table.specs.EntriesFrom.{entries_from};
ghost use Rattle.table.specs.EntryTests.{HaveKeys};
ghost use Rattle.table.specs.IndexReading.{block_in};
ghost use Rattle.table.specs.RestartSearch.{first_is_below};
ghost use Rattle.scan.specs.Excuses.{Gives};
ghost use Rattle.scan.specs.SearchAnswers.{Refuses};
ghost use Rattle.table.specs.declared.trailer.TheConstants.{TRAILER_LEN};

use crate::owned_entry::OwnedEntry;
use block::{BlockCursor, SoundBlock};
use std::alloc::Global;
use std::cmp::Ordering;
use table::{Comparator, Fault, FaultName, InternalKey, KeyBuf, contents};

/// The first entry of a stored block at or above `target`. None if all are below.
///
/// Refused as the block is, Empty if it has no entry, or as the first key on the way that is no
/// internal key. The only other fault is Memory.
pub(crate) fn first_in_block<C: Comparator>(
    alloc: Global,
    stored: &[u8],
    target: InternalKey<'_>,
) -> Result<Option<OwnedEntry>, Fault>
    requires { TRAILER_LEN ≤ length stored.now }
    ensures given { (entries : List Entry) → block_in stored.now ≡ Ok entries → HaveKeys entries →
        0 < length entries → Gives result
        (λ found. found ≡ slice_get (entries_from C.cmp target.entry.bytes.now entries) 0) }
    ensures other { IfErr result (λ e. e.name ≢ Device) }
{
    let entries = entries_ahead::<C>(alloc, stored, target)?;
    first_of(alloc, &entries)
}

/// The entries of a stored block from the first one at or above `target`. Refused as
/// [`first_in_block`] is.
pub(crate) fn entries_ahead<'a, C: Comparator>(
    alloc: Global,
    stored: &'a [u8],
    target: InternalKey<'_>,
) -> Result<BlockCursor<'a>, Fault>
    requires { TRAILER_LEN ≤ length stored.now }
    ensures given { (entries : List Entry) → block_in stored.now ≡ Ok entries → HaveKeys entries →
        0 < length entries →
        Gives result (λ cursor. cursor ≡ entries_from C.cmp target.entry.bytes.now entries) }
    ensures empty { block_in stored.now ≡ Ok [] → Refuses result Empty }
    ensures other { IfErr result (λ e. e.name ≢ Device) }
{
    let block = block_in(stored)?;
    let mut cursor = BlockCursor::new(alloc, &block)?;
    if !cursor.valid() {
        return Err(Fault::of(FaultName::Empty));
    }
    walk_to::<C>(&mut cursor, target)?;
    Ok(cursor)
}

/// The block in stored bytes, or the first test that they fail.
pub(crate) fn block_in(stored: &[u8]) -> Result<SoundBlock<'_>, Fault>
    requires { TRAILER_LEN ≤ length stored.now }
    ensures { EqualOrMemory (λ block. block.entries) result (block_in stored.now) }
{
    block::check(contents(stored)?)
}

/// Takes off the first entries that are below `target`.
fn walk_to<C: Comparator>(
    entries: &mut BlockCursor<'_>,
    target: InternalKey<'_>,
) -> Result<(), Fault>
    ensures given { HaveKeys entries.old → Gives result
        (λ none. entries.new ≡ entries_from C.cmp target.entry.bytes.now entries.old) }
    ensures other { IfErr result (λ e. e.name ≢ Device) }
{
    while is_below::<C>(entries, target)? {
        entries.advance()?;
    }
    Ok(())
}

/// Whether the first entry, if there is one, is below `target`. Key or TooLarge if it has no
/// internal key.
fn is_below<C: Comparator>(
    entries: &BlockCursor<'_>,
    target: InternalKey<'_>,
) -> Result<bool, Fault>
    ensures given { HaveKeys entries.now → Gives result
        (λ below. below ≡ first_is_below C.cmp target.entry.bytes.now entries.now) }
    ensures other { IfErr result (λ e. e.name ≢ Device) }
    ensures some { IfOk result (λ below. below ≡ true → 0 < length entries.now) }
{
    if !entries.valid() {
        return Ok(false);
    }
    let key = InternalKey::parse(entries.key())?;
    Ok(key.compare::<C>(&target) == Ordering::Less)
}

/// A copy of the first entry, if there is one. Key or TooLarge if it has no internal key.
fn first_of(alloc: Global, entries: &BlockCursor<'_>) -> Result<Option<OwnedEntry>, Fault>
    ensures given { HaveKeys entries.now → Gives result (λ found. found ≡ slice_get entries.now 0) }
    ensures other { IfErr result (λ e. e.name ≢ Device) }
{
    if !entries.valid() {
        return Ok(None);
    }
    let key = KeyBuf::of(alloc, InternalKey::parse(entries.key())?)?;
    let value = Vec::from_slice(alloc, entries.value())?;
    Ok(Some(OwnedEntry { key, value }))
}
