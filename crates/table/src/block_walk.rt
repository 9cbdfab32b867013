//! Steps over entries of a block whose keys are internal keys.

ghost use Rattle.std.specs.Prelude.{◌≡◌, ◌<◌, length, drop, slice_get, slice_index, IfOk, IfErr};
ghost use Rattle.std.specs.Prelude.{OnOk, IsOkUnless, Some};
ghost use Rattle.std.specs.Option.{option_map};
ghost use Rattle.coding.specs.Answers.{fault};
ghost use Rattle.coding.specs.declared.fault.FaultName.TheVariants.{Memory};
ghost use Rattle.table.specs.EntriesFrom.{EntriesRise, entries_from};
ghost use Rattle.table.specs.RestartSearch.{first_is_below, restart_is_below, IsLastBelow};
ghost use Rattle.table.specs.EntryTests.{HaveKeys};

use block::{BlockCursor, SoundBlock};
use coding::Fault;
use ikey::{Comparator, InternalKey};
use std::alloc::Global;
use std::cmp::Ordering;

/// The key of the first entry.
pub(crate) fn first_key<'k>(entries: &'k BlockCursor<'_>) -> InternalKey<'k>
    requires some { 0 < length entries.now }
    requires keys { HaveKeys entries.now }
    ensures { option_map (λ e. e.key) (slice_get entries.now 0) ≡ Some result.bytes.now }
{
    match InternalKey::parse(entries.key()) {
        Ok(key) => key,
        Err(_) => unreachable!(),
    }
}

/// Whether the first entry, if there is one, is below `target`.
pub(crate) fn is_below<C: Comparator>(entries: &BlockCursor<'_>, target: InternalKey<'_>) -> bool
    requires { HaveKeys entries.now }
    ensures { result ≡ first_is_below C.cmp target.entry.bytes.now entries.now }
{
    entries.valid() && first_key(entries).compare::<C>(&target) == Ordering::Less
}

/// Takes off the first entries that are below `target`.
pub(crate) fn walk_to<C: Comparator>(
    entries: &mut BlockCursor<'_>,
    target: InternalKey<'_>,
) -> Result<(), Fault>
    requires { HaveKeys entries.old }
    ensures ok { OnOk result (entries.new ≡ entries_from C.cmp target.entry.bytes.now entries.old) }
    ensures memory { IsOkUnless result (fault Memory) }
{
    while is_below::<C>(entries, target) {
        entries.advance()?;
    }
    Ok(())
}

/// The entries of `block` from the first one at or above `target`.
///
/// It reads on from the last restart whose key is below. It takes the memory of one key.
pub(crate) fn entries_from<'a, C: Comparator>(
    alloc: Global,
    block: &SoundBlock<'a>,
    target: InternalKey<'_>,
) -> Result<BlockCursor<'a>, Fault>
    requires keys { HaveKeys block.now.entries }
    requires rising { EntriesRise C.cmp block.now.entries }
    ensures from { IfOk result (λ cursor. cursor
        ≡ entries_from C.cmp target.entry.bytes.now block.now.entries) }
    ensures memory { IfErr result (λ e. e ≡ fault Memory) }
{
    let mut cursor = BlockCursor::at(alloc, block, last_below::<C>(block, target))?;
    walk_to::<C>(&mut cursor, target)?;
    Ok(cursor)
}

/// Whether the entry at a restart, if there is one, is below `target`.
fn restart_is_below<C: Comparator>(
    block: &SoundBlock<'_>,
    restart: u64,
    target: InternalKey<'_>,
) -> bool
    requires restart { restart < length block.now.restarts }
    requires keys { HaveKeys block.now.entries }
    ensures { result ≡ restart_is_below C.cmp target.entry.bytes.now block.now restart }
{
    let Some(key) = block.key_at(restart) else {
        return false;
    };
    match InternalKey::parse(key) {
        Ok(key) => key.compare::<C>(&target) == Ordering::Less,
        Err(_) => unreachable!(),
    }
}

/// The last restart whose key is below `target`, or the first restart if there is none. The entries
/// before it are all below `target`. It is found by halving.
fn last_below<C: Comparator>(block: &SoundBlock<'_>, target: InternalKey<'_>) -> u64
    requires keys { HaveKeys block.now.entries }
    requires rising { EntriesRise C.cmp block.now.entries }
    ensures last { IsLastBelow C.cmp target.entry.bytes.now block.now result }
    ensures from { entries_from C.cmp target.entry.bytes.now
        (drop (slice_index block.now.restarts result) block.now.entries)
        ≡ entries_from C.cmp target.entry.bytes.now block.now.entries }
{
    let mut restart = 0;
    let mut end = block.restarts();
    while end - restart > 1 {
        let middle = restart + (end - restart) / 2;
        if restart_is_below::<C>(block, middle, target) {
            restart = middle;
        } else {
            end = middle;
        }
    }
    restart
}
