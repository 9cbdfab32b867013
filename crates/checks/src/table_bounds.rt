//! Which tables have to be walked, by their bounds.

ghost use Rattle.std.specs.Prelude.{◌≡◌, nat_lt, List, map, IsTrue, IfOk, IfErr, Contains};
ghost use Rattle.ikey.specs.Answers.{fault};
ghost use Rattle.ikey.specs.fault.FaultName.TheVariants.{Memory};
ghost use Rattle.table.specs.EncodedEntry.{Entry};
ghost use Rattle.reads.specs.Lawful.{AreNewer};
ghost use Rattle.reads.specs.TableOrder.{AreFalling};
ghost use Rattle.checks.specs.TableBounds.{BoundsTell, FallAlike, IsApartFromOthers, are_below};

use ikey::{Comparator, Fault};
use std::alloc::Global;
use table::{SoundTable, Tally};

/// The most tables that are compared with one. If there are more, that one is walked.
const MAX_COMPARED: usize = 2048;

/// The law of bounds: why a table that they tell apart from all others needs no walk. A call does
/// nothing.
pub fn bounds_tell<C: Comparator>()
    ensures { BoundsTell C.cmp }
{}

/// Those of the tables that have to be walked. In each range of user keys the sequences fall
/// through all tables exactly if they fall through these.
///
/// A table is left out if its bounds tell it apart from each other one; no contract says so. It
/// takes the memory of a reference for each table that is walked.
pub(crate) fn tables_to_walk<'l, 't, C: Comparator>(
    alloc: Global,
    tables: &[&'l SoundTable<'t, C>],
) -> Result<Vec<&'l SoundTable<'t, C>>, Fault>
    ensures walked { IfOk result (λ v. FallAlike C.cmp (map (λ t. t.now.entries) v.items)
        (map (λ t. t.now.entries) tables.now)) }
    ensures memory { IfErr result (λ e. e ≡ fault Memory) }
{
    let mut walked = Vec::new(alloc);
    for place in 0..tables.len() {
        let (before, _) = tables.split_at(place);
        let (_, behind) = tables.split_at(place + 1);
        let table = tables[place];
        if !is_settled(before, table, behind) {
            walked.push(table)?;
        }
    }
    Ok(walked)
}

/// Whether bounds tell that a table falls, that each one before it is newer, and that it is newer
/// than each one after it.
fn is_settled<C: Comparator>(
    before: &[&SoundTable<'_, C>],
    table: &SoundTable<'_, C>,
    behind: &[&SoundTable<'_, C>],
) -> bool
    ensures { IsTrue result
        → IsApartFromOthers (map (λ t. t.now.entries) before.now) table.now.entries
        (map (λ t. t.now.entries) behind.now) }
{
    if !falls_alone(table) {
        return false;
    }
    if !are_newer(before, table) {
        return false;
    }
    is_newer(table, behind)
}

/// Whether the entries of a table fall: no two neighbours have one user key and one sequence.
fn falls_alone<C: Comparator>(table: &SoundTable<'_, C>) -> bool
    ensures { IsTrue result → AreFalling table.now.entries }
{
    !table.tally().has_twins
}

/// Whether bounds tell that each of these tables is newer than `table`.
fn are_newer<C: Comparator>(others: &[&SoundTable<'_, C>], table: &SoundTable<'_, C>) -> bool
    ensures { IsTrue result → (entries : List Entry) →
        Contains (map (λ t. t.now.entries) others.now) entries →
        AreNewer entries table.now.entries }
{
    if others.len() > MAX_COMPARED {
        return false;
    }
    for other in others {
        if !are_apart(*other, table) {
            return false;
        }
    }
    true
}

/// Whether bounds tell that `table` is newer than each of these tables.
fn is_newer<C: Comparator>(table: &SoundTable<'_, C>, others: &[&SoundTable<'_, C>]) -> bool
    ensures { IsTrue result → (entries : List Entry) →
        Contains (map (λ t. t.now.entries) others.now) entries →
        AreNewer table.now.entries entries }
{
    if others.len() > MAX_COMPARED {
        return false;
    }
    for other in others {
        if !are_apart(table, *other) {
            return false;
        }
    }
    true
}

/// Whether bounds tell that each entry of the first table is newer than each of the second.
fn are_apart<C: Comparator>(newer: &SoundTable<'_, C>, older: &SoundTable<'_, C>) -> bool
    ensures { IsTrue result → AreNewer newer.now.entries older.now.entries }
{
    let counted = newer.tally();
    let others = older.tally();
    if is_later(counted, others) {
        return true;
    }
    if ends_before(newer, older) {
        return true;
    }
    ends_before(older, newer)
}

/// Whether the sequences of the first tally are all above those of the second.
fn is_later(newer: Tally, older: Tally) -> bool
    ensures { result ≡ nat_lt older.newest newer.oldest }
{
    older.newest < newer.oldest
}

/// Whether the user keys of the first table are all below those of the second.
fn ends_before<C: Comparator>(first: &SoundTable<'_, C>, second: &SoundTable<'_, C>) -> bool
    ensures { result ≡ are_below C.cmp first.now.entries second.now.entries }
{
    C::compare(first.largest().user(), second.smallest().user()).is_lt()
}
