//! Whether outputs hold what a compaction keeps.

ghost use Rattle.std.specs.Prelude.{◌≡◌, ◌↔◌, map, IfOk, IfErr, IsTrue};
ghost use Rattle.std.specs.List.Sorted.{IsStrictlyIncreasing};
ghost use Rattle.edit.specs.Answers.{fault};
ghost use Rattle.edit.specs.fault.FaultName.TheVariants.{Memory};
ghost use Rattle.merge.specs.MergedLists.{merged};
ghost use Rattle.pick.specs.PickedInputs.{picked_in};
ghost use Rattle.keep.specs.Marks.{LargestRise};
ghost use Rattle.adoption.specs.KeptEntries.{HoldsKept};
ghost use Rattle.adoption.specs.Beginnings.{begins_with};

use edit::{Comparator, Fault, FaultName, InternalKey};
use keep::{Cursor, Range, RangeRun, SoundTable, TableCursor, distinct_law, merge_range};
use merge::Merging;
use pick::Inputs;
use std::alloc::Global;

/// Whether `outputs` hold just what a compaction of `picked` inputs keeps of their tables. `listed`
/// and `floor` say which sequences stay readable, as in `keep::merge_range`.
///
/// Both are walked side by side. It copies no value, and the keys of what is kept.
pub(crate) fn holds_kept<'t, C: Comparator + 't>(
    alloc: Global,
    picked: &Inputs,
    listed: &[u64],
    floor: u64,
    inputs: &[SoundTable<'t, C>],
    outputs: &[SoundTable<'t, C>],
) -> Result<bool, Fault>
    requires listed { IsStrictlyIncreasing listed.now }
    requires grandparents { LargestRise C.cmp picked.now.grandparents.items }
    ensures exact { IfOk result (λ b. IsTrue b
        ↔ HoldsKept C.cmp (record { listed = listed.now; floor = floor })
        (picked_in picked.now).deeper (map (λ t. t.entries) inputs.now)
        (map (λ t. t.entries) outputs.now)) }
    ensures memory { IfErr result (λ e. e ≡ fault Memory) }
{
    distinct_law::<C>();
    let mut cursors = cursors_over(alloc, inputs)?;
    let whole = Range {
        lower: None,
        upper: None,
    };
    match merge_range::<C, _>(alloc, &mut cursors, whole, listed, floor, picked) {
        Ok(found) => is_held(alloc, &found, outputs),
        Err(refused) => match refused.name {
            FaultName::Duplicate => Ok(false),
            _ => Err(Fault::of(FaultName::Memory)),
        },
    }
}

/// A cursor over each of the tables.
fn cursors_over<'t, C: Comparator>(
    alloc: Global,
    tables: &[SoundTable<'t, C>],
) -> Result<Vec<TableCursor<'t, C>>, Fault>
    ensures cursors { IfOk result (λ v. v.items ≡ map (λ t. t.entries) tables.now) }
    ensures memory { IfErr result (λ e. e ≡ fault Memory) }
{
    let mut cursors = Vec::with_capacity(alloc, tables.len())?;
    for table in tables {
        cursors.push(TableCursor::new(alloc, table)?)?;
    }
    Ok(cursors)
}

/// Whether these tables together hold just the entries of a run.
fn is_held<'t, C: Comparator>(
    alloc: Global,
    run: &RangeRun<'_>,
    tables: &[SoundTable<'t, C>],
) -> Result<bool, Fault>
    ensures exact { IfOk result (λ b. IsTrue b
        ↔ (run.now.kept ≡ merged C.cmp (map (λ t. t.entries) tables.now))) }
    ensures memory { IfErr result (λ e. e ≡ fault Memory) }
{
    let cursors = cursors_over(alloc, tables)?;
    let mut merging = Merging::<C, TableCursor<'t, C>>::new(alloc, cursors)?;
    is_walked::<C, Merging<C, TableCursor<'t, C>>>(run, &mut merging)
}

/// Whether a cursor has just the entries of a run.
fn is_walked<'c, C: Comparator, M: Cursor<'c, C>>(
    run: &RangeRun<'_>,
    cursor: &mut M,
) -> Result<bool, Fault>
    ensures exact { IfOk result (λ b. IsTrue b ↔ (run.now.kept ≡ M.remaining cursor.old)) }
    ensures memory { IfErr result (λ e. e ≡ fault Memory) }
{
    for place in 0..run.len() {
        let is_same = is_next::<C, M>(cursor, run.key(place), run.value(place));
        if !is_same {
            return Ok(false);
        }
        cursor.advance()?;
    }
    let is_more = cursor.valid();
    Ok(!is_more)
}

/// Whether the next entry of a cursor has this `key` and `value`.
fn is_next<'c, C: Comparator, M: Cursor<'c, C>>(
    cursor: &M,
    key: InternalKey<'_>,
    value: &[u8],
) -> bool
    ensures { result ≡ begins_with (record { key = key.entry.bytes.now; value = value.now })
        (M.remaining cursor.now) }
{
    if !cursor.valid() {
        return false;
    }
    cursor.key().bytes() == key.bytes() && cursor.value() == value
}
