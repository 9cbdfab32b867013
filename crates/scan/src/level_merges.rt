//! The entries of held tables, counted by level.

ghost use Rattle.std.specs.Prelude.{◌≡◌, ◌+◌, ◌≤◌, length, map, take, drop, IfOk, OnOk, IfErr};
ghost use Rattle.std.specs.List.{sum_by};
ghost use Rattle.table.specs.Answers.{fault};
ghost use Rattle.table.specs.fault.FaultName.TheVariants.{Memory};
ghost use Rattle.merge.specs.MergedLists.{entries_of_lists, merged, sorted_entries};
ghost use Rattle.reads.specs.Ranges.{key_range};
ghost use Rattle.merge.specs.InRange.{entries_in};
ghost use Rattle.reads.specs.Tables.{NumberedContents};
ghost use Rattle.scan.specs.Counts.{AreAmountsCounted};
ghost use Rattle.scan.specs.ListParts.{in_parts};

use crate::amounts::Amounts;
use crate::count_walk::count_merged;
use checks::{HeldTables, lent_tables};
use folder::FileMeta;
use merge::{Merging, cursors_from};
use reads::Range;
use std::alloc::Global;
use table::{Comparator, Fault, SoundTable, TableCursor};

/// Counts the entries that held tables have in `range`, among the `amounts` of their levels. The
/// tables are those of the files of each level, one level after the other. Newer entries hide older
/// ones at the sequence `last`.
pub(crate) fn count_held<C: Comparator + 'static>(
    alloc: Global,
    held: &HeldTables<C>,
    levels: &[Vec<&FileMeta>],
    range: Range<'_>,
    last: u64,
    amounts: &mut [Amounts],
) -> Result<(), Fault>
    requires same { sum_by (λ files. length files.items) levels.now ≡ length held.now }
    requires number { length amounts.old ≡ length levels.now }
    ensures counted { OnOk result (AreAmountsCounted last
        (map (λ lists. entries_in C.cmp (key_range range.entry) (entries_of_lists lists))
        (in_parts (map (λ files. length files.items) levels.now)
        (map (λ (t : NumberedContents). t.contents.entries) held.now)))
        amounts.old amounts.new) }
    ensures memory { IfErr result (λ e. e ≡ fault Memory) }
{
    let tables = held.lend(alloc)?;
    let lent = lent_tables(alloc, &tables)?;
    count_tables(alloc, &lent, levels, range, last, amounts)
}

/// The same of tables that are lent.
fn count_tables<'t, C: Comparator + 't>(
    alloc: Global,
    tables: &[&SoundTable<'t, C>],
    levels: &[Vec<&FileMeta>],
    range: Range<'_>,
    last: u64,
    amounts: &mut [Amounts],
) -> Result<(), Fault>
    requires same { sum_by (λ files. length files.items) levels.now ≡ length tables.now }
    requires number { length amounts.old ≡ length levels.now }
    ensures counted { OnOk result (AreAmountsCounted last
        (map (λ lists. entries_in C.cmp (key_range range.entry) (entries_of_lists lists))
        (in_parts (map (λ files. length files.items) levels.now)
        (map (λ t. t.now.entries) tables.now)))
        amounts.old amounts.new) }
    ensures memory { IfErr result (λ e. e ≡ fault Memory) }
{
    let merges = level_merges(alloc, tables, levels, range)?;
    let mut merging = Merging::<C, Merging<C, TableCursor<'t, C>>>::new(alloc, merges)?;
    count_merged(alloc, &mut merging, range, last, amounts)
}

/// A merge of the tables of each level, without entries before `range`.
fn level_merges<'t, C: Comparator + 't>(
    alloc: Global,
    tables: &[&SoundTable<'t, C>],
    levels: &[Vec<&FileMeta>],
    range: Range<'_>,
) -> Result<Vec<Merging<C, TableCursor<'t, C>>>, Fault>
    requires { sum_by (λ files. length files.items) levels.now ≡ length tables.now }
    ensures merges { IfOk result
        (λ v. map (λ lists. entries_in C.cmp (key_range range.entry) (merged C.cmp lists)) v.items
        ≡ map (λ lists. sorted_entries C.cmp
        (entries_in C.cmp (key_range range.entry) (entries_of_lists lists)))
        (in_parts (map (λ files. length files.items) levels.now)
        (map (λ t. t.now.entries) tables.now))) }
    ensures memory { IfErr result (λ e. e ≡ fault Memory) }
{
    let mut merges = Vec::with_capacity(alloc, levels.len())?;
    let mut start: usize = 0;
    for files in levels {
        let number = number_of(files);
        let own = tables_at(tables, start, number);
        merges.push(level_merge(alloc, own, range)?)?;
        start += number;
    }
    Ok(merges)
}

/// How many files these are.
fn number_of(files: &[&FileMeta]) -> usize
    ensures { result ≡ length files.now }
{
    files.len()
}

/// The `number` tables from place `start` on.
fn tables_at<'l, 't, C: Comparator>(
    tables: &'l [&'l SoundTable<'t, C>],
    start: usize,
    number: usize,
) -> &'l [&'l SoundTable<'t, C>]
    requires { start + number ≤ length tables.now }
    ensures { result.now ≡ take number (drop start tables.now) }
{
    let (_, behind) = tables.split_at(start);
    let (own, _) = behind.split_at(number);
    own
}

/// A merge of tables, without entries before `range`.
fn level_merge<'t, C: Comparator + 't>(
    alloc: Global,
    tables: &[&SoundTable<'t, C>],
    range: Range<'_>,
) -> Result<Merging<C, TableCursor<'t, C>>, Fault>
    ensures merge { IfOk result
        (λ lists. entries_in C.cmp (key_range range.entry) (merged C.cmp lists)
        ≡ sorted_entries C.cmp (entries_in C.cmp (key_range range.entry)
        (entries_of_lists (map (λ t. t.now.entries) tables.now)))) }
    ensures memory { IfErr result (λ e. e ≡ fault Memory) }
{
    let cursors = cursors_from(alloc, tables, range)?;
    Ok(Merging::new(alloc, cursors)?)
}
