//! The rows of a version's files, a range of user keys after the other.

ghost use Rattle.std.specs.Prelude.{◌≡◌, ◌+◌, ℕ, true, List, [], length, map, Option, IfOk, IfErr};
ghost use Rattle.table.specs.Answers.{UnlessMemory};
ghost use Rattle.folder.specs.Calls.{Files, Tells};
ghost use Rattle.folder.specs.OpenAnswer.{IsStopped};
ghost use Rattle.folder.specs.Reports.{OnlyReads, ReportsDevice};
ghost use Rattle.merge.specs.InRange.{entries_in};
ghost use Rattle.block.specs.EncodedEntry.{Entry};
ghost use Rattle.reads.specs.Ranges.{IsCover, key_range};
ghost use Rattle.reads.specs.Tables.{NumberedContents};
ghost use Rattle.checks.specs.GroupTest.{AreTablesIn};
ghost use Rattle.checks.specs.HeldTables.{AreHeldBy, AreHeldIn};
ghost use Rattle.scan.specs.EntryRows.{file_rows, rows_from};
ghost use Rattle.scan.specs.RowParts.{AreScanned, AreTelling};

use crate::row_limit::{RowLimit, is_done};
use crate::row_taker::RowTaker;
use crate::table_rows::tell_held;
use checks::{
    HeldTables, Open, SharedComparator, Split, Workers, check_tables, common_range, hold_next,
    needed_files, numbers_of,
};
use folder::{FileMeta, ReadsTables, load_numbers};
use reads::Range;
use std::thread::Threads;
use table::{Comparator, Fault, FaultName};

/// Which rows of files are wanted, in a range of user keys.
#[derive(Clone, Copy)]
pub(crate) struct RangeRows<'f, 'k> {
    pub standing: &'f [&'f FileMeta],
    pub range: Range<'k>,
    /// The sequence by which they are rows.
    pub at: u64,
    /// The most rows. None is no limit.
    pub limit: Option<u64>,
}

/// Tells the wanted `rows`.
///
/// It goes from range to range of the split, and reads the tables that one needs when it comes to
/// it. They are held until no later range needs them. `held` are tables of the folder: those that
/// the first range needs aren't read. It only reads.
pub(crate) fn tell_ranges<
    C: SharedComparator + 'static,
    F: ReadsTables,
    T: RowTaker,
    R: Threads + Sync,
>(
    workers: &Workers<'_, R, Open>,
    folder: &mut F,
    split: &Split<C>,
    held: HeldTables<C>,
    rows: RangeRows<'_, '_>,
    taker: &mut T,
) -> Result<(), Fault>
    // If the folder tells files that hold these tables, and each is what the version states.
    ensures told { (files : Files) (next : Option ℕ) (tables : List NumberedContents) →
        Tells (F.tells folder.old) files →
        AreTablesIn C.cmp files next (map (λ f. f.now) rows.entry.standing.now) tables →
        AreHeldBy C.cmp (F.tells folder.old) held →
        AreScanned T.tells (rows_from
        (file_rows C.cmp tables (map (λ f. f.now) rows.entry.standing.now) rows.entry.at) C.cmp
        (key_range rows.entry.range) split.now 0 (length split.now + 1))
        taker.old rows.entry.limit taker.new result }
    ensures errors { (files : Files) (next : Option ℕ) (tables : List NumberedContents) →
        Tells (F.tells folder.old) files →
        AreTablesIn C.cmp files next (map (λ f. f.now) rows.entry.standing.now) tables →
        AreHeldBy C.cmp (F.tells folder.old) held →
        IfErr result
        (λ e. UnlessMemory e (IsStopped (F.failed folder.old) (F.failed folder.new) e)) }
    ensures cover { IsCover C.cmp split.now }
    ensures device { ReportsDevice F.Folder folder.old folder.new result }
    ensures reads { OnlyReads F.Folder folder.old folder.new }
{
    let mut held = held;
    let mut left = rows.limit;
    for number in 0..split.len() {
        let part = common_range::<C>(rows.range, split.range(number));
        let rest = RangeRows {
            range: part,
            limit: left,
            ..rows
        };
        let wanted = tell_range::<C, F, T, R>(workers, folder, &mut held, rest, taker)?;
        let RowLimit::More(less) = wanted else {
            return Ok(());
        };
        left = less;
    }
    Ok(())
}

/// The same in one range. `held` are tables of the folder; those that the range needs replace them.
fn tell_range<C: SharedComparator + 'static, F: ReadsTables, T: RowTaker, R: Threads + Sync>(
    workers: &Workers<'_, R, Open>,
    folder: &mut F,
    held: &mut HeldTables<C>,
    rows: RangeRows<'_, '_>,
    taker: &mut T,
) -> Result<RowLimit, Fault>
    ensures told { (files : Files) (next : Option ℕ) (tables : List NumberedContents) →
        Tells (F.tells folder.old) files →
        AreTablesIn C.cmp files next (map (λ f. f.now) rows.entry.standing.now) tables →
        AreHeldIn C.cmp files held.old →
        AreTelling T.tells
        (file_rows C.cmp tables (map (λ f. f.now) rows.entry.standing.now) rows.entry.at
        (key_range rows.entry.range))
        taker.old rows.entry.limit taker.new result }
    ensures errors { (files : Files) (next : Option ℕ) (tables : List NumberedContents) →
        Tells (F.tells folder.old) files →
        AreTablesIn C.cmp files next (map (λ f. f.now) rows.entry.standing.now) tables →
        AreHeldIn C.cmp files held.old →
        IfErr result
        (λ e. UnlessMemory e (IsStopped (F.failed folder.old) (F.failed folder.new) e)) }
    ensures held { AreHeldBy C.cmp (F.tells folder.old) held.old →
        AreHeldBy C.cmp (F.tells folder.old) held.new }
    ensures device { ReportsDevice F.Folder folder.old folder.new result }
    ensures reads { OnlyReads F.Folder folder.old folder.new }
{
    let alloc = workers.alloc();
    let RangeRows {
        range,
        at,
        limit,
        ..
    } = rows;
    let is_over = is_done(limit);
    if is_over {
        return Ok(RowLimit::Enough);
    }
    let is_none = is_empty::<C>(range);
    if is_none {
        return Ok(RowLimit::More(limit));
    }
    let needed = needed_files::<C>(alloc, rows.standing, range)?;
    let numbers = numbers_of(alloc, &needed)?;
    let is_held = hold_next::<C, F, Open, R>(workers, folder, held, &numbers)?;
    if !is_held {
        return refused_tables::<C, F, RowLimit, R>(workers, folder, &numbers);
    }
    tell_held(alloc, held, range, at, limit, taker)
}

/// Why the tables of these numbers aren't all there and valid. It only reads.
///
/// - Missing: at the first missing table.
/// - The refusal of the first invalid table, as of `table::check`, if none is missing.
/// - Lawless: all are there and valid, since the folder was changed meanwhile.
pub(crate) fn refused_tables<C: SharedComparator, F: ReadsTables, X, R: Threads + Sync>(
    workers: &Workers<'_, R, Open>,
    folder: &mut F,
    numbers: &[u64],
) -> Result<X, Fault>
    ensures refused { IfOk result (λ _. ⊥) }
    ensures device { ReportsDevice F.Folder folder.old folder.new result }
    ensures reads { OnlyReads F.Folder folder.old folder.new }
{
    let loaded = load_numbers(workers.alloc(), folder, numbers)?;
    check_tables::<C, Open, R>(workers, &loaded)?;
    Err(Fault::of(FaultName::Lawless))
}

/// Whether the range's bounds leave no user key between them.
fn is_empty<C: Comparator>(range: Range<'_>) -> bool
    ensures { result ≡ true →
        (entries : List Entry) → entries_in C.cmp (key_range range.entry) entries ≡ [] }
{
    match (range.lower, range.upper) {
        (Some(lower), Some(upper)) => !C::compare(lower, upper).is_lt(),
        _ => false,
    }
}
