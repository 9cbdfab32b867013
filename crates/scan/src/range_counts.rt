//! The amounts of a version's files, counted a range of user keys after the other.

ghost use Rattle.std.specs.Prelude.{◌≡◌, ℕ, List, length, map, Option, Ok, IfOk, IfErr, OnOk};
ghost use Rattle.table.specs.Answers.{EqualOrMemory, UnlessMemory};
ghost use Rattle.folder.specs.Calls.{Files, Tells};
ghost use Rattle.folder.specs.OpenAnswer.{IsStopped};
ghost use Rattle.folder.specs.Reports.{OnlyReads, ReportsDevice};
ghost use Rattle.reads.specs.Ranges.{key_range};
ghost use Rattle.merge.specs.InRange.{entries_in};
ghost use Rattle.reads.specs.Tables.{NumberedContents};
ghost use Rattle.checks.specs.HeldTables.{AreHeldBy, AreHeldIn};
ghost use Rattle.scan.specs.Counts.{AreAmountsCounted, capped_files};
ghost use Rattle.scan.specs.LevelCounts.{AreLevelsIn, all_of_levels, lists_of_levels};
ghost use Rattle.scan.specs.Stats.{amounts_of, told_amounts};

use crate::amounts::Amounts;
use crate::level_files::{needed_by_level, numbers_by_level};
use crate::level_merges::count_held;
use crate::range_scan::refused_tables;
use checks::{HeldTables, Open, SharedComparator, Split, Workers, hold_next};
use folder::{FileMeta, ReadsTables};
use reads::Range;
use std::alloc::Global;
use std::thread::Threads;
use table::Fault;

/// A range of user keys, and the sequence at which newer entries hide older ones.
#[derive(Clone, Copy)]
struct SeenRange<'k> {
    range: Range<'k>,
    last: u64,
}

/// How much the files of each level and their tables have. Newer entries hide older ones at the
/// sequence `last`.
///
/// It goes from range to range of the split, and reads the tables that one needs when it comes to
/// it. They are held until no later range needs them. `held` are tables of the folder: those that
/// the first range needs aren't read. It only reads.
pub(crate) fn count_ranges<C: SharedComparator + 'static, F: ReadsTables, R: Threads + Sync>(
    workers: &Workers<'_, R, Open>,
    folder: &mut F,
    levels: &[Vec<&FileMeta>],
    split: &Split<C>,
    held: HeldTables<C>,
    last: u64,
) -> Result<Vec<Amounts>, Fault>
    // If the folder tells files that hold these tables, and each is what the version states.
    ensures counted { (files : Files) (next : Option ℕ) (tables : List NumberedContents) →
        Tells (F.tells folder.old) files →
        AreLevelsIn C.cmp files next (map (λ fs. map (λ f. f.now) fs.items) levels.now) tables →
        AreHeldBy C.cmp (F.tells folder.old) held →
        IfOk result (λ v. v.items ≡ map (λ fs. told_amounts (amounts_of last
        (all_of_levels tables (map (λ fs. map (λ f. f.now) fs.items) levels.now)) tables fs))
        (map (λ fs. map (λ f. f.now) fs.items) levels.now)) }
    ensures errors { (files : Files) (next : Option ℕ) (tables : List NumberedContents) →
        Tells (F.tells folder.old) files →
        AreLevelsIn C.cmp files next (map (λ fs. map (λ f. f.now) fs.items) levels.now) tables →
        AreHeldBy C.cmp (F.tells folder.old) held →
        IfErr result
        (λ e. UnlessMemory e (IsStopped (F.failed folder.old) (F.failed folder.new) e)) }
    ensures number { IfOk result (λ v. length v.items ≡ length levels.now) }
    ensures device { ReportsDevice F.Folder folder.old folder.new result }
    ensures reads { OnlyReads F.Folder folder.old folder.new }
{
    let alloc = workers.alloc();
    let mut amounts = amounts_by_level(alloc, levels)?;
    let mut held = held;
    for number in 0..split.len() {
        let range = split.range(number);
        let seen = SeenRange { range, last };
        count_range::<C, F, R>(workers, folder, levels, &mut held, seen, &mut amounts)?;
    }
    Ok(amounts)
}

/// How much the files of each level have, without their entries.
fn amounts_by_level(alloc: Global, levels: &[Vec<&FileMeta>]) -> Result<Vec<Amounts>, Fault>
    ensures { EqualOrMemory (λ v. v.items) result
        (Ok (map capped_files (map (λ fs. map (λ f. f.now) fs.items) levels.now))) }
{
    let mut amounts = Vec::with_capacity(alloc, levels.len())?;
    for files in levels {
        amounts.push(Amounts::of_files(files))?;
    }
    Ok(amounts)
}

/// Counts the entries in one range. `held` are tables of the folder; those that the range needs
/// replace them.
fn count_range<C: SharedComparator + 'static, F: ReadsTables, R: Threads + Sync>(
    workers: &Workers<'_, R, Open>,
    folder: &mut F,
    levels: &[Vec<&FileMeta>],
    held: &mut HeldTables<C>,
    seen: SeenRange<'_>,
    amounts: &mut [Amounts],
) -> Result<(), Fault>
    requires { length amounts.old ≡ length levels.now }
    ensures counted { (files : Files) (next : Option ℕ) (tables : List NumberedContents) →
        Tells (F.tells folder.old) files →
        AreLevelsIn C.cmp files next (map (λ fs. map (λ f. f.now) fs.items) levels.now) tables →
        AreHeldIn C.cmp files held.old →
        OnOk result (AreAmountsCounted seen.entry.last
        (map (entries_in C.cmp (key_range seen.entry.range))
        (lists_of_levels tables (map (λ fs. map (λ f. f.now) fs.items) levels.now)))
        amounts.old amounts.new) }
    ensures errors { (files : Files) (next : Option ℕ) (tables : List NumberedContents) →
        Tells (F.tells folder.old) files →
        AreLevelsIn C.cmp files next (map (λ fs. map (λ f. f.now) fs.items) levels.now) tables →
        AreHeldIn C.cmp files held.old →
        IfErr result
        (λ e. UnlessMemory e (IsStopped (F.failed folder.old) (F.failed folder.new) e)) }
    ensures held { AreHeldBy C.cmp (F.tells folder.old) held.old →
        AreHeldBy C.cmp (F.tells folder.old) held.new }
    ensures device { ReportsDevice F.Folder folder.old folder.new result }
    ensures reads { OnlyReads F.Folder folder.old folder.new }
{
    let alloc = workers.alloc();
    let SeenRange { range, last } = seen;
    let needed = needed_by_level::<C>(alloc, levels, range)?;
    let numbers = numbers_by_level(alloc, &needed)?;
    let is_held = hold_next::<C, F, Open, R>(workers, folder, held, &numbers)?;
    if !is_held {
        return refused_tables::<C, F, (), R>(workers, folder, &numbers);
    }
    count_held(alloc, held, &needed, range, last, amounts)
}
