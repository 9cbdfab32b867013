//! The user keys of a version whose entries are not in their order, a range after the other.

ghost use Rattle.std.specs.Prelude.{◌≡◌, ◌+◌, true, length, map, IfOk, IfErr};
ghost use Rattle.std.specs.List.{AllZip};
ghost use Rattle.table.specs.Answers.{UnlessMemory, fault};
ghost use Rattle.table.specs.fault.FaultName.TheVariants.{Memory};
ghost use Rattle.folder.specs.Calls.{Files, Tells};
ghost use Rattle.folder.specs.OpenAnswer.{IsStopped};
ghost use Rattle.folder.specs.Reports.{OnlyReads, ReportsDevice};
ghost use Rattle.reads.specs.Ranges.{IsCover, IsIn, key_range};
ghost use Rattle.checks.specs.HeldTables.{AreHeldBy, AreHeldIn};
ghost use Rattle.faults.specs.VersionFault.{OfKey};
ghost use Rattle.faults.specs.KeyFaults.{misplaced_keys, read_file, searched_of};
ghost use Rattle.faults.specs.KeyWalk.{AreMisplacedIn, misplaced_in};
ghost use Rattle.faults.specs.RangeKeys.{AreSoundIn, IsCursorOf, keys_from};
ghost use Rattle.faults.specs.ToldFaults.{IsTelling};

use crate::fault_count::{FaultCount, FaultTaker, tell_keys};
use crate::file_cursor::FileCursor;
use crate::key_walk::{KeyFault, key_faults};
use checks::{HeldTables, SharedComparator, Split, Workers, hold_next, needed_files, numbers_of};
use folder::{FileMeta, Gate, ReadsTables};
use reads::{NumberedTable, Range};
use std::alloc::Global;
use std::thread::Threads;
use table::{Comparator, Fault, FaultName};

/// Tells the user keys whose entries in the tables of these files are not in their order, until the
/// taker says to stop. The files are given in the order of search.
///
/// It goes from range to range of the split, and reads the tables that one needs when it comes to
/// it. They are held until no later range needs them. It only reads.
pub(crate) fn tell_ranges<
    C: SharedComparator + 'static,
    F: ReadsTables,
    T: FaultTaker,
    G: Gate + Sync,
    R: Threads + Sync,
>(
    workers: &Workers<'_, R, G>,
    folder: &mut F,
    files: &[&FileMeta],
    split: &Split<C>,
    taker: &mut T,
    told: FaultCount,
) -> Result<FaultCount, Fault>
    requires { told.goes ≡ true }
    // If the folder tells files that hold these tables, each as the version states it.
    ensures told { (held : Files) → Tells (F.tells folder.old) held →
        AreSoundIn C.cmp held (map (λ f. f.now) files.now) →
        IsTelling T.tells (map OfKey (keys_from C.cmp split.now (misplaced_keys C.cmp
        (searched_of (map (read_file C.cmp held) (map (λ f. f.now) files.now))))
        0 (length split.now + 1))) taker.old told.count taker.new result }
    ensures errors { (held : Files) → Tells (F.tells folder.old) held →
        AreSoundIn C.cmp held (map (λ f. f.now) files.now) → IfErr result
        (λ e. UnlessMemory e (IsStopped (F.failed folder.old) (F.failed folder.new) e)) }
    ensures cover { IsCover C.cmp split.now }
    ensures device { ReportsDevice F.Folder folder.old folder.new result }
    ensures reads { OnlyReads F.Folder folder.old folder.new }
{
    let mut held = HeldTables::none(workers.alloc());
    let mut told = told;
    for number in 0..split.len() {
        let range = split.range(number);
        let faults = range_faults::<C, F, G, R>(workers, folder, files, &mut held, range)?;
        told = tell_keys(taker, &faults, told);
        if !told.goes {
            return Ok(told);
        }
    }
    Ok(told)
}

/// The user keys of a range whose entries are not in their order. `held` are tables of the folder;
/// those that the range needs replace them. It only reads.
///
/// Changed: a table isn't there any more, or isn't valid.
fn range_faults<C: SharedComparator + 'static, F: ReadsTables, G: Gate + Sync, R: Threads + Sync>(
    workers: &Workers<'_, R, G>,
    folder: &mut F,
    files: &[&FileMeta],
    held: &mut HeldTables<C>,
    range: Range<'_>,
) -> Result<Vec<KeyFault>, Fault>
    ensures faults { (all : Files) → Tells (F.tells folder.old) all →
        AreHeldIn C.cmp all held.old → AreSoundIn C.cmp all (map (λ f. f.now) files.now) →
        IfOk result (λ v. AreMisplacedIn C.cmp (IsIn C.cmp (key_range range.entry))
        (searched_of (map (read_file C.cmp all) (map (λ f. f.now) files.now)))
        (map misplaced_in v.items)) }
    ensures errors { (all : Files) → Tells (F.tells folder.old) all →
        AreHeldIn C.cmp all held.old → AreSoundIn C.cmp all (map (λ f. f.now) files.now) →
        IfErr result
        (λ e. UnlessMemory e (IsStopped (F.failed folder.old) (F.failed folder.new) e)) }
    ensures held { AreHeldBy C.cmp (F.tells folder.old) held.old →
        AreHeldBy C.cmp (F.tells folder.old) held.new }
    ensures device { ReportsDevice F.Folder folder.old folder.new result }
    ensures reads { OnlyReads F.Folder folder.old folder.new }
{
    let alloc = workers.alloc();
    let needed = needed_files::<C>(alloc, files, range)?;
    let numbers = numbers_of(alloc, &needed)?;
    let is_held = hold_next::<C, F, G, R>(workers, folder, held, &numbers)?;
    if !is_held {
        return Err(Fault::of(FaultName::Changed));
    }
    held_faults(alloc, held, range)
}

/// The user keys of a range whose entries in the held tables are not in their order. The tables are
/// in the order of search.
fn held_faults<C: Comparator + 'static>(
    alloc: Global,
    held: &HeldTables<C>,
    range: Range<'_>,
) -> Result<Vec<KeyFault>, Fault>
    ensures faults { IfOk result (λ v. AreMisplacedIn C.cmp (IsIn C.cmp (key_range range.entry))
        (searched_of (map (λ t. record { number = t.number; entries = t.contents.entries })
        held.now)) (map misplaced_in v.items)) }
    ensures memory { IfErr result (λ e. e ≡ fault Memory) }
{
    let tables = held.lend(alloc)?;
    let cursors = file_cursors(alloc, &tables, range)?;
    key_faults(alloc, cursors, range)
}

/// The entries of each table, without those before the range.
fn file_cursors<'t, C: Comparator + 't>(
    alloc: Global,
    tables: &[NumberedTable<'t, C>],
    range: Range<'_>,
) -> Result<Vec<FileCursor<'t, C>>, Fault>
    ensures cursors { IfOk result
        (λ v. AllZip (IsCursorOf C.cmp (key_range range.entry)) tables.now v.items) }
    ensures memory { IfErr result (λ e. e ≡ fault Memory) }
{
    let mut cursors = Vec::with_capacity(alloc, tables.len())?;
    for table in tables {
        cursors.push(FileCursor::of(alloc, table, range)?)?;
    }
    Ok(cursors)
}
