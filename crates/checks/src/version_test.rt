//! The test whether a version is lawful with the tables that a folder holds, in bounded memory.

ghost use Rattle.std.specs.Prelude.{◌<◌, ◌≤◌, IfOk};
ghost use Rattle.folder.specs.Calls.{Files, Tells};
ghost use Rattle.folder.specs.OpenAnswer.{FolderAnswers};
ghost use Rattle.folder.specs.Orders.{order_cmp};
ghost use Rattle.folder.specs.ReadsAs.{IsFileIn};
ghost use Rattle.folder.specs.Reports.{OnlyReads, ReportsDevice};
ghost use Rattle.checks.specs.GroupTest.{IsSweepAnswer};
ghost use Rattle.checks.specs.HeldTables.{AreHeldBy, AreHeldIn};
ghost use Rattle.checks.specs.InOrder.{AreSoundIn};
ghost use Rattle.checks.specs.TestedTables.{IsTested};

use crate::checked_so_far::CheckedTables;
use crate::file_groups::group_split;
use crate::first_refusal::check_others;
use crate::held_tables::HeldTables;
use crate::range_test::test_ranges;
use crate::rounds::MAX_TABLES;
use crate::tested_version::TestedVersion;
use crate::version_totals::VersionTotals;
use board::{Gate, Watch, Work, Workers};
use folder::{Bytewise, Order, ReadsTables, Shortlex, Version, file_numbers};
use ikey::{Fault, FaultName, SharedComparator};
use reads::files_newest_first;
use std::thread::Threads;

/// Tests whether a version is lawful with the tables that a folder holds. It only reads.
///
/// The first that applies:
///
/// - Missing: at the first missing table, by level and in version order;
/// - the refusal of the first invalid table, as of `table::check`;
/// - Lawless: the version isn't lawful, as `reads::lawful` has it.
///
/// If the device fails a call, the answer is Device and no further call is made. If memory runs
/// out, it is Memory; so it is if the version has more than 2^40 files.
///
/// The tables in memory have at most `memory` bytes together, if no single user key needs more. For
/// that, one range of user keys is tested after the other, with the tables that reach into it. A
/// table is read and checked for the first range that needs it, and held until the last one has
/// been tested. No contract says so. `workers` check the tables and walk over their entries.
/// If something is wrong, those that weren't checked by then are read in order, for the first
/// refusal, and those that were found invalid are read again.
///
/// The work is told to the gate of `workers`, which is `&Open` if nobody watches.
pub fn test_version<
    C: SharedComparator + 'static,
    F: ReadsTables,
    W: Watch + Sync,
    R: Threads + Sync,
>(
    workers: &Workers<'_, R, W>,
    folder: &mut F,
    version: &Version,
    memory: u64,
) -> Result<VersionTotals, Fault>
    ensures answer { (files : Files) → Tells (F.tells folder.old) files →
        FolderAnswers (λ tested. tested) (F.failed folder.old) (F.failed folder.new) result
        (IsTested (IsFileIn files) C.cmp version.now) }
    ensures device { ReportsDevice F.Folder folder.old folder.new result }
    ensures reads { OnlyReads F.Folder folder.old folder.new }
{
    let found = test_and_hold::<C, F, W, R>(workers, folder, version, memory)?;
    Ok(found.tested)
}

/// Tests a version as [`test_version`] does, in the order of the user keys that it is given.
pub fn test_by_order<F: ReadsTables, W: Watch + Sync, R: Threads + Sync>(
    workers: &Workers<'_, R, W>,
    folder: &mut F,
    order: Order,
    version: &Version,
    memory: u64,
) -> Result<VersionTotals, Fault>
    ensures answer { (files : Files) → Tells (F.tells folder.old) files →
        FolderAnswers (λ tested. tested) (F.failed folder.old) (F.failed folder.new) result
        (IsTested (IsFileIn files) (order_cmp order) version.now) }
    ensures device { ReportsDevice F.Folder folder.old folder.new result }
    ensures reads { OnlyReads F.Folder folder.old folder.new }
{
    match order {
        Order::Bytewise => test_version::<Bytewise, F, W, R>(workers, folder, version, memory),
        Order::Shortlex => test_version::<Shortlex, F, W, R>(workers, folder, version, memory),
    }
}

/// Tests a version as [`test_version`] does, and hands on the tables that it still holds. They are
/// the tables of the last range of user keys: all, if they fit into `memory` together. It only
/// reads.
pub fn test_and_hold<
    C: SharedComparator + 'static,
    F: ReadsTables,
    W: Watch + Sync,
    R: Threads + Sync,
>(
    workers: &Workers<'_, R, W>,
    folder: &mut F,
    version: &Version,
    memory: u64,
) -> Result<TestedVersion<C>, Fault>
    ensures answer { (files : Files) → Tells (F.tells folder.old) files →
        FolderAnswers (λ found. found.tested) (F.failed folder.old) (F.failed folder.new) result
        (IsTested (IsFileIn files) C.cmp version.now) }
    // Of any folder, also one that tells nothing: each table that is handed on is an answer that it
    // allows for its number.
    ensures held { IfOk result (λ found. AreHeldBy C.cmp (F.tells folder.old) found.tables) }
    ensures device { ReportsDevice F.Folder folder.old folder.new result }
    ensures reads { OnlyReads F.Folder folder.old folder.new }
{
    let alloc = workers.alloc();
    let numbers = file_numbers::<C>(alloc, version)?;
    workers.gate().begin(Work::Check, numbers.len() as u64);
    let held = HeldTables::none(alloc);
    let mut checked = CheckedTables {
        held,
        sound: Vec::new(alloc),
    };
    let found = tested_entries::<C, F, W, R>(workers, folder, version, memory, &mut checked)?;
    let CheckedTables {
        held: tables,
        sound,
    } = checked;
    if let Some(entries) = found {
        let files = numbers.len();
        let tested = VersionTotals { files, entries };
        return Ok(TestedVersion { tested, tables });
    }
    drop(tables);
    check_others::<C, F, W, R>(workers, folder, &sound, &numbers)?;
    Err(Fault::of(FaultName::Lawless))
}

/// How many entries the tables of a version have, if it is lawful with them. Else None. It only
/// reads. The tables that are held are of the folder; those of the last range replace them.
fn tested_entries<C: SharedComparator + 'static, F: ReadsTables, G: Gate + Sync, R: Threads + Sync>(
    workers: &Workers<'_, R, G>,
    folder: &mut F,
    version: &Version,
    memory: u64,
    checked: &mut CheckedTables<C>,
) -> Result<Option<u128>, Fault>
    ensures answer { (files : Files) → Tells (F.tells folder.old) files →
        AreHeldIn C.cmp files checked.old.held →
        FolderAnswers (λ found. found) (F.failed folder.old) (F.failed folder.new) result
        (IsSweepAnswer C.cmp files version.now) }
    ensures held { AreHeldBy C.cmp (F.tells folder.old) checked.old.held →
        AreHeldBy C.cmp (F.tells folder.old) checked.new.held }
    ensures sound { IfOk result (λ _. (files : Files) → Tells (F.tells folder.old) files →
        AreHeldIn C.cmp files checked.old.held → AreSoundIn C.cmp files checked.old.sound.items →
        AreSoundIn C.cmp files checked.new.sound.items) }
    ensures device { ReportsDevice F.Folder folder.old folder.new result }
    ensures reads { OnlyReads F.Folder folder.old folder.new }
{
    let alloc = workers.alloc();
    let Some(standing) = files_newest_first::<C>(alloc, version)? else {
        return Ok(None);
    };
    if standing.len() > MAX_TABLES {
        return Err(Fault::of(FaultName::Memory));
    }
    let split = group_split::<C>(alloc, &standing, memory)?;
    let next = version.next_file();
    test_ranges::<C, F, G, R>(workers, folder, &standing, next, &split, checked)
}
