//! How much a version has whose tables lie in a folder.

ghost use Rattle.std.specs.Prelude.{◌≡◌, ℕ, ◌≤◌, ◌-◌, ◌^◌, List, Ok, IfOk, IfErr};
ghost use Rattle.table.specs.Answers.{UnlessMemory, fault};
ghost use Rattle.table.specs.fault.FaultName.TheVariants.{Lawless};
ghost use Rattle.checks.specs.HeldTables.{AreHeldBy};
ghost use Rattle.checks.specs.LawfulTables.{IsLawfulTables};
ghost use Rattle.checks.specs.TestedTables.{entry_count};
ghost use Rattle.folder.specs.Calls.{Files, Tells};
ghost use Rattle.folder.specs.Levels.{file_numbers};
ghost use Rattle.folder.specs.LoadedTables.{IsLoaded};
ghost use Rattle.folder.specs.OpenAnswer.{FolderAnswers};
ghost use Rattle.folder.specs.Orders.{order_cmp};
ghost use Rattle.folder.specs.ReadsAs.{IsFileIn};
ghost use Rattle.folder.specs.Reports.{OnlyReads, ReportsDevice};
ghost use Rattle.reads.specs.TableOrder.{IsNeverLawful};
ghost use Rattle.reads.specs.Tables.{NumberedContents};
ghost use Rattle.scan.specs.LevelCounts.{IsFewStanding};
ghost use Rattle.scan.specs.Stats.{seen_stats, version_stats};
ghost use Rattle.scan.specs.TestedStats.{IsTestedStats};

use crate::level_files::files_by_level;
use crate::level_rows::stats_of;
use crate::level_stats::VersionStats;
use crate::range_counts::count_ranges;
use crate::version_scan::sequence_of;
use board::Watch;
use checks::{HeldTables, Open, SharedComparator, Split, Workers, group_split, test_and_hold};
use folder::{Bytewise, Opened, Order, ReadsTables, Shortlex, Version};
use reads::files_newest_first;
use std::alloc::Global;
use std::thread::Threads;
use table::{Fault, FaultName};

/// Tests the version as which a folder was opened, with its tables, and then counts what it has. At
/// each level that is its files, their bytes, their tables' entries, and which of these are
/// deletions and which a newer entry hides at the version's last sequence. It only reads.
///
/// Refused as `checks::test_version` refuses the version; else only as Device or Memory. The test
/// is told to the gate of `workers`, which is `&Open` if nobody watches.
///
/// At most `memory` bytes of tables are in memory at once, if no single user key needs more. If all
/// of the version's have no more together, none is read again after the test. Else they are, a
/// range of user keys after the other, and each is checked by `workers`. No contract says so.
pub fn version_stats<F: ReadsTables, W: Watch + Sync, R: Threads + Sync>(
    workers: &Workers<'_, R, W>,
    folder: &mut F,
    opened: &Opened,
    memory: u64,
) -> Result<VersionStats, Fault>
    ensures stats { (files : Files) → Tells (F.tells folder.old) files →
        FolderAnswers seen_stats (F.failed folder.old) (F.failed folder.new) result
        (IsTestedStats (IsFileIn files) (order_cmp opened.now.order) opened.now.version) }
    ensures device { ReportsDevice F.Folder folder.old folder.new result }
    ensures reads { OnlyReads F.Folder folder.old folder.new }
{
    let version = &opened.version;
    match opened.order {
        Order::Bytewise => version_stats_by::<Bytewise, F, W, R>(workers, folder, version, memory),
        Order::Shortlex => version_stats_by::<Shortlex, F, W, R>(workers, folder, version, memory),
    }
}

/// The same by this comparator.
fn version_stats_by<
    C: SharedComparator + 'static,
    F: ReadsTables,
    W: Watch + Sync,
    R: Threads + Sync,
>(
    workers: &Workers<'_, R, W>,
    folder: &mut F,
    version: &Version,
    memory: u64,
) -> Result<VersionStats, Fault>
    ensures stats { (files : Files) → Tells (F.tells folder.old) files →
        FolderAnswers seen_stats (F.failed folder.old) (F.failed folder.new) result
        (IsTestedStats (IsFileIn files) C.cmp version.now) }
    ensures device { ReportsDevice F.Folder folder.old folder.new result }
    ensures reads { OnlyReads F.Folder folder.old folder.new }
{
    let found = test_and_hold::<C, F, W, R>(workers, folder, version, memory)?;
    let untold = workers.with_gate(&Open);
    unverified_stats::<C, F, R>(&untold, folder, version, found.tables, memory)
}

/// The same of a version that is lawful with the tables in the folder, which isn't tested. The
/// number of their entries fits. `held` are tables of the folder.
fn unverified_stats<C: SharedComparator + 'static, F: ReadsTables, R: Threads + Sync>(
    workers: &Workers<'_, R, Open>,
    folder: &mut F,
    version: &Version,
    held: HeldTables<C>,
    memory: u64,
) -> Result<VersionStats, Fault>
    ensures stats { (files : Files) (loaded : List (ℕ × List ℕ)) (tables : List NumberedContents) →
        Tells (F.tells folder.old) files →
        IsLoaded (F.tells folder.old) (file_numbers C.cmp version.now) (Ok loaded) →
        IsLawfulTables C.cmp version.now loaded (Ok tables) →
        entry_count tables ≤ 2 ^ 128 - 1 →
        AreHeldBy C.cmp (F.tells folder.old) held →
        FolderAnswers seen_stats (F.failed folder.old) (F.failed folder.new) result
        (λ answer. answer ≡ Ok (version_stats C.cmp version.now tables)) }
    ensures device { ReportsDevice F.Folder folder.old folder.new result }
    ensures reads { OnlyReads F.Folder folder.old folder.new }
{
    let alloc = workers.alloc();
    let split = level_split::<C>(alloc, version, memory)?;
    let levels = files_by_level::<C>(alloc, version)?;
    let last = sequence_of(version, None);
    let amounts = count_ranges::<C, F, R>(workers, folder, &levels, &split, held, last)?;
    stats_of::<C>(alloc, &levels, &amounts)
}

/// A split into ranges whose tables have at most `memory` bytes together, if the version is lawful
/// with some tables.
///
/// - Lawless: it is lawful with no tables.
/// - Memory otherwise.
fn level_split<C: SharedComparator>(
    alloc: Global,
    version: &Version,
    memory: u64,
) -> Result<Split<C>, Fault>
    ensures few { IfOk result (λ _. IsFewStanding C.cmp version.now) }
    ensures refused { IfErr result (λ e. UnlessMemory e
        ((e ≡ fault Lawless) × IsNeverLawful C.cmp version.now)) }
{
    let Some(standing) = files_newest_first::<C>(alloc, version)? else {
        return Err(Fault::of(FaultName::Lawless));
    };
    group_split::<C>(alloc, &standing, memory)
}
