//! The rows of a version whose tables lie in a folder, without a test of the version.

ghost use Rattle.std.specs.Prelude.{◌≡◌, ℕ, List, Ok};
ghost use Rattle.checks.specs.HeldTables.{AreHeldBy};
ghost use Rattle.checks.specs.LawfulTables.{IsLawfulTables};
ghost use Rattle.folder.specs.Calls.{Files, Tells};
ghost use Rattle.folder.specs.Levels.{file_numbers};
ghost use Rattle.folder.specs.LoadedTables.{IsLoaded};
ghost use Rattle.folder.specs.Orders.{order_cmp};
ghost use Rattle.folder.specs.Reports.{OnlyReads, ReportsDevice};
ghost use Rattle.reads.specs.Tables.{NumberedContents};
ghost use Rattle.scan.specs.ChosenRows.{chosen_sequence};
ghost use Rattle.scan.specs.ToldRows.{IsScan, counts_of, telling_by};

use crate::range_scan::{RangeRows, tell_ranges};
use crate::row_choice::RowChoice;
use crate::row_taker::RowTaker;
use checks::{HeldTables, Open, SharedComparator, Workers, group_split};
use folder::{Bytewise, Opened, Order, ReadsTables, Shortlex, Version};
use reads::files_newest_first;
use std::thread::Threads;
use table::{Comparator, Fault, FaultName};

/// The most bytes of tables that a scan holds, if no single user key needs more. Less of them are
/// read in vain if few rows are wanted.
const SCANNED_BYTES: u64 = 33_554_432;

/// What a scan holds of a folder's tables.
#[derive(Drop)]
pub(crate) struct Holding<C: Comparator> {
    pub tables: HeldTables<C>,
    /// The most bytes of tables that are in memory.
    pub memory: u64,
}

/// Tells `taker` the chosen rows of the version as which a folder was opened, if it is lawful with
/// the tables in it. That isn't tested: it was verified before, and no other program changed
/// the folder since. It only reads.
///
/// Rows come in the order of their user keys. It stops after the last row that is wanted, or if the
/// taker says so. What it was told before a refusal is a first part of the rows.
///
/// Tables are read a range of user keys after the other, and each is checked by `workers`. At
/// most `memory` bytes of them are in memory at once, and at most 32 MiB, if no single user key
/// needs more. Those of ranges after the last wanted row aren't read. No contract says so.
pub fn scan_unverified<F: ReadsTables, T: RowTaker, R: Threads + Sync>(
    workers: &Workers<'_, R, Open>,
    folder: &mut F,
    opened: &Opened,
    choice: RowChoice<'_>,
    memory: u64,
    taker: &mut T,
) -> Result<(), Fault>
    ensures rows { (files : Files) (loaded : List (ℕ × List ℕ)) (tables : List NumberedContents) →
        Tells (F.tells folder.old) files →
        IsLoaded (F.tells folder.old)
        (file_numbers (order_cmp opened.now.order) opened.now.version) (Ok loaded) →
        IsLawfulTables (order_cmp opened.now.order) opened.now.version loaded (Ok tables) →
        IsScan (order_cmp opened.now.order) opened.now.version tables choice.entry
        (telling_by T.tells taker.old taker.new) (counts_of F.Folder folder.old folder.new) result }
    ensures device { ReportsDevice F.Folder folder.old folder.new result }
    ensures reads { OnlyReads F.Folder folder.old folder.new }
{
    let version = &opened.version;
    let memory = memory.min(SCANNED_BYTES);
    match opened.order {
        Order::Bytewise => {
            let tables = HeldTables::none(workers.alloc());
            let holding = Holding { tables, memory };
            scan_held::<Bytewise, F, T, R>(workers, folder, version, holding, choice, taker)
        }
        Order::Shortlex => {
            let tables = HeldTables::none(workers.alloc());
            let holding = Holding { tables, memory };
            scan_held::<Shortlex, F, T, R>(workers, folder, version, holding, choice, taker)
        }
    }
}

/// The same by this comparator, with tables of the folder that it holds already: those that the
/// first range needs aren't read.
pub(crate) fn scan_held<
    C: SharedComparator + 'static,
    F: ReadsTables,
    T: RowTaker,
    R: Threads + Sync,
>(
    workers: &Workers<'_, R, Open>,
    folder: &mut F,
    version: &Version,
    holding: Holding<C>,
    choice: RowChoice<'_>,
    taker: &mut T,
) -> Result<(), Fault>
    ensures rows { (files : Files) (loaded : List (ℕ × List ℕ)) (tables : List NumberedContents) →
        Tells (F.tells folder.old) files →
        IsLoaded (F.tells folder.old) (file_numbers C.cmp version.now) (Ok loaded) →
        IsLawfulTables C.cmp version.now loaded (Ok tables) →
        AreHeldBy C.cmp (F.tells folder.old) holding.tables →
        IsScan C.cmp version.now tables choice.entry
        (telling_by T.tells taker.old taker.new) (counts_of F.Folder folder.old folder.new) result }
    ensures device { ReportsDevice F.Folder folder.old folder.new result }
    ensures reads { OnlyReads F.Folder folder.old folder.new }
{
    let alloc = workers.alloc();
    let Some(standing) = files_newest_first::<C>(alloc, version)? else {
        return Err(Fault::of(FaultName::Lawless));
    };
    let split = group_split::<C>(alloc, &standing, holding.memory)?;
    let at = sequence_of(version, choice.at);
    let range = choice.range();
    let limit = choice.limit;
    let rows = RangeRows {
        standing: &standing,
        range,
        at,
        limit,
    };
    tell_ranges::<C, F, T, R>(workers, folder, &split, holding.tables, rows, taker)
}

/// The sequence `at`, or the version's last one if it isn't given.
pub fn sequence_of(version: &Version, at: Option<u64>) -> u64
    ensures { result ≡ chosen_sequence version.now at }
{
    let last = version.last_sequence().unwrap_or(0);
    at.unwrap_or(last)
}
