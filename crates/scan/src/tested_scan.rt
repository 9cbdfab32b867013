//! The rows of a version whose tables lie in a folder, after a test of the version.

ghost use Rattle.folder.specs.Calls.{Files, Tells};
ghost use Rattle.folder.specs.Orders.{order_cmp};
ghost use Rattle.folder.specs.ReadsAs.{IsFileIn};
ghost use Rattle.folder.specs.Reports.{OnlyReads, ReportsDevice};
ghost use Rattle.scan.specs.TestedScan.{IsTestedScan};
ghost use Rattle.scan.specs.ToldRows.{telling_by, counts_of};

use crate::row_choice::RowChoice;
use crate::row_taker::RowTaker;
use crate::version_scan::{Holding, scan_held};
use board::Watch;
use checks::{Open, SharedComparator, Workers, test_and_hold};
use folder::{Bytewise, Opened, Order, ReadsTables, Shortlex, Version};
use std::thread::Threads;
use table::Fault;

/// Tests the version as which a folder was opened, with its tables, and then tells `taker` its
/// chosen rows as [`scan_unverified`](crate::scan_unverified) does. It only reads.
///
/// Refused as `checks::test_version` refuses the version, before any row is told; else only as
/// Device or Memory. The test is told to the gate of `workers`, which is
/// `&Open` if nobody watches.
///
/// At most `memory` bytes of tables are in memory at once, if no single user key needs more. If all
/// of the version's have no more together, none is read again after the test. No contract says so.
pub fn scan_version<F: ReadsTables, T: RowTaker, W: Watch + Sync, R: Threads + Sync>(
    workers: &Workers<'_, R, W>,
    folder: &mut F,
    opened: &Opened,
    choice: RowChoice<'_>,
    memory: u64,
    taker: &mut T,
) -> Result<(), Fault>
    ensures rows { (files : Files) → Tells (F.tells folder.old) files →
        IsTestedScan (IsFileIn files) (order_cmp opened.now.order) opened.now.version choice.entry
        (telling_by T.tells taker.old taker.new) (counts_of F.Folder folder.old folder.new) result }
    ensures device { ReportsDevice F.Folder folder.old folder.new result }
    ensures reads { OnlyReads F.Folder folder.old folder.new }
{
    let version = &opened.version;
    match opened.order {
        Order::Bytewise => {
            scan_version_by::<Bytewise, F, T, W, R>(workers, folder, version, choice, memory, taker)
        }
        Order::Shortlex => {
            scan_version_by::<Shortlex, F, T, W, R>(workers, folder, version, choice, memory, taker)
        }
    }
}

/// The same by this comparator.
fn scan_version_by<
    C: SharedComparator + 'static,
    F: ReadsTables,
    T: RowTaker,
    W: Watch + Sync,
    R: Threads + Sync,
>(
    workers: &Workers<'_, R, W>,
    folder: &mut F,
    version: &Version,
    choice: RowChoice<'_>,
    memory: u64,
    taker: &mut T,
) -> Result<(), Fault>
    ensures rows { (files : Files) → Tells (F.tells folder.old) files →
        IsTestedScan (IsFileIn files) C.cmp version.now choice.entry
        (telling_by T.tells taker.old taker.new) (counts_of F.Folder folder.old folder.new) result }
    ensures device { ReportsDevice F.Folder folder.old folder.new result }
    ensures reads { OnlyReads F.Folder folder.old folder.new }
{
    let found = test_and_hold::<C, F, W, R>(workers, folder, version, memory)?;
    let untold = workers.with_gate(&Open);
    let tables = found.tables;
    let holding = Holding { tables, memory };
    scan_held::<C, F, T, R>(&untold, folder, version, holding, choice, taker)
}
