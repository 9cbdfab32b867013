//! All that is wrong with a version whose tables lie in a folder.

ghost use Rattle.std.specs.Prelude.{◌≡◌};
ghost use Rattle.folder.specs.Calls.{Files, Tells};
ghost use Rattle.folder.specs.Orders.{order_cmp};
ghost use Rattle.folder.specs.Reports.{OnlyReads, ReportsDevice};
ghost use Rattle.faults.specs.AllFaults.{AreFaultsTold, version_faults};

use crate::fault_count::FaultTaker;
use crate::file_faults::tell_files;
use crate::range_faults::tell_ranges;
use crate::search_order::searched_files;
use crate::table_test::tested_files;
use board::{Watch, Work};
use checks::{SharedComparator, Workers, group_split};
use folder::{Bytewise, Opened, Order, ReadsTables, Shortlex, Version};
use reads::all_files;
use std::thread::Threads;
use table::Fault;

/// The most bytes of tables that are compared at once, if no single user key needs more. A user key
/// takes a time that grows with the number of tables, so fewer of them are faster.
const COMPARED_BYTES: u64 = 33_554_432;

/// Tells all that is wrong with the version as which a folder was opened, with its tables, and
/// answers how many faults were told. It only reads.
///
/// 1. With each file, by level and in version order:
///    - its number isn't below next file;
///    - its table is missing or invalid, or its length, smallest or largest key is not the one that
///      the version states;
///    - its range of internal keys overlaps that of a later file of its level, from level 1 on.
/// 2. With each user key, in the order of the keys: its entries are not in their order. Read are
///    the tables that can be read and are what the version states. Those of level 0 are read by
///    falling number, then those of levels 1 to 6 in version order. Told are the files of the first
///    two neighbours of which the second isn't older.
///
/// Nothing is told exactly if `checks::test_version` accepts the version. A taker that says to stop
/// is told nothing more.
///
/// If the device fails a call, the answer is Device and no further call is made. If memory runs
/// out, it is Memory. Changed comes only if a table that was tested isn't there any more, or not as
/// it was. Each table is read once by itself. Then those that are compared are read a range of user
/// keys after the other, and checked by `workers`, whose gate is told of it. At most `memory` bytes
/// of them are in memory together, and at most 32 MiB, if no single user key needs more. No
/// contract says so.
pub fn all_faults<F: ReadsTables, T: FaultTaker, W: Watch + Sync, R: Threads + Sync>(
    workers: &Workers<'_, R, W>,
    folder: &mut F,
    opened: &Opened,
    memory: u64,
    taker: &mut T,
) -> Result<u64, Fault>
    ensures told { (files : Files) → Tells (F.tells folder.old) files →
        AreFaultsTold T.tells (version_faults (order_cmp opened.now.order) files opened.now.version)
        taker.old taker.new (F.failed folder.old) (F.failed folder.new) result }
    ensures device { ReportsDevice F.Folder folder.old folder.new result }
    ensures reads { OnlyReads F.Folder folder.old folder.new }
{
    let version = &opened.version;
    match opened.order {
        Order::Bytewise => {
            all_faults_by::<Bytewise, F, T, W, R>(workers, folder, version, memory, taker)
        }
        Order::Shortlex => {
            all_faults_by::<Shortlex, F, T, W, R>(workers, folder, version, memory, taker)
        }
    }
}

/// The same by this comparator.
fn all_faults_by<
    C: SharedComparator + 'static,
    F: ReadsTables,
    T: FaultTaker,
    W: Watch + Sync,
    R: Threads + Sync,
>(
    workers: &Workers<'_, R, W>,
    folder: &mut F,
    version: &Version,
    memory: u64,
    taker: &mut T,
) -> Result<u64, Fault>
    ensures told { (files : Files) → Tells (F.tells folder.old) files →
        AreFaultsTold T.tells (version_faults C.cmp files version.now) taker.old taker.new
        (F.failed folder.old) (F.failed folder.new) result }
    ensures device { ReportsDevice F.Folder folder.old folder.new result }
    ensures reads { OnlyReads F.Folder folder.old folder.new }
{
    let alloc = workers.alloc();
    let files = all_files::<C>(alloc, version)?;
    let tested = tested_files::<C, F>(alloc, folder, &files)?;
    let begun = tell_files::<C, T>(alloc, &tested, version.next_file(), taker)?;
    if !begun.goes {
        return Ok(begun.count);
    }
    let searched = searched_files(alloc, &tested)?;
    workers.gate().begin(Work::Check, searched.len() as u64);
    let split = group_split::<C>(alloc, &searched, memory.min(COMPARED_BYTES))?;
    let told = tell_ranges::<C, F, T, W, R>(workers, folder, &searched, &split, taker, begun)?;
    Ok(told.count)
}
