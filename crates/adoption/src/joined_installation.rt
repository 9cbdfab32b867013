//! Installs outcomes that were taken in, by one manifest.

ghost use Rattle.std.specs.Prelude.{◌<◌, ◌^◌, length};
ghost use Rattle.folder.specs.Calls.{Files, Tells};
ghost use Rattle.folder.specs.Manifest.{order_name};
ghost use Rattle.folder.specs.OpenAnswer.{FolderAnswers};
ghost use Rattle.folder.specs.Orders.{order_cmp};
ghost use Rattle.folder.specs.Reports.{OnlyReads, ReportsDevice};
ghost use Rattle.adoption.specs.Adoption.{IsLastTested};
ghost use Rattle.adoption.specs.TakenIn.{IsTakenInstalled, version_in};

use crate::comparison::Comparison;
use crate::taken_outcomes::{TakenOutcomes, version_left};
use board::Watch;
use checks::{SharedComparator, Workers, test_version};
use edit::{Fault, FaultName};
use folder::{Bytewise, Order, ReadsTables, Shortlex};
use std::thread::Threads;
use store::{CompactionStep, name_edits};

/// Installs all outcomes that were `taken` in a folder, by one manifest, whose number is the next
/// file of the version that was opened. Its edit is all edits as one, as [`name_edits`] reads them.
/// The step has the outputs of all, and deletes the inputs of all.
///
/// The first that applies:
///
/// - Apply: no outcome was taken;
/// - if outputs weren't compared, of the version that they leave: Missing at the first missing
///   table, by level and in version order; the first invalid one; Lawless, if it isn't lawful;
/// - Changed: just before CURRENT is replaced it isn't what it was when the folder was opened.
///
/// If the device fails a call, the answer is Device and no further call is made. If memory runs
/// out, it is Memory. After these two the folder reads as the version before or as the one after
/// all outcomes, and has to be opened again.
///
/// The test holds at most `memory` bytes of tables, as `checks::test_version` does. It is told to
/// the gate of `workers`, which is `&Open` if nobody watches.
pub fn install_taken<F: ReadsTables, W: Watch + Sync, R: Threads + Sync>(
    workers: &Workers<'_, R, W>,
    folder: &mut F,
    taken: TakenOutcomes<'_>,
    memory: u64,
) -> Result<CompactionStep, Fault>
    // If outcomes were taken in from a folder on: what was installed.
    ensures installed { (first : F) →
        IsTakenInstalled F.Folder (order_name taken.entry.opened.now.order)
        (order_cmp taken.entry.opened.now.order) first folder.old folder.new taken.entry result }
    ensures device { ReportsDevice F.Folder folder.old folder.new result }
{
    match taken.opened.order {
        Order::Bytewise => install_by::<Bytewise, F, W, R>(workers, folder, taken, memory),
        Order::Shortlex => install_by::<Shortlex, F, W, R>(workers, folder, taken, memory),
    }
}

/// The same by this comparator, whose name has fewer than 2^32 bytes.
fn install_by<C: SharedComparator + 'static, F: ReadsTables, W: Watch + Sync, R: Threads + Sync>(
    workers: &Workers<'_, R, W>,
    folder: &mut F,
    taken: TakenOutcomes<'_>,
    memory: u64,
) -> Result<CompactionStep, Fault>
    requires { length C.name_bytes < 2 ^ 32 }
    ensures installed { (first : F) → IsTakenInstalled F.Folder C.name_bytes C.cmp first folder.old
        folder.new taken.entry result }
    ensures device { ReportsDevice F.Folder folder.old folder.new result }
{
    let edits = taken.written.edits.as_slice();
    if edits.is_empty() {
        return Err(Fault::of(FaultName::Apply));
    }
    test_last::<C, F, W, R>(workers, folder, &taken, memory)?;
    name_edits::<C, F>(workers.alloc(), folder, taken.opened, taken.written)
}

/// Tests the version that outcomes leave, with the tables in the folder, if their outputs weren't
/// compared. It only reads.
fn test_last<C: SharedComparator + 'static, F: ReadsTables, W: Watch + Sync, R: Threads + Sync>(
    workers: &Workers<'_, R, W>,
    folder: &mut F,
    taken: &TakenOutcomes<'_>,
    memory: u64,
) -> Result<(), Fault>
    ensures answer { (files : Files) → Tells (F.tells folder.old) files →
        FolderAnswers (λ u. u) (F.failed folder.old) (F.failed folder.new) result
        (IsLastTested C.cmp files (version_in taken.now) taken.now.comparison) }
    ensures device { ReportsDevice F.Folder folder.old folder.new result }
    ensures reads { OnlyReads F.Folder folder.old folder.new }
{
    let Comparison::LeftOut = taken.comparison else {
        return Ok(());
    };
    test_version::<C, F, W, R>(workers, folder, version_left(taken), memory)?;
    Ok(())
}
