//! Begins to take outcomes in.

ghost use Rattle.std.specs.Prelude.{◌≡◌, IfOk};
ghost use Rattle.folder.specs.Calls.{Files, Tells};
ghost use Rattle.folder.specs.OpenAnswer.{FolderAnswers};
ghost use Rattle.folder.specs.Orders.{order_cmp};
ghost use Rattle.folder.specs.Reports.{OnlyReads, ReportsDevice};
ghost use Rattle.adoption.specs.Adoption.{IsFirstTested};
ghost use Rattle.adoption.specs.TakenIn.{AreTaken, version_in};

use crate::comparison::Comparison;
use crate::taken_outcomes::TakenOutcomes;
use board::Watch;
use checks::{Workers, test_by_order};
use edit::Fault;
use folder::ReadsTables;
use std::thread::Threads;
use store::{SyncedVersion, WrittenTables};

/// No outcome yet, for what a folder was `opened` as. If outputs are to be compared, it tests that
/// version, once for all outcomes: as long as it is lawful, so is each one that they leave. It only
/// reads.
///
/// Refused as `checks::test_version` refuses the version, and not at all if outputs are not
/// compared. The test holds at most `memory` bytes of tables, as that one does, and is told to the
/// gate of `workers`, which is `&Open` if nobody watches.
pub fn begin_taking<'o, F: ReadsTables, W: Watch + Sync, R: Threads + Sync>(
    workers: &Workers<'_, R, W>,
    folder: &mut F,
    opened: &'o SyncedVersion,
    comparison: Comparison<'o>,
    memory: u64,
) -> Result<TakenOutcomes<'o>, Fault>
    ensures answer { (files : Files) → Tells (F.tells folder.old) files →
        FolderAnswers (λ t. tt) (F.failed folder.old) (F.failed folder.new) result
        (IsFirstTested (order_cmp opened.now.order) files opened.now.version comparison.entry) }
    ensures begun { IfOk result (λ t. (t.opened.now ≡ opened.now)
        × (t.comparison ≡ comparison.entry) × AreTaken F.Folder (order_cmp opened.now.order)
        opened.now.version comparison.entry folder.old folder.new (version_in t) t.written) }
    ensures device { ReportsDevice F.Folder folder.old folder.new result }
    ensures reads { OnlyReads F.Folder folder.old folder.new }
{
    test_first(workers, folder, opened, comparison, memory)?;
    Ok(TakenOutcomes {
        opened,
        comparison,
        next: None,
        written: WrittenTables {
            outputs: Vec::new(workers.alloc()),
            edits: Vec::new(workers.alloc()),
        },
    })
}

/// Tests the version that a folder was `opened` as, if outputs are to be compared. It only reads.
fn test_first<F: ReadsTables, W: Watch + Sync, R: Threads + Sync>(
    workers: &Workers<'_, R, W>,
    folder: &mut F,
    opened: &SyncedVersion,
    comparison: Comparison<'_>,
    memory: u64,
) -> Result<(), Fault>
    ensures answer { (files : Files) → Tells (F.tells folder.old) files →
        FolderAnswers (λ u. u) (F.failed folder.old) (F.failed folder.new) result
        (IsFirstTested (order_cmp opened.now.order) files opened.now.version comparison.entry) }
    ensures device { ReportsDevice F.Folder folder.old folder.new result }
    ensures reads { OnlyReads F.Folder folder.old folder.new }
{
    let Comparison::With(_) = comparison else {
        return Ok(());
    };
    test_by_order(workers, folder, opened.order, &opened.version, memory)?;
    Ok(())
}
