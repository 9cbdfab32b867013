//! The compaction of a level of a folder by its inputs alone.

ghost use Rattle.std.specs.Prelude.{◌≡◌, ◌<◌, ◌^◌, ℕ, List, length, codes, Some, Ok};
ghost use Rattle.checks.specs.HeldTables.{AreHeldBy, AreHeldIn};
ghost use Rattle.checks.specs.LawfulTables.{IsLawfulTables};
ghost use Rattle.folder.specs.Calls.{Files, Tells};
ghost use Rattle.folder.specs.Manifest.{order_name};
ghost use Rattle.folder.specs.Names.{current_text};
ghost use Rattle.folder.specs.OpenAnswer.{FolderAnswers, IfCurrent, IsOkOnlyIfCurrent};
ghost use Rattle.folder.specs.ReadsAs.{ReadsAs};
ghost use Rattle.folder.specs.Reports.{ReportsDevice};
ghost use Rattle.folder.specs.declared.order.Order.{Order};
ghost use Rattle.reads.specs.Tables.{NumberedContents};
ghost use Rattle.store.specs.InputsCompaction.{IsInputsCompacted};
ghost use Rattle.store.specs.FoundInputs.{IsRun, IsStepLeft};
ghost use Rattle.store.specs.Runs.{IsAnswerForLevel};
ghost use Rattle.store.specs.Step.{step_in};
ghost use Rattle.install.specs.FolderChange.{change_of};
ghost use Rattle.install.specs.Install.{version_with};
ghost use Rattle.store.specs.OrderView.{order_by};

use crate::choice::{Choice, chosen};
use crate::compaction_step::CompactionStep;
use crate::held_compaction::install_held;
use crate::held_inputs::held_inputs;
use crate::input_laws::chosen_is_installed;
use crate::picked_outcome::sets_internal_key;
use crate::synced_version::SyncedVersion;
use crate::version_files::version_is_state;
use board::Watch;
use checks::{HeldTables, SharedComparator, Workers};
use compact::Settings;
use folder::{Fault, ReadsTables, WritesTables};
use std::thread::Threads;

/// Compacts a `level` of the version that a folder was `opened` as, by its inputs alone, and
/// installs the outcome. `held` are tables of the folder. The comparator's name has fewer than 2^32
/// bytes.
pub(crate) fn compact_step<
    C: SharedComparator + 'static,
    F: ReadsTables + WritesTables,
    W: Watch + Sync,
    R: Threads + Sync,
>(
    workers: &Workers<'_, R, W>,
    folder: &mut F,
    held: HeldTables<C>,
    opened: &SyncedVersion,
    level: u64,
    settings: &Settings<'_>,
) -> Result<CompactionStep, Fault>
    requires { length C.name_bytes < 2 ^ 32 }
    ensures answer { IfCurrent (F.tells folder.old) opened.now.manifest (λ files.
        AreHeldIn C.cmp files held →
        FolderAnswers step_in (F.failed folder.old) (F.failed folder.new) result
        (IsInputsCompacted C.cmp C.short_keys files opened.now.version level settings.now)) }
    ensures left { (files : Files) (order : Order) (loaded : List (ℕ × List ℕ))
        (tables : List NumberedContents) →
        Tells (F.tells folder.old) files →
        files (codes "CURRENT") ≡ Some (current_text opened.now.manifest) →
        AreHeldIn C.cmp files held →
        order_name order ≡ C.name_bytes →
        ReadsAs C.cmp order opened.now.version loaded files →
        IsLawfulTables C.cmp opened.now.version loaded (Ok tables) →
        IsStepLeft (order_by order C.cmp C.short_keys) (version_with opened.now.version loaded)
        level settings.now (change_of F.Folder folder.old folder.new) result }
    ensures runs { AreHeldBy C.cmp (F.tells folder.old) held →
        IsRun (IsAnswerForLevel C.cmp C.short_keys (F.tells folder.old) opened.now.version level
        settings.now) C.name_bytes C.cmp opened.now.version
        (change_of F.Folder folder.old folder.new) result }
    ensures other { IsOkOnlyIfCurrent (F.tells folder.old) opened.now.manifest result }
    ensures device { ReportsDevice F.Folder folder.old folder.new result }
{
    chosen_is_installed::<C>();
    let version = &opened.version;
    version_is_state::<C>(workers.alloc(), version);
    let picked = chosen::<C>(workers.alloc(), version, Choice::Picked(level))?;
    sets_internal_key(&picked);
    let tables = held_inputs::<C, F, W, R>(workers, folder, held, version, &picked)?;
    install_held::<C, F, W, R>(workers, folder, opened, &picked, &tables, settings)
}
