//! The installation of a compaction whose tables are encoded while they are written.
//!
//! The outputs are planned, and their edit is known, before a byte of them is written. Then their
//! tables are encoded and written a group after the other, so no more than a group is in memory. If
//! that fails midway, the tables that were written stay: the version doesn't name them.

ghost use Rattle.std.specs.Prelude.{◌≡◌, ◌∷◌, [], ◌<◌, ◌^◌, ℕ, List, length, codes, None, Some, Ok};
ghost use Rattle.std.specs.Prelude.{slice_get};
ghost use Rattle.folder.specs.Calls.{Files, Tells};
ghost use Rattle.folder.specs.Manifest.{order_name};
ghost use Rattle.folder.specs.Names.{current_text};
ghost use Rattle.folder.specs.OpenAnswer.{FolderAnswers, IfCurrent, IsOkOnlyIfCurrent};
ghost use Rattle.folder.specs.Reports.{ReportsDevice};
ghost use Rattle.folder.specs.declared.order.Order.{Order};
ghost use Rattle.install.specs.Install.{table_calls, version_with};
ghost use Rattle.install.specs.GroupedInstallation.{IsGroupedInstallation, asked_of};
ghost use Rattle.pick.specs.PickedInputs.{IsInputsAnswer, picked_in};
ghost use Rattle.compact.specs.OneThread.{Answer};
ghost use Rattle.compact.specs.declared.settings.Settings.{Settings};
ghost use Rattle.store.specs.CallsAnswer.{IsCallsAnswer};
ghost use Rattle.store.specs.FolderRequest.{manifest_of};
ghost use Rattle.store.specs.FoundInputs.{IsAnsweredBy, IsRun, IsStepLeft, NeverDevice};
ghost use Rattle.store.specs.FoundInputs.{step_result};
ghost use Rattle.store.specs.Outcome.{ChosenCompaction};
ghost use Rattle.store.specs.Step.{step_in};
ghost use Rattle.install.specs.FolderChange.{change_of};
ghost use Rattle.store.specs.OrderView.{order_by};

use crate::answered_steps::planned_step;
use crate::compaction_step::CompactionStep;
use crate::folder_request::manifest_of;
use crate::group_tables::GroupTables;
use crate::picked_outcome::{edit_is_bytes, sets_internal_key};
use crate::synced_version::SyncedVersion;
use board::Watch;
use checks::{SharedComparator, Workers};
use compact::{Merged, Planned};
use folder::{Fault, Version, WritesTables};
use install::{install_manifest, manifest_bytes, write_source_group};
use pick::Inputs;
use std::thread::Threads;

/// Installs a compaction of the version that a folder was `opened` as, which was merged of these
/// `picked` inputs.
///
/// The first that applies: what the compaction is refused as; what an installation is.
pub(crate) fn install_merged<
    C: SharedComparator + 'static,
    F: WritesTables,
    W: Watch + Sync,
    R: Threads + Sync,
>(
    workers: &Workers<'_, R, W>,
    folder: &mut F,
    opened: &SyncedVersion,
    merged: &Merged<'_, '_, C>,
    picked: &Inputs,
) -> Result<CompactionStep, Fault>
    requires name { length C.name_bytes < 2 ^ 32 }
    requires other { NeverDevice merged.now }
    ensures answer { IfCurrent (F.tells folder.old) opened.now.manifest (λ files.
        FolderAnswers step_in (F.failed folder.old) (F.failed folder.new) result
        (λ step. step ≡ step_result opened.now.version (picked_in picked.now) merged.now)) }
    ensures left { (files : Files) (order : Order) (loaded : List (ℕ × List ℕ)) (level : ℕ)
        (s : Settings) → Tells (F.tells folder.old) files →
        files (codes "CURRENT") ≡ Some (current_text opened.now.manifest) →
        order_name order ≡ C.name_bytes →
        ((a : Answer) → merged.now ≡ Ok a →
        ChosenCompaction (order_by order C.cmp C.short_keys)
        (version_with opened.now.version loaded)
        (IsInputsAnswer C.cmp opened.now.version level) None s (picked_in picked.now) a) →
        IsStepLeft (order_by order C.cmp C.short_keys) (version_with opened.now.version loaded)
        level s (change_of F.Folder folder.old folder.new) result }
    ensures runs { IsRun (IsAnsweredBy (picked_in picked.now) merged.now) C.name_bytes C.cmp
        opened.now.version (change_of F.Folder folder.old folder.new) result }
    ensures other { IsOkOnlyIfCurrent (F.tells folder.old) opened.now.manifest result }
    ensures device { ReportsDevice F.Folder folder.old folder.new result }
{
    let alloc = workers.alloc();
    let planned = merged.planned(alloc)?;
    sets_internal_key(picked);
    edit_is_bytes(planned.edit());
    let version = &opened.version;
    let number = manifest_of(version);
    let step = planned_step(alloc, version, picked, &planned)?;
    install_planned(workers, folder, opened.manifest, version, number, &planned)?;
    Ok(step)
}

/// Installs `planned` outputs of a compaction of a `version`, as [`install`](install::install) does
/// an outcome. Their tables are encoded and written a group after the other.
fn install_planned<
    C: SharedComparator + 'static,
    F: WritesTables,
    W: Watch + Sync,
    R: Threads + Sync,
>(
    workers: &Workers<'_, R, W>,
    folder: &mut F,
    opened: u64,
    version: &Version,
    number: u64,
    planned: &Planned<'_, '_, C>,
) -> Result<(), Fault>
    requires { length C.name_bytes < 2 ^ 32 }
    ensures { IsGroupedInstallation F.Folder (asked_of C.name_bytes C.cmp version.now opened number
        planned.now.groups planned.now.edit) folder.old folder.new result }
{
    let alloc = workers.alloc();
    let manifest = manifest_bytes::<C>(alloc, version, planned.edit())?;
    write_groups(workers, folder, planned)?;
    install_manifest(alloc, folder, opened, number, &manifest)
}

/// Encodes and writes the tables of planned outputs, a group after the other.
fn write_groups<C: SharedComparator + 'static, F: WritesTables, W: Watch + Sync, R: Threads + Sync>(
    workers: &Workers<'_, R, W>,
    folder: &mut F,
    planned: &Planned<'_, '_, C>,
) -> Result<(), Fault>
    ensures { IsCallsAnswer F.Folder (table_calls planned.now.groups) folder.old folder.new result }
{
    for place in 0..planned.len() {
        write_encoded(workers, folder, planned, place)?;
    }
    Ok(())
}

/// Encodes and writes the tables of the group at `place`.
fn write_encoded<
    C: SharedComparator + 'static,
    F: WritesTables,
    W: Watch + Sync,
    R: Threads + Sync,
>(
    workers: &Workers<'_, R, W>,
    folder: &mut F,
    planned: &Planned<'_, '_, C>,
    place: usize,
) -> Result<(), Fault>
    requires { place < length planned.now.groups }
    ensures { (group : List (ℕ × List ℕ)) → slice_get planned.now.groups place ≡ Some group →
        IsCallsAnswer F.Folder (table_calls (group ∷ [])) folder.old folder.new result }
{
    let alloc = workers.alloc();
    let source = GroupTables {
        plan: planned.group(place),
    };
    write_source_group(
        workers.threads(),
        alloc,
        folder,
        &source,
        planned.workers(),
        workers.gate(),
    )
}
