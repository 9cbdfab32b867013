//! The compaction of inputs whose tables are held.

ghost use Rattle.std.specs.Prelude.{◌≡◌, ◌&&◌, ◌<◌, ◌^◌, nat_le, ℕ, List, map, IfOk, Ok};
ghost use Rattle.std.specs.Prelude.{None, Some, codes, length, unwrap_or};
ghost use Rattle.folder.specs.Answers.{EqualOrMemory, HoldsOrMemory};
ghost use Rattle.folder.specs.fault.FaultName.TheVariants.{SplitCount};
ghost use Rattle.reads.specs.TestResult.{test_result};
ghost use Rattle.compact.specs.AnswerIn.{answer_in};
ghost use Rattle.checks.specs.HeldBytes.{held_bytes};
ghost use Rattle.folder.specs.Calls.{Files, Tells};
ghost use Rattle.folder.specs.Manifest.{order_name};
ghost use Rattle.folder.specs.Names.{current_text};
ghost use Rattle.folder.specs.OpenAnswer.{FolderAnswers, IfCurrent, IsOkOnlyIfCurrent};
ghost use Rattle.folder.specs.Reports.{ReportsDevice};
ghost use Rattle.folder.specs.declared.order.Order.{Order};
ghost use Rattle.install.specs.Install.{table_bytes_of, version_with};
ghost use Rattle.pick.specs.PickedInputs.{picked_in};
ghost use Rattle.compact.specs.Inputs.{inputs_reading};
ghost use Rattle.split.specs.declared.split.TheConstants.{MAX_RANGES};
ghost use Rattle.store.specs.FolderRequest.{compaction_from};
ghost use Rattle.store.specs.FoundInputs.{CanBeInstalled, IsAnswerForInputs, IsAnswerForThese};
ghost use Rattle.store.specs.FoundInputs.{IsAnsweredBy, IsRun, IsStepLeft, step_result};
ghost use Rattle.store.specs.InputsCompaction.{IsReadAnswer};
ghost use Rattle.store.specs.Step.{IsStepFor, step_in};
ghost use Rattle.install.specs.FolderChange.{change_of};
ghost use Rattle.store.specs.OrderView.{order_by};

use crate::compaction_step::CompactionStep;
use crate::folder_request::request_of;
use crate::input_tables::{bytes_of, stated_tables};
use crate::planned_installation::install_merged;
use crate::synced_version::SyncedVersion;
use board::{Watch, Work};
use checks::{HeldTables, SharedComparator, Workers};
use compact::{Settings, compact_tables, merge_request};
use folder::{Comparator, Fault, Version, WritesTables};
use install::Outcome;
use pick::Inputs;
use reads::SoundTable;
use split::Split;
use std::alloc::Global;
use std::thread::Threads;

/// Compacts `picked` inputs whose tables are held in their order. The outputs have the numbers from
/// `first` on, or else those after the manifest's.
///
/// The first that applies: Bounds, if a table isn't as its file states; what the compaction is
/// refused as.
pub(crate) fn compact_held<C: SharedComparator + 'static, W: Watch + Sync, R: Threads + Sync>(
    workers: &Workers<'_, R, W>,
    version: &Version,
    picked: &Inputs,
    held: &HeldTables<C>,
    first: Option<u64>,
    settings: &Settings<'_>,
) -> Result<Outcome, Fault>
    requires bytes { map (λ t. t.1) (held_bytes held.now)
        ≡ map (λ i. table_bytes_of (held_bytes held.now) i.meta.number) picked.now.files.items }
    ensures answer { HoldsOrMemory (λ o. (picked_in picked.now, answer_in o)) result
        (IsReadAnswer first C.cmp C.short_keys version.now settings.now (picked_in picked.now)
        (held_bytes held.now)) }
    ensures outcome { IfOk result (λ o. compaction_from first C.cmp C.short_keys version.now
        (held_bytes held.now) (picked_in picked.now) settings.now ≡ Ok (answer_in o)) }
    ensures logs { IfOk result (λ _. (unwrap_or version.now.log_number 0 < 2 ^ 64)
        × (unwrap_or version.now.previous_log 0 < 2 ^ 64)) }
{
    let alloc = workers.alloc();
    let tables = stated_tables(alloc, &picked.files, held)?;
    compact_checked::<C, W, R>(workers, version, picked, &tables, first, settings)
}

/// The outcome of the compaction of `picked` inputs, whose `tables` are checked.
fn compact_checked<C: SharedComparator + 'static, W: Watch + Sync, R: Threads + Sync>(
    workers: &Workers<'_, R, W>,
    version: &Version,
    picked: &Inputs,
    tables: &[SoundTable<'_, C>],
    first: Option<u64>,
    settings: &Settings<'_>,
) -> Result<Outcome, Fault>
    requires read { inputs_reading C.cmp 0 picked.now.files.items (map (λ t. t.bytes) tables.now)
        ≡ Ok (map (λ t. t.entries) tables.now) }
    ensures answer { (loaded : List (ℕ × List ℕ)) →
        map (λ t. t.bytes) tables.now
        ≡ map (λ i. table_bytes_of loaded i.meta.number) picked.now.files.items →
        EqualOrMemory answer_in result
        (compaction_from first C.cmp C.short_keys version.now loaded
        (picked_in picked.now) settings.now) }
    ensures logs { IfOk result (λ _. (unwrap_or version.now.log_number 0 < 2 ^ 64)
        × (unwrap_or version.now.previous_log 0 < 2 ^ 64)) }
{
    let alloc = workers.alloc();
    let split = split_of(alloc, tables, settings.ranges)?;
    let bytes = bytes_of(alloc, tables)?;
    let request = request_of(version, picked, &bytes, first, settings)?;
    workers.gate().begin(Work::Compact, split.len());
    compact_tables::<C, W, R>(
        workers.threads(),
        alloc,
        &request,
        tables,
        &split,
        settings.workers,
        workers.gate(),
    )
}

/// Compacts `picked` inputs of the version that a folder was `opened` as, whose tables are held in
/// their order, and installs the outcome.
///
/// The first that applies: Bounds, if a table isn't as its file states; what the compaction is
/// refused as; what an installation is.
pub(crate) fn install_held<
    C: SharedComparator + 'static,
    F: WritesTables,
    W: Watch + Sync,
    R: Threads + Sync,
>(
    workers: &Workers<'_, R, W>,
    folder: &mut F,
    opened: &SyncedVersion,
    picked: &Inputs,
    held: &HeldTables<C>,
    settings: &Settings<'_>,
) -> Result<CompactionStep, Fault>
    requires name { length C.name_bytes < 2 ^ 32 }
    requires bytes { map (λ t. t.1) (held_bytes held.now)
        ≡ map (λ i. table_bytes_of (held_bytes held.now) i.meta.number) picked.now.files.items }
    ensures answer { IfCurrent (F.tells folder.old) opened.now.manifest (λ files.
        FolderAnswers step_in (F.failed folder.old) (F.failed folder.new) result
        (IsStepFor opened.now.version (IsReadAnswer None C.cmp C.short_keys opened.now.version
        settings.now (picked_in picked.now) (held_bytes held.now)))) }
    ensures left { (files : Files) (order : Order) (loaded : List (ℕ × List ℕ)) (level : ℕ) →
        Tells (F.tells folder.old) files →
        files (codes "CURRENT") ≡ Some (current_text opened.now.manifest) →
        order_name order ≡ C.name_bytes →
        CanBeInstalled (order_by order C.cmp C.short_keys) (version_with opened.now.version loaded)
        level settings.now (picked_in picked.now) (compaction_from None C.cmp C.short_keys
        opened.now.version (held_bytes held.now) (picked_in picked.now) settings.now) →
        IsStepLeft (order_by order C.cmp C.short_keys) (version_with opened.now.version loaded)
        level settings.now (change_of F.Folder folder.old folder.new) result }
    ensures runs { IsRun (IsAnswerForThese (IsAnswerForInputs C.cmp C.short_keys opened.now.version
        (held_bytes held.now) settings.now) (picked_in picked.now)) C.name_bytes C.cmp
        opened.now.version (change_of F.Folder folder.old folder.new) result }
    ensures other { IsOkOnlyIfCurrent (F.tells folder.old) opened.now.manifest result }
    ensures device { ReportsDevice F.Folder folder.old folder.new result }
{
    let alloc = workers.alloc();
    let tables = stated_tables(alloc, &picked.files, held)?;
    install_checked::<C, F, W, R>(workers, folder, opened, picked, &tables, settings)
}

/// Compacts `picked` inputs, whose `tables` are checked, and installs the outcome.
fn install_checked<
    C: SharedComparator + 'static,
    F: WritesTables,
    W: Watch + Sync,
    R: Threads + Sync,
>(
    workers: &Workers<'_, R, W>,
    folder: &mut F,
    opened: &SyncedVersion,
    picked: &Inputs,
    tables: &[SoundTable<'_, C>],
    settings: &Settings<'_>,
) -> Result<CompactionStep, Fault>
    requires name { length C.name_bytes < 2 ^ 32 }
    requires read { inputs_reading C.cmp 0 picked.now.files.items (map (λ t. t.bytes) tables.now)
        ≡ Ok (map (λ t. t.entries) tables.now) }
    // Each input has the bytes of its number.
    requires bytes { (loaded : List (ℕ × List ℕ)) × (map (λ t. t.bytes) tables.now
        ≡ map (λ i. table_bytes_of loaded i.meta.number) picked.now.files.items) }
    ensures answer { (files : Files) (loaded : List (ℕ × List ℕ)) →
        Tells (F.tells folder.old) files →
        files (codes "CURRENT") ≡ Some (current_text opened.now.manifest) →
        map (λ t. t.bytes) tables.now
        ≡ map (λ i. table_bytes_of loaded i.meta.number) picked.now.files.items →
        FolderAnswers step_in (F.failed folder.old) (F.failed folder.new) result
        (λ step. step ≡ step_result opened.now.version (picked_in picked.now)
        (compaction_from None C.cmp C.short_keys opened.now.version loaded (picked_in picked.now)
        settings.now)) }
    ensures left { (files : Files) (order : Order) (own loaded : List (ℕ × List ℕ)) (level : ℕ) →
        Tells (F.tells folder.old) files →
        files (codes "CURRENT") ≡ Some (current_text opened.now.manifest) →
        map (λ t. t.bytes) tables.now
        ≡ map (λ i. table_bytes_of own i.meta.number) picked.now.files.items →
        order_name order ≡ C.name_bytes →
        CanBeInstalled (order_by order C.cmp C.short_keys) (version_with opened.now.version loaded)
        level settings.now (picked_in picked.now) (compaction_from None C.cmp C.short_keys
        opened.now.version own (picked_in picked.now) settings.now) →
        IsStepLeft (order_by order C.cmp C.short_keys) (version_with opened.now.version loaded)
        level settings.now (change_of F.Folder folder.old folder.new) result }
    ensures runs { (own : List (ℕ × List ℕ)) →
        map (λ t. t.bytes) tables.now
        ≡ map (λ i. table_bytes_of own i.meta.number) picked.now.files.items →
        IsRun (IsAnsweredBy (picked_in picked.now) (compaction_from None C.cmp C.short_keys
        opened.now.version own (picked_in picked.now) settings.now)) C.name_bytes C.cmp
        opened.now.version (change_of F.Folder folder.old folder.new) result }
    ensures other { IsOkOnlyIfCurrent (F.tells folder.old) opened.now.manifest result }
    ensures device { ReportsDevice F.Folder folder.old folder.new result }
{
    let alloc = workers.alloc();
    let split = split_of(alloc, tables, settings.ranges)?;
    let bytes = bytes_of(alloc, tables)?;
    let request = request_of(&opened.version, picked, &bytes, None, settings)?;
    workers.gate().begin(Work::Compact, split.len());
    let count = settings.workers;
    let merged = merge_request::<C, W, R>(
        workers.threads(),
        alloc,
        &request,
        tables,
        &split,
        count,
        workers.gate(),
    )?;
    install_merged(workers, folder, opened, &merged, picked)
}

/// The split of the keys of these tables into at most `ranges` ranges. `SplitCount` if `ranges` is
/// outside 1 to 4,096. The only other fault is Memory.
fn split_of<C: Comparator>(
    alloc: Global,
    tables: &[SoundTable<'_, C>],
    ranges: u64,
) -> Result<Split<C>, Fault>
    ensures { EqualOrMemory (λ split. tt) result
        (test_result (nat_le 1 ranges && nat_le ranges MAX_RANGES) SplitCount) }
{
    Split::sample(alloc, tables, ranges)
}
