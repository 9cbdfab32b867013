//! The compaction of a level: of all its parts, or of what else is selected of it.

ghost use Rattle.std.specs.Prelude.{◌≡◌, ◌<◌, ◌^◌, ℕ, List, length, map, codes, unwrap_or};
ghost use Rattle.std.specs.Prelude.{Some, Ok};
ghost use Rattle.checks.specs.LawfulTables.{IsLawfulTables};
ghost use Rattle.folder.specs.Calls.{Files, Tells};
ghost use Rattle.folder.specs.Manifest.{order_name};
ghost use Rattle.folder.specs.Names.{current_text};
ghost use Rattle.folder.specs.OpenAnswer.{FolderAnswers, IfCurrent, IsOkOnlyIfCurrent, IsOpened};
ghost use Rattle.folder.specs.Orders.{order_cmp, order_short_keys};
ghost use Rattle.folder.specs.ReadsAs.{IsFileIn, ReadsAs};
ghost use Rattle.folder.specs.Reports.{ReportsDevice};
ghost use Rattle.folder.specs.declared.order.Order.{Order};
ghost use Rattle.install.specs.FolderChange.{change_of};
ghost use Rattle.install.specs.Install.{version_with};
ghost use Rattle.keep.specs.Tables.{NumberedContents};
ghost use Rattle.pick.specs.PickedInputs.{picked_in};
ghost use Rattle.store.specs.OrderView.{order_by, order_view};
ghost use Rattle.store.specs.Step.{step_in};
ghost use Rattle.levels.specs.PartsEnd.{AreSelectedParts, IsPartsEnd};
ghost use Rattle.levels.specs.WholeAnswer.{AreLevelParts, AreSelected, IsWholeCompacted};
ghost use Rattle.levels.specs.LevelLeft.{IsWholeLeft};
ghost use Rattle.levels.specs.LevelTaken.{IsLevelLeft};
ghost use Rattle.levels.specs.LevelMade.{IsLevelMadeBy, IsLevelStep};
ghost use Rattle.levels.specs.WholeRuns.{IsWholeRun};
ghost use Rattle.levels.specs.declared.selection.Selection.{Selection};

use crate::level_parts::selected_parts;
use crate::part_writer::write_parts;
use crate::selection::Selection;
use board::Watch;
use checks::{SharedComparator, Workers, test_by_order};
use compact::passed_law;
use edit::{Fault, Version};
use folder::{Bytewise, Order, ReadsTables, Shortlex, WritesTables};
use pick::Inputs;
use std::thread::Threads;
use store::{
    CompactionStep, Settings, SyncedVersion, WrittenTables, compact_opened, name_edits,
    version_is_state,
};
use table::table_reads_back;

/// Compacts a whole `level` of what a folder was `opened` as: all its parts, and installs them by
/// one manifest. Its number is the version's next file; the outputs have numbers after it.
///
/// All tables are tested first, by at most `memory` bytes of them at a time. Then each part is
/// compacted by all workers, one after the other, and its tables are written. At the end the
/// manifest is, and CURRENT names it.
///
/// The first that applies:
///
/// - what [`compact_opened`](store::compact_opened) is refused as before it picks inputs;
/// - Level: the level is above 5; NoInput: it has no file;
/// - of each part in turn: Numbers, if no number is left; SplitCount; what `compact::compact` is
///   refused as, Workers first;
/// - Changed, as [`compact_opened`](store::compact_opened) has it.
///
/// If a part is refused, the tables of those before it stay, and the version doesn't name them. The
/// same holds if the device fails or memory runs out before CURRENT names the new manifest. So the
/// folder reads as the version before, or as the one after all parts.
pub fn compact_level<F: ReadsTables + WritesTables, W: Watch + Sync, R: Threads + Sync>(
    workers: &Workers<'_, R, W>,
    folder: &mut F,
    opened: &SyncedVersion,
    level: u64,
    settings: &Settings<'_>,
    memory: u64,
) -> Result<CompactionStep, Fault>
    // If the folder tells files that open as this version in this order: the step, or the first
    // refusal in this order.
    ensures answer { IfCurrent (F.tells folder.old) opened.now.manifest (λ files.
        IsOpened (IsFileIn files) (Ok (opened.now.order, opened.now.version)) →
        FolderAnswers step_in (F.failed folder.old) (F.failed folder.new) result
        (IsWholeCompacted (order_cmp opened.now.order) (order_short_keys opened.now.order)
        files opened.now.version (AreLevelParts (order_cmp opened.now.order)
        opened.now.version level) settings.now)) }
    // What is left of the folder then: what it held; tables that no version names; or the edited
    // version, which is lawful and answers each readable get as before.
    ensures left { IfCurrent (F.tells folder.old) opened.now.manifest (λ files.
        IsOpened (IsFileIn files) (Ok (opened.now.order, opened.now.version)) →
        IsWholeLeft (order_view opened.now.order) opened.now.version files level settings.now
        (change_of F.Folder folder.old folder.new) result) }
    // Of any folder, also one that tells nothing: no call that writes was made; or the calls are
    // those of one thread's answers for the parts of this level, in their order, up to one that
    // fails. The tables of the inputs are what reads of the folder may give.
    ensures runs { IsWholeRun F.Folder (order_name opened.now.order) (order_cmp opened.now.order)
        (order_short_keys opened.now.order) opened.now.version
        (AreLevelParts (order_cmp opened.now.order) opened.now.version level) settings.now
        folder.old folder.new result }
    // If CURRENT is another one, the answer is never Ok.
    ensures other { IsOkOnlyIfCurrent (F.tells folder.old) opened.now.manifest result }
    ensures device { ReportsDevice F.Folder folder.old folder.new result }
{
    test_by_order(workers, folder, opened.order, &opened.version, memory)?;
    compact_selected(workers, folder, opened, level, Selection::Whole, settings)
}

/// Compacts what a `selection` takes of a `level` of what a folder was `opened` as, and installs
/// it. It tests no table but those of inputs: its caller knows that the version is lawful.
pub(crate) fn compact_selected<F: ReadsTables + WritesTables, W: Watch + Sync, R: Threads + Sync>(
    workers: &Workers<'_, R, W>,
    folder: &mut F,
    opened: &SyncedVersion,
    level: u64,
    selection: Selection,
    settings: &Settings<'_>,
) -> Result<CompactionStep, Fault>
    ensures answer { (files : Files) (loaded : List (ℕ × List ℕ)) (tables : List NumberedContents) →
        Tells (F.tells folder.old) files →
        files (codes "CURRENT") ≡ Some (current_text opened.now.manifest) →
        ReadsAs (order_cmp opened.now.order) opened.now.order opened.now.version loaded files →
        IsLawfulTables (order_cmp opened.now.order) opened.now.version loaded (Ok tables) →
        FolderAnswers step_in (F.failed folder.old) (F.failed folder.new) result
        (IsLevelStep selection opened.now.order files opened.now.version level settings.now) }
    ensures left { (files : Files) (loaded : List (ℕ × List ℕ)) (tables : List NumberedContents) →
        Tells (F.tells folder.old) files →
        files (codes "CURRENT") ≡ Some (current_text opened.now.manifest) →
        ReadsAs (order_cmp opened.now.order) opened.now.order opened.now.version loaded files →
        IsLawfulTables (order_cmp opened.now.order) opened.now.version loaded (Ok tables) →
        IsLevelLeft selection (order_view opened.now.order)
        (version_with opened.now.version loaded) level settings.now
        (change_of F.Folder folder.old folder.new) result }
    ensures runs { IsLevelMadeBy selection F.Folder opened.now.order opened.now.version level
        settings.now folder.old folder.new result }
    ensures other { IsOkOnlyIfCurrent (F.tells folder.old) opened.now.manifest result }
    ensures device { ReportsDevice F.Folder folder.old folder.new result }
{
    let Some(parts) = selected_parts(workers.alloc(), opened, level, selection)? else {
        return compact_opened(workers, folder, opened, level, settings, None);
    };
    compact_chosen(workers, folder, opened, &parts, settings)
}

/// Compacts `parts` that a selection takes of what a folder was `opened` as, and installs them.
fn compact_chosen<F: ReadsTables + WritesTables, W: Watch + Sync, R: Threads + Sync>(
    workers: &Workers<'_, R, W>,
    folder: &mut F,
    opened: &SyncedVersion,
    parts: &[Inputs],
    settings: &Settings<'_>,
) -> Result<CompactionStep, Fault>
    requires chosen { AreSelectedParts (order_cmp opened.now.order) opened.now.version
        (map picked_in parts.now) }
    ensures answer { (selection : Selection) (level : ℕ) (files : Files)
        (loaded : List (ℕ × List ℕ)) (tables : List NumberedContents) →
        AreSelected selection (order_cmp opened.now.order) opened.now.version level
        (Ok (map picked_in parts.now)) → Tells (F.tells folder.old) files →
        files (codes "CURRENT") ≡ Some (current_text opened.now.manifest) →
        ReadsAs (order_cmp opened.now.order) opened.now.order opened.now.version loaded files →
        IsLawfulTables (order_cmp opened.now.order) opened.now.version loaded (Ok tables) →
        FolderAnswers step_in (F.failed folder.old) (F.failed folder.new) result
        (IsWholeCompacted (order_cmp opened.now.order) (order_short_keys opened.now.order) files
        opened.now.version (AreSelected selection (order_cmp opened.now.order) opened.now.version
        level) settings.now) }
    ensures left { (selection : Selection) (level : ℕ) (files : Files)
        (loaded : List (ℕ × List ℕ)) (tables : List NumberedContents) →
        AreSelected selection (order_cmp opened.now.order) opened.now.version level
        (Ok (map picked_in parts.now)) → Tells (F.tells folder.old) files →
        files (codes "CURRENT") ≡ Some (current_text opened.now.manifest) →
        ReadsAs (order_cmp opened.now.order) opened.now.order opened.now.version loaded files →
        IsLawfulTables (order_cmp opened.now.order) opened.now.version loaded (Ok tables) →
        IsLevelLeft selection (order_view opened.now.order)
        (version_with opened.now.version loaded) level settings.now
        (change_of F.Folder folder.old folder.new) result }
    ensures runs { (selection : Selection) (level : ℕ) →
        AreSelected selection (order_cmp opened.now.order) opened.now.version level
        (Ok (map picked_in parts.now)) →
        IsWholeRun F.Folder (order_name opened.now.order) (order_cmp opened.now.order)
        (order_short_keys opened.now.order) opened.now.version
        (AreSelected selection (order_cmp opened.now.order) opened.now.version level) settings.now
        folder.old folder.new result }
    ensures other { IsOkOnlyIfCurrent (F.tells folder.old) opened.now.manifest result }
    ensures device { ReportsDevice F.Folder folder.old folder.new result }
{
    match opened.order {
        Order::Bytewise => {
            compact_lawful::<Bytewise, F, W, R>(workers, folder, opened, parts, settings)
        }
        Order::Shortlex => {
            compact_lawful::<Shortlex, F, W, R>(workers, folder, opened, parts, settings)
        }
    }
}

/// The same by a comparator, whose name has fewer than 2^32 bytes.
fn compact_lawful<
    C: SharedComparator + 'static,
    F: ReadsTables + WritesTables,
    W: Watch + Sync,
    R: Threads + Sync,
>(
    workers: &Workers<'_, R, W>,
    folder: &mut F,
    opened: &SyncedVersion,
    parts: &[Inputs],
    settings: &Settings<'_>,
) -> Result<CompactionStep, Fault>
    requires name { length C.name_bytes < 2 ^ 32 }
    requires chosen { AreSelectedParts C.cmp opened.now.version (map picked_in parts.now) }
    ensures answer { (selection : Selection) (level : ℕ) (files : Files) (order : Order)
        (loaded : List (ℕ × List ℕ)) (tables : List NumberedContents) →
        AreSelected selection C.cmp opened.now.version level (Ok (map picked_in parts.now)) →
        Tells (F.tells folder.old) files →
        files (codes "CURRENT") ≡ Some (current_text opened.now.manifest) →
        ReadsAs C.cmp order opened.now.version loaded files →
        IsLawfulTables C.cmp opened.now.version loaded (Ok tables) →
        FolderAnswers step_in (F.failed folder.old) (F.failed folder.new) result
        (IsWholeCompacted C.cmp C.short_keys files opened.now.version
        (AreSelected selection C.cmp opened.now.version level) settings.now) }
    ensures left { (selection : Selection) (level : ℕ) (files : Files) (order : Order)
        (loaded : List (ℕ × List ℕ)) (tables : List NumberedContents) →
        AreSelected selection C.cmp opened.now.version level (Ok (map picked_in parts.now)) →
        Tells (F.tells folder.old) files →
        files (codes "CURRENT") ≡ Some (current_text opened.now.manifest) →
        order_name order ≡ C.name_bytes →
        ReadsAs C.cmp order opened.now.version loaded files →
        IsLawfulTables C.cmp opened.now.version loaded (Ok tables) →
        IsLevelLeft selection (order_by order C.cmp C.short_keys)
        (version_with opened.now.version loaded) level settings.now
        (change_of F.Folder folder.old folder.new) result }
    ensures runs { (selection : Selection) (level : ℕ) →
        AreSelected selection C.cmp opened.now.version level (Ok (map picked_in parts.now)) →
        IsWholeRun F.Folder C.name_bytes C.cmp C.short_keys opened.now.version
        (AreSelected selection C.cmp opened.now.version level) settings.now folder.old folder.new
        result }
    ensures other { IsOkOnlyIfCurrent (F.tells folder.old) opened.now.manifest result }
    ensures device { ReportsDevice F.Folder folder.old folder.new result }
{
    table_reads_back::<C>();
    passed_law::<C>();
    small_logs(&opened.version);
    version_is_state::<C>(workers.alloc(), &opened.version);
    compact_parts::<C, F, W, R>(workers, folder, opened, parts, settings)
}

/// Compacts `parts` of the version that a folder was `opened` as, and installs the outcome.
fn compact_parts<
    C: SharedComparator + 'static,
    F: ReadsTables + WritesTables,
    W: Watch + Sync,
    R: Threads + Sync,
>(
    workers: &Workers<'_, R, W>,
    folder: &mut F,
    opened: &SyncedVersion,
    parts: &[Inputs],
    settings: &Settings<'_>,
) -> Result<CompactionStep, Fault>
    requires name { length C.name_bytes < 2 ^ 32 }
    requires chosen { AreSelectedParts C.cmp opened.now.version (map picked_in parts.now) }
    ensures end { IsPartsEnd F.Folder C.name_bytes C.cmp C.short_keys opened.now.version
        opened.now.manifest (map picked_in parts.now) settings.now folder.old folder.new result }
    ensures device { ReportsDevice F.Folder folder.old folder.new result }
{
    let written = write_parts::<C, F, W, R>(workers, folder, &opened.version, parts, settings)?;
    let tables = WrittenTables {
        outputs: written.outputs,
        edits: written.edits,
    };
    name_edits::<C, F>(workers.alloc(), folder, opened, tables)
}

/// The log numbers of a version are below 2^64. A call does nothing.
fn small_logs(version: &Version)
    ensures { (unwrap_or version.now.log_number 0 < 2 ^ 64)
        × (unwrap_or version.now.previous_log 0 < 2 ^ 64) }
{
    let _log = version.log_number().unwrap_or(0);
    let _previous = version.previous_log().unwrap_or(0);
}
