//! The compaction of all levels of a folder, one after the other, with a removal after each of the
//! files that the version doesn't need.
//!
//! All calls are made on one folder value. Why a removal changes nothing for the next step:
//!
//! 1. An installation leaves a folder that stands for the edited version by its manifest: the
//!    premise of the removal. After that it is true too, and it is the premise of the next step.
//! 2. The next step reads CURRENT and tables of its version, none of which was removed, and makes
//!    files of numbers from next file on.

ghost use Rattle.std.specs.Prelude.{◌≡◌, ◌+◌, ◌^◌, ◌≤◌, ℕ, List, codes, Some, Ok};
ghost use Rattle.std.specs.Prelude.{IfErr, IfOk};
ghost use Rattle.edit.specs.Answers.{fault};
ghost use Rattle.edit.specs.fault.FaultName.TheVariants.{Memory};
ghost use Rattle.checks.specs.LawfulTables.{IsLawfulTables};
ghost use Rattle.folder.specs.meta.TheConstants.{LAST_LEVEL};
ghost use Rattle.folder.specs.Calls.{Files, Tells};
ghost use Rattle.folder.specs.Names.{current_text};
ghost use Rattle.folder.specs.OpenAnswer.{FolderAnswers, IsOpened};
ghost use Rattle.folder.specs.Orders.{order_cmp};
ghost use Rattle.folder.specs.ReadsAs.{IsFileIn, ReadsAs};
ghost use Rattle.folder.specs.Reports.{OnlyReads, ReportsDevice};
ghost use Rattle.install.specs.FolderChange.{call_of};
ghost use Rattle.keep.specs.Tables.{NumberedContents};
ghost use Rattle.store.specs.Cleaning.{named_version, teller_by};
ghost use Rattle.store.specs.FolderRequest.{manifest_of};
ghost use Rattle.store.specs.Outcome.{IsTestAnswer};
ghost use Rattle.levels.specs.DescentLeft.{IsAllLevelsLeft, IsDescended, folder_version};
ghost use Rattle.levels.specs.DescentRuns.{IsAllLevelsRun, IsDescentRun};
ghost use Rattle.levels.specs.LevelMade.{at_by, way_by};
ghost use Rattle.levels.specs.LevelTaken.{IsBottomBelow};

use crate::descent_end::DescentEnd;
use crate::level_step::take_level;
use crate::selection::Descent;
use board::Watch;
use checks::{Workers, test_by_order};
use edit::{Fault, FaultName, Version};
use folder::{ReadsTables, WritesTables};
use std::alloc::Global;
use std::thread::Threads;
use store::{CleanWatch, SyncedVersion, bottom, clean, next_level};

/// Compacts the first level of what a folder was `opened` as that has a file, and so on with what
/// that leaves, until all files are at the bottom. The bottom is the deepest level that had a file,
/// or level 1. The version is tested once before, if a test is asked for. If no file is above the
/// bottom, nothing is tested or removed.
///
/// Each compaction is told to `told` when it is installed. Then names of files are asked of it, and
/// those that the version after the step doesn't need are removed. If it gives an empty list, no
/// call is made for that. Nothing is told before the test has passed.
///
/// It is Stopped if `told` says so of a step or of a removal, or gives no list. Without a test its
/// caller knows that the version is lawful.
pub fn compact_levels<
    F: ReadsTables + WritesTables,
    T: CleanWatch,
    W: Watch + Sync,
    R: Threads + Sync,
>(
    workers: &Workers<'_, R, W>,
    folder: &mut F,
    opened: SyncedVersion,
    descent: &Descent<'_>,
    told: &mut T,
) -> Result<DescentEnd, Fault>
    // If the folder tells files that open as this version in this order, and CURRENT is the one
    // that was opened, one of these holds:
    // - the test is refused;
    // - no file is above the bottom;
    // - the version passed the test. If it is lawful, as it is after one, compactions are made,
    //   each with a removal after it.
    ensures left { (files : Files) → Tells (F.tells folder.old) files →
        files (codes "CURRENT") ≡ Some (current_text opened.manifest) →
        IsOpened (IsFileIn files) (Ok (opened.order, opened.version)) →
        IsAllLevelsLeft (way_by descent.now.selection opened.order descent.now.settings)
        descent.now.test (named_version opened.order opened.version opened.manifest) files
        (call_of F.Folder folder.old folder.new) told.old told.new result }
    // Of any folder, also one that tells nothing: the calls are those of such compactions and
    // removals, in turn, each of the version and in the folder that the one before it leaves, up to
    // one that fails. The tables of each are what reads may give after the calls before it,
    // removals too. Each step is told after all its calls, and each file; the next compaction is
    // begun only if that is said after both.
    ensures runs { IsAllLevelsRun F.Folder
        (teller_by T.InstallWatch.tells T.lists T.RemovalWatch.tells T.ends)
        (way_by descent.now.selection opened.order descent.now.settings) opened.version
        (at_by folder.old told.old) (at_by folder.new told.new) result }
    ensures device { ReportsDevice F.Folder folder.old folder.new result }
{
    let alloc = workers.alloc();
    let Some(bottom) = bottom_below(alloc, &opened.version)? else {
        return Ok(DescentEnd::AtBottom);
    };
    test_asked(workers, folder, &opened, descent.test)?;
    let course = Course { descent, bottom };
    descend(workers, folder, opened, &course, told, u64::MAX)
}

/// The bottom of a version; None if no file is above it.
fn bottom_below(alloc: Global, version: &Version) -> Result<Option<u64>, Fault>
    ensures bottom { IfOk result (IsBottomBelow version.now) }
    ensures memory { IfErr result (λ e. e ≡ fault Memory) }
{
    let bottom = bottom(alloc, version)?;
    match next_level(alloc, version, bottom)? {
        Some(_) => Ok(Some(bottom)),
        None => Ok(None),
    }
}

/// Tests the version that a folder was `opened` as, if that is asked for.
fn test_asked<F: ReadsTables, W: Watch + Sync, R: Threads + Sync>(
    workers: &Workers<'_, R, W>,
    folder: &mut F,
    opened: &SyncedVersion,
    test: Option<u64>,
) -> Result<(), Fault>
    ensures answer { (files : Files) → Tells (F.tells folder.old) files →
        FolderAnswers (λ passed. passed) (F.failed folder.old) (F.failed folder.new) result
        (IsTestAnswer test files (order_cmp opened.now.order) opened.now.version) }
    ensures device { ReportsDevice F.Folder folder.old folder.new result }
    ensures reads { OnlyReads F.Folder folder.old folder.new }
{
    let Some(memory) = test else {
        return Ok(());
    };
    test_by_order(workers, folder, opened.order, &opened.version, memory)?;
    Ok(())
}

/// A descent, and the level down to which it goes.
#[derive(Clone, Copy)]
struct Course<'s> {
    descent: &'s Descent<'s>,
    bottom: u64,
}

/// Compacts one level after the other of what a folder was `opened` as, with a removal after each,
/// by at most so many `steps` and one more.
fn descend<F: ReadsTables + WritesTables, T: CleanWatch, W: Watch + Sync, R: Threads + Sync>(
    workers: &Workers<'_, R, W>,
    folder: &mut F,
    opened: SyncedVersion,
    course: &Course<'_>,
    told: &mut T,
    steps: u64,
) -> Result<DescentEnd, Fault>
    requires low { course.now.bottom ≤ LAST_LEVEL }
    // If the folder tells files that read as this version, lawful with its tables, CURRENT is the
    // one that was opened, and there are enough steps.
    ensures left { (files : Files) (loaded : List (ℕ × List ℕ)) (tables : List NumberedContents) →
        Tells (F.tells folder.old) files →
        files (codes "CURRENT") ≡ Some (current_text opened.manifest) →
        ReadsAs (order_cmp opened.order) opened.order opened.version loaded files →
        IsLawfulTables (order_cmp opened.order) opened.version loaded (Ok tables) →
        2 ^ 64 ≤ manifest_of opened.version + steps + 1 →
        IsDescended (way_by course.now.descent.now.selection opened.order
        course.now.descent.now.settings course.now.bottom)
        (folder_version opened.version opened.manifest loaded) tables
        (call_of F.Folder folder.old folder.new) result }
    ensures runs { IsDescentRun F.Folder
        (teller_by T.InstallWatch.tells T.lists T.RemovalWatch.tells T.ends)
        (way_by course.now.descent.now.selection opened.order course.now.descent.now.settings
        course.now.bottom) opened.version (at_by folder.old told.old) (at_by folder.new told.new)
        result }
    ensures device { ReportsDevice F.Folder folder.old folder.new result }
{
    let alloc = workers.alloc();
    let Some(level) = next_level(alloc, &opened.version, course.bottom)? else {
        return Ok(DescentEnd::AtBottom);
    };
    let Some(next) = take_level(workers, folder, &opened, level, course.descent, told)? else {
        return Ok(DescentEnd::Stopped);
    };
    let Some(cleaned) = clean(alloc, folder, next, told)? else {
        return Ok(DescentEnd::Stopped);
    };
    if steps == 0 {
        return Err(Fault::of(FaultName::Numbers));
    }
    descend(workers, folder, cleaned, course, told, steps - 1)
}
