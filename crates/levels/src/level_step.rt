//! A step of the compaction of all levels of a folder.

ghost use Rattle.std.specs.Prelude.{◌≡◌, ℕ, List, codes, Some, Ok};
ghost use Rattle.checks.specs.LawfulTables.{IsLawfulTables};
ghost use Rattle.folder.specs.Calls.{Files, Tells};
ghost use Rattle.folder.specs.Names.{current_text};
ghost use Rattle.folder.specs.Orders.{order_cmp};
ghost use Rattle.folder.specs.ReadsAs.{ReadsAs};
ghost use Rattle.folder.specs.Reports.{ReportsDevice};
ghost use Rattle.install.specs.FolderChange.{call_of};
ghost use Rattle.install.specs.Install.{version_with};
ghost use Rattle.keep.specs.Tables.{NumberedContents};
ghost use Rattle.levels.specs.LevelMade.{at_by, way_by};
ghost use Rattle.levels.specs.LevelTaken.{IsLevelBegun, IsLevelTaken};

use crate::level_compaction::compact_selected;
use crate::selection::Descent;
use board::Watch;
use checks::Workers;
use edit::Fault;
use folder::{ReadsTables, WritesTables};
use std::thread::Threads;
use store::{InstallWatch, SyncedVersion, tell_step};

/// Compacts a `level` of what a folder was `opened` as, and tells of it. What the folder is opened
/// as after it, if it is to go on.
pub(crate) fn take_level<
    F: ReadsTables + WritesTables,
    T: InstallWatch,
    W: Watch + Sync,
    R: Threads + Sync,
>(
    workers: &Workers<'_, R, W>,
    folder: &mut F,
    opened: &SyncedVersion,
    level: u64,
    descent: &Descent<'_>,
    told: &mut T,
) -> Result<Option<SyncedVersion>, Fault>
    ensures left { (bottom : ℕ) (files : Files) (loaded : List (ℕ × List ℕ))
        (tables : List NumberedContents) → Tells (F.tells folder.old) files →
        files (codes "CURRENT") ≡ Some (current_text opened.now.manifest) →
        ReadsAs (order_cmp opened.now.order) opened.now.order opened.now.version loaded files →
        IsLawfulTables (order_cmp opened.now.order) opened.now.version loaded (Ok tables) →
        IsLevelTaken (way_by descent.now.selection opened.now.order descent.now.settings bottom)
        (version_with opened.now.version loaded) level (call_of F.Folder folder.old folder.new)
        result }
    ensures runs { (bottom : ℕ) → IsLevelBegun F.Folder T.tells
        (way_by descent.now.selection opened.now.order descent.now.settings bottom)
        opened.now.version level (at_by folder.old told.old) (at_by folder.new told.new) result }
    ensures device { ReportsDevice F.Folder folder.old folder.new result }
{
    let selection = descent.selection;
    let step = compact_selected(workers, folder, opened, level, selection, &descent.settings)?;
    tell_step(workers.alloc(), opened, level, &step, told)
}
