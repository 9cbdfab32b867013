//! The removal of files that a version doesn't need, after a compaction of it was installed.

ghost use Rattle.std.specs.Prelude.{◌≡◌, ℕ, List, IfErr, IfOk};
ghost use Rattle.std.specs.Option.{IfSome};
ghost use Rattle.folder.specs.Answers.{UnlessMemory};
ghost use Rattle.folder.specs.OpenAnswer.{IsStopped};
ghost use Rattle.folder.specs.Orders.{order_cmp};
ghost use Rattle.folder.specs.Reports.{ReportsDevice};
ghost use Rattle.install.specs.FolderChange.{change_of};
ghost use Rattle.install.specs.Removal.{StaysAs};
ghost use Rattle.store.specs.Cleaning.{IsCleaned, named_version, teller_by};
ghost use Rattle.store.specs.Telling.{IsGoTold};

use crate::clean_watch::CleanWatch;
use crate::synced_version::SyncedVersion;
use folder::{Fault, Folder};
use install::remove_obsolete;
use std::alloc::Global;

/// Asks for names of files of a folder that was `opened` as a version, and removes those that the
/// version doesn't need. What the folder is opened as after it, if it is to go on.
pub fn clean<F: Folder, T: CleanWatch>(
    alloc: Global,
    folder: &mut F,
    opened: SyncedVersion,
    told: &mut T,
) -> Result<Option<SyncedVersion>, Fault>
    ensures runs { IsCleaned (teller_by T.InstallWatch.tells T.lists T.RemovalWatch.tells T.ends)
        (named_version opened.order opened.version opened.manifest)
        (change_of F.Folder folder.old folder.new) told.old told.new IsGoTold result }
    ensures stays { (tables : List (ℕ × List ℕ)) → StaysAs (order_cmp opened.order) opened.order
        opened.version opened.manifest tables (change_of F.Folder folder.old folder.new) }
    ensures reopened { IfOk result (λ o. IfSome o (λ next. (next.order ≡ opened.order)
        × (next.version ≡ opened.version) × (next.manifest ≡ opened.manifest))) }
    ensures refused { IfErr result
        (λ e. UnlessMemory e (IsStopped (F.failed folder.old) (F.failed folder.new) e)) }
    ensures device { ReportsDevice F.Folder folder.old folder.new result }
{
    let opened = opened.into_opened();
    let Some(names) = told.names(&opened) else {
        return Ok(None);
    };
    remove_obsolete(alloc, folder, &opened, &names, told)?;
    if told.cleaned(&opened) {
        return Ok(Some(SyncedVersion::of_synced(opened)));
    }
    Ok(None)
}
