//! The removal of files that a version doesn't need.
//!
//! `compact_levels` of `levels` has it done after each installation, on the same folder value. Why
//! that changes nothing for the steps:
//!
//! 1. At Ok an installation leaves a folder that stands for the edited version by its manifest: the
//!    premise of the removal. After that it is true too, and it is the premise of the next step
//!    ([`work_survives`](crate::work_survives)).
//! 2. The next step reads CURRENT and tables of its version, none of which was removed, and makes
//!    files of numbers from next file on. What it had read ahead before, it drops when it makes its
//!    first file.

ghost use Rattle.std.specs.Prelude.{◌≡◌, ◌⊎◌, [], ◌∷◌, ℕ, List, map, Err, IfErr, string_bytes};
ghost use Rattle.edit.specs.Answers.{UnlessMemory, fault};
ghost use Rattle.edit.specs.fault.FaultName.TheVariants.{Memory};
ghost use Rattle.folder.specs.Calls.{Removed};
ghost use Rattle.folder.specs.Folder.{failures_after};
ghost use Rattle.folder.specs.OpenAnswer.{IsStopped};
ghost use Rattle.folder.specs.Orders.{order_cmp};
ghost use Rattle.folder.specs.Reports.{ReportsDevice};
ghost use Rattle.install.specs.Removal.{AreRemoved, IsToldRemoval, StaysAs};
ghost use Rattle.install.specs.Removal.{removal_calls};
ghost use Rattle.install.specs.FolderChange.{IsUntouched, change_of};
ghost use Rattle.install.specs.ObsoleteFile.{AreObsolete};

use crate::obsolete_files::obsolete_names;
use crate::removal_watch::RemovalWatch;
use edit::Fault;
use folder::{Folder, FolderFault, Opened};
use std::alloc::Global;

/// Removes those of these `names` of files that are obsolete for the version that a folder was
/// `opened` as, in their order, and then syncs the folder. If none is obsolete, no call is made.
/// `watch` is told of each file when it is removed.
///
/// The folder has to stand for the version: call `sync_version` of `store` before. Else a rename of
/// CURRENT that isn't durable may be undone by a crash, and CURRENT names an older manifest, whose
/// tables are gone by then.
///
/// The faults are Device and Memory. If the device fails a call, no further call is made. Whatever
/// the answer is, the folder reads as the version that it read as.
pub fn remove_obsolete<F: Folder, W: RemovalWatch>(
    alloc: Global,
    folder: &mut F,
    opened: &Opened,
    names: &[String],
    watch: &mut W,
) -> Result<(), Fault>
    // Nothing was done since memory ran out; or the obsolete ones were removed, up to a call that
    // failed, and then the folder was synced.
    ensures left { (IsUntouched (change_of F.Folder folder.old folder.new) watch.old watch.new
        × (result ≡ Err (fault Memory)))
        ⊎ AreRemoved W.tells (AreObsolete (order_cmp opened.now.order) opened.now.version
        opened.now.manifest (map string_bytes names.now)) (change_of F.Folder folder.old folder.new)
        watch.old watch.new result }
    // If the folder stands for the version by this manifest, a crash at any moment leaves it. In
    // that case the folder also stands for it after the call, be the answer Ok or not.
    ensures stays { (tables : List (ℕ × List ℕ)) → StaysAs (order_cmp opened.now.order)
        opened.now.order opened.now.version opened.now.manifest tables
        (change_of F.Folder folder.old folder.new) }
    // Only Device and Memory are answered, Device only if the device failed.
    ensures refused { IfErr result
        (λ e. UnlessMemory e (IsStopped (F.failed folder.old) (F.failed folder.new) e)) }
    ensures device { ReportsDevice F.Folder folder.old folder.new result }
{
    let obsolete = obsolete_names(alloc, opened, names)?;
    Ok(remove_all(folder, &obsolete, watch)?)
}

/// Removes the files of these `names`, and syncs the folder if there are any.
fn remove_all<F: Folder, W: RemovalWatch>(
    folder: &mut F,
    names: &[&str],
    watch: &mut W,
) -> Result<(), FolderFault>
    ensures run { IsToldRemoval W.tells (removal_calls (map (λ name. name.now) names.now))
        (change_of F.Folder folder.old folder.new) watch.old watch.new result }
    ensures failures { F.failed folder.new ≡ failures_after (F.failed folder.old) result }
{
    remove_each(folder, names, watch)?;
    if names.is_empty() {
        return Ok(());
    }
    folder.sync_folder()
}

/// Removes the files of these `names`.
fn remove_each<F: Folder, W: RemovalWatch>(
    folder: &mut F,
    names: &[&str],
    watch: &mut W,
) -> Result<(), FolderFault>
    ensures run { IsToldRemoval W.tells (map Removed (map (λ name. name.now) names.now))
        (change_of F.Folder folder.old folder.new) watch.old watch.new result }
    ensures failures { F.failed folder.new ≡ failures_after (F.failed folder.old) result }
{
    for name in names {
        remove_one(folder, name, watch)?;
    }
    Ok(())
}

/// Removes the file of this `name`, and tells of it.
fn remove_one<F: Folder, W: RemovalWatch>(
    folder: &mut F,
    name: &str,
    watch: &mut W,
) -> Result<(), FolderFault>
    ensures run { IsToldRemoval W.tells (Removed name.now ∷ [])
        (change_of F.Folder folder.old folder.new) watch.old watch.new result }
    ensures failures { F.failed folder.new ≡ failures_after (F.failed folder.old) result }
{
    folder.remove(name)?;
    watch.removed(name);
    Ok(())
}
