//! What a folder is opened as after a compaction, without reading it.

ghost use Rattle.folder.specs.Answers.{EqualOrMemory, HoldsOrMemory};
ghost use Rattle.folder.specs.Edit.{HasValidLevels, edit_in};
ghost use Rattle.folder.specs.Version.{applied_by};
ghost use Rattle.folder.specs.Manifest.{order_name};
ghost use Rattle.store.specs.OpenedAfter.{IsOpenedAfter};

use crate::compaction_step::CompactionStep;
use crate::folder_request::manifest_of;
use crate::synced_version::{SyncMark, SyncedVersion};
use folder::{Bytewise, Fault, Order, Shortlex, Version, VersionEdit};
use std::alloc::Global;

/// What a folder is opened as after a `step`, a compaction of what it was `opened` as. That is its
/// order, the version after the step's edit, and the manifest whose number was the version's next
/// file. It reads nothing.
///
/// Refused as the edit is: EditTag or EditField if its bytes are invalid, Comparator or Apply if it
/// doesn't fit. The edit of a compaction of a lawful version is never refused. The only other fault
/// is Memory. An installation that ended in Ok has synced what it left.
pub fn opened_after(
    alloc: Global,
    opened: &SyncedVersion,
    step: &CompactionStep,
) -> Result<SyncedVersion, Fault>
    ensures { HoldsOrMemory (λ o. (o.order, o.version, o.manifest)) result
        (IsOpenedAfter opened.now.order opened.now.version step.now.edit.items) }
{
    let edit = VersionEdit::decode(alloc, &step.edit)?;
    let version = edited(alloc, opened.order, &opened.version, &edit)?;
    Ok(SyncedVersion {
        order: opened.order,
        version,
        manifest: manifest_of(&opened.version),
        mark: SyncMark,
    })
}

/// The version after an edit, by the comparator of an order.
fn edited(
    alloc: Global,
    order: Order,
    version: &Version,
    edit: &VersionEdit,
) -> Result<Version, Fault>
    requires { HasValidLevels (edit_in edit.now) }
    ensures { EqualOrMemory (λ v. v) result
        (applied_by (order_name order) version.now (edit_in edit.now)) }
{
    match order {
        Order::Bytewise => version.apply::<Bytewise>(alloc, edit),
        Order::Shortlex => version.apply::<Shortlex>(alloc, edit),
    }
}
