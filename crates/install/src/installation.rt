//! Installing the outcome of a compaction.

ghost use Rattle.std.specs.Prelude.{◌≡◌, ◌∷◌, [], ◌<◌, ◌^◌, length};
ghost use Rattle.folder.specs.Manifest.{order_name};
ghost use Rattle.folder.specs.Orders.{order_cmp};
ghost use Rattle.install.specs.GroupedInstallation.{IsGroupedInstallation, asked_of};
ghost use Rattle.install.specs.Install.{tables_in};
ghost use Rattle.install.specs.Installation.{IsInstallation, place_with};
ghost use Rattle.install.specs.Naming.{IsNamedEdit, manifest_of};
ghost use Rattle.install.specs.ReadsOf.{NamedVersion};

use crate::install_steps::{install_manifest, write_group};
use crate::manifest::manifest_bytes;
use edit::{Comparator, Fault, Outcome, Version};
use folder::Folder;
use std::alloc::Global;
use std::thread::Threads;

/// Makes the edited version the folder's version: writes the outcome's tables as one group, a
/// manifest of this `manifest_number`, and CURRENT.
///
/// `opened` is the number of the manifest that CURRENT named when `version` was opened. CURRENT is
/// read again just before it is replaced. If it holds anything else by then, or isn't there, the
/// answer is `Changed` and no further call is made; what was written by then stays.
///
/// The other faults are `Device` and `Memory`. After one of them the folder reads as the version
/// before or as the edited one, and has to be opened again. If the device fails a call, no further
/// call is made. The comparator's name has fewer than 2^32 bytes.
pub fn install<C: Comparator, F: Folder, R: Threads + Sync>(
    rt: &R,
    alloc: Global,
    folder: &mut F,
    opened: u64,
    version: &Version,
    manifest_number: u64,
    outcome: &Outcome,
) -> Result<(), Fault>
    requires { length C.name_bytes < 2 ^ 32 }
    ensures grouped { IsGroupedInstallation F.Folder (asked_of C.name_bytes C.cmp version.now opened
        manifest_number (tables_in outcome.now.tables.items ∷ []) outcome.now.edit.items) folder.old
        folder.new result }
    // If the manifest's number is the version's next file, these are two pieces of work: the tables
    // are written, and then the edited version is named.
    ensures work { (v next : NamedVersion) → order_name v.order ≡ C.name_bytes
        → order_cmp v.order ≡ C.cmp → v.version ≡ version.now
        → manifest_number ≡ manifest_of version.now
        → IsNamedEdit v (tables_in outcome.now.tables.items) outcome.now.edit.items next
        → IsInstallation F.Folder (place_with v (tables_in outcome.now.tables.items)
        outcome.now.edit.items next) (tables_in outcome.now.tables.items ∷ []) folder.old folder.new
        result }
{
    let manifest = manifest_bytes::<C>(alloc, version, &outcome.edit)?;
    write_group(rt, folder, &outcome.tables)?;
    install_manifest(alloc, folder, opened, manifest_number, &manifest)
}
