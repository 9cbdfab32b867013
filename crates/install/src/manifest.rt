//! The manifest that an installation writes.

ghost use Rattle.std.specs.Prelude.{◌≡◌, ◌<◌, ◌^◌, length, IfErr, IfOk};
ghost use Rattle.edit.specs.Answers.{fault};
ghost use Rattle.edit.specs.fault.FaultName.TheVariants.{Memory};
ghost use Rattle.edit.specs.Edit.{IsEdit, edit_bytes};
ghost use Rattle.edit.specs.Version.{IsState};
ghost use Rattle.edit.specs.VersionOrder.{snapshot_of};
ghost use Rattle.install.specs.Install.{manifest_bytes};

use edit::{Comparator, Fault, Version};
use std::alloc::Global;

/// The manifest of the edited version. Its log has two records: the snapshot of `version`, and the
/// bytes of `edit`.
///
/// The comparator's name has fewer than 2^32 bytes.
pub fn manifest_bytes<C: Comparator>(
    alloc: Global,
    version: &Version,
    edit: &[u8],
) -> Result<Vec<u8>, Fault>
    requires { length C.name_bytes < 2 ^ 32 }
    ensures bytes { IfOk result (λ v. v.items
        ≡ manifest_bytes C.name_bytes C.cmp version.now edit.now) }
    ensures reads_back { IfOk result (λ _.
        IsEdit (edit_bytes (snapshot_of C.name_bytes C.cmp version.now))
        (snapshot_of C.name_bytes C.cmp version.now)) }
    ensures state { IsState version.now.pointers version.now.files }
    ensures memory { IfErr result (λ e. e ≡ fault Memory) }
{
    let snapshot = version.snapshot_edit::<C>(alloc)?.encode(alloc)?;
    let log = logrec::append(alloc, &[], &snapshot)?;
    logrec::append(alloc, &log, edit)
}
