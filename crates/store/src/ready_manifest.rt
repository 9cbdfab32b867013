//! A manifest of written tables, before it is installed.

ghost use Rattle.std.specs.Prelude.{◌<◌, ◌^◌, length, IfErr, IfOk};
ghost use Rattle.folder.specs.Answers.{UnlessMemory};
ghost use Rattle.folder.specs.Edit.{IsEditRefused};
ghost use Rattle.store.specs.ManifestReady.{IsManifestReady};

use compact::DeletedFile;
use folder::{Comparator, Fault, Version, VersionEdit};
use install::manifest_bytes;
use std::alloc::Global;
use std::collections::BTreeSet;

/// A manifest that has all edits as one.
#[derive(Drop)]
pub(crate) struct ReadyManifest {
    /// The files that its edit deletes, by level and number.
    pub deleted: BTreeSet<DeletedFile>,
    /// The bytes of its edit.
    pub edit: Vec<u8>,
    /// The bytes of the manifest.
    pub bytes: Vec<u8>,
}

/// The manifest that has the edit as which `edits` read. The comparator's name has fewer than 2^32
/// bytes.
pub(crate) fn ready_manifest<C: Comparator>(
    alloc: Global,
    version: &Version,
    edits: &[u8],
) -> Result<ReadyManifest, Fault>
    requires { length C.name_bytes < 2 ^ 32 }
    ensures ready { IfOk result (IsManifestReady C.name_bytes C.cmp version.now edits.now) }
    ensures refused { IfErr result (λ e. UnlessMemory e (IsEditRefused edits.now e)) }
{
    let edit = VersionEdit::decode(alloc, edits)?;
    let bytes = edit.encode(alloc)?;
    let manifest = manifest_bytes::<C>(alloc, version, &bytes)?;
    Ok(ReadyManifest {
        deleted: edit.deleted,
        edit: bytes,
        bytes: manifest,
    })
}
