//! Names tables that were written: by one manifest, whose edit is all of theirs as one.

ghost use Rattle.std.specs.Prelude.{◌<◌, ◌^◌, length};
ghost use Rattle.folder.specs.Reports.{ReportsDevice};
ghost use Rattle.store.specs.NamedEdits.{IsNaming};

use crate::compaction_step::CompactionStep;
use crate::folder_request::manifest_of;
use crate::ready_manifest::ready_manifest;
use crate::synced_version::{SyncMark, SyncedVersion};
use folder::{Comparator, Fault, Folder};
use install::install_manifest;
use std::alloc::Global;

/// Tables that were written, which no version names yet.
#[derive(Drop)]
pub struct WrittenTables {
    /// The number and the length of each, in order.
    pub outputs: Vec<(u64, u64)>,
    /// The bytes of the edits that name them, one after the other.
    pub edits: Vec<u8>,
}

/// Installs what was `written` since a folder was `opened`, by one manifest. Its number is the
/// version's next file. Its edit is that as which the edits read together.
///
/// The first that applies: EditTag or EditField, if they read as none; Changed, as
/// [`compact_opened`](crate::compact_opened) has it. If the device fails a call, the answer is
/// Device; if memory runs out, it is Memory. The comparator's name has fewer than 2^32 bytes.
pub fn name_edits<C: Comparator, F: Folder>(
    alloc: Global,
    folder: &mut F,
    opened: &SyncedVersion,
    written: WrittenTables,
) -> Result<CompactionStep, Fault>
    requires { length C.name_bytes < 2 ^ 32 }
    ensures named { IsNaming F.Folder C.name_bytes C.cmp opened.now.version opened.now.manifest
        written folder.old folder.new result }
    ensures device { ReportsDevice F.Folder folder.old folder.new result }
{
    let number = manifest_of(&opened.version);
    let ready = ready_manifest::<C>(alloc, &opened.version, &written.edits)?;
    install_manifest(alloc, folder, opened.manifest, number, &ready.bytes)?;
    Ok(CompactionStep {
        outputs: written.outputs,
        deleted: ready.deleted,
        manifest: number,
        edit: ready.edit,
        mark: SyncMark,
    })
}
