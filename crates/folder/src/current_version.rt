//! Opening a folder.

ghost use Rattle.std.specs.Prelude.{◌≡◌, [], ◌∷◌, ◌++◌, IfOk, Some, codes};
ghost use Rattle.folder.specs.Names.{current_text};
ghost use Rattle.folder.specs.OpenAnswer.{FolderAnswers, IsFileReading, IsOpened, IsVersionRead};
ghost use Rattle.folder.specs.Reports.{OnlyReads, ReportsDevice};

use crate::folder::Folder;
use crate::manifest_version::version_in;
use crate::names::{CURRENT, manifest_name, number_in_current};
use crate::order::Order;
use edit::Version;
use ikey::{Fault, FaultName};
use std::alloc::Global;

/// What a folder is opened as.
#[derive(Drop)]
pub struct Opened {
    /// The order of the user keys.
    pub order: Order,
    /// The version that the manifest gives.
    pub version: Version,
    /// The number of the manifest, which CURRENT names.
    pub manifest: u64,
}

/// The order and the version of a folder: CURRENT names a manifest, whose edits give them. It only
/// reads.
///
/// The first that applies:
///
/// - Missing: there is no CURRENT.
/// - Apply: CURRENT holds anything but a manifest's name and one newline.
/// - Missing: that manifest is missing.
/// - LogShape or LogChecksum: the manifest's bytes are no log.
/// - EditTag or EditField: of the first record that is no edit.
/// - Comparator: no record names one, or the first name is neither order's.
/// - Comparator or Apply: of the first edit that doesn't fit what the earlier ones made.
/// - Apply: log number, next file or last sequence was never set, or the manifest's number isn't
///   below next file.
///
/// A previous log number that was never set stays unset. If the device fails a call, the answer is
/// Device and no further call is made. Memory may come at any point.
pub fn open<F: Folder>(alloc: Global, folder: &mut F) -> Result<Opened, Fault>
    ensures answer { FolderAnswers (λ r. (r.order, r.version)) (F.failed folder.old)
        (F.failed folder.new) result (IsOpened (F.tells folder.old)) }
    // CURRENT names the manifest of this number.
    ensures named { IfOk result
        (λ r. F.tells folder.old (codes "CURRENT") (Some (current_text r.manifest))) }
    // Of any folder, also one that tells nothing: CURRENT was read, then that manifest, and no
    // other file, and the version is what these bytes say.
    ensures read { IfOk result
        (λ r. IsVersionRead F.Folder folder.old folder.new r.order r.version r.manifest) }
    ensures device { ReportsDevice F.Folder folder.old folder.new result }
    ensures reads { OnlyReads F.Folder folder.old folder.new }
{
    let current = bytes_under(folder, CURRENT)?;
    let number = number_in_current(alloc, &current)?;
    let name = manifest_name(alloc, number)?;
    let manifest = bytes_under(folder, name.as_str())?;
    let (order, version) = version_in(alloc, number, &manifest)?;
    Ok(Opened {
        order,
        version,
        manifest: number,
    })
}

/// The bytes of a file. Missing if no file has this `name`.
pub(crate) fn bytes_under<F: Folder>(folder: &mut F, name: &str) -> Result<Vec<u8>, Fault>
    ensures answer { FolderAnswers (λ v. v.items) (F.failed folder.old) (F.failed folder.new) result
        (IsFileReading (F.tells folder.old) name.now) }
    ensures read { IfOk result (λ v. F.readings folder.new
        ≡ F.readings folder.old ++ (F.calls folder.old, name.now, Some v.items) ∷ []) }
    ensures device { ReportsDevice F.Folder folder.old folder.new result }
    ensures reads { OnlyReads F.Folder folder.old folder.new }
{
    match folder.read(name)? {
        Some(bytes) => Ok(bytes),
        None => Err(Fault::of(FaultName::Missing)),
    }
}
