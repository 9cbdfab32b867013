//! What is told of the refusal of a command on a folder.

use crate::manifest_refusal::manifest_refusal;
use crate::settings_refusal::settings_refusal;
use crate::unlawful_version::unlawful_refusal;
use crate::words::missing_file;
use coding::FaultName;
use compact::Settings;
use disk::Disk;
use folder::{CURRENT, Folder};
use session::{
    Host, Refusal, RefusalText, Telling, is_there, no_database, of_file, said, table_file_name,
    told_of_file,
};
use std::alloc::Global;

/// The refusal of a command on a folder, with what is told of it: the file that is refused. The
/// name is told before, on the standard error.
///
/// The file is known, and is read again alone, if it is a manifest. Only of an unlawful version are
/// all tables read again. Nothing is read after Locked, Changed, Device and Memory, nor if it is
/// known already what is told, or nothing is.
pub fn explained<R: Host>(rt: &R, telling: Telling<'_>, refusal: Refusal) -> Refusal {
    if refusal.is_silent || refusal.told.is_some() || is_of_no_file(refusal.fault.name) {
        return refusal;
    }
    let mut refusal = refusal;
    refusal.tell_name(rt);
    let told = file_told(rt, telling, &refusal);
    refusal.telling(told)
}

/// The same of a compaction: a refusal of what was asked for is told without reading. The `level`
/// is None if all were asked for.
pub fn compaction_explained<R: Host>(
    rt: &R,
    telling: Telling<'_>,
    level: Option<u64>,
    settings: &Settings<'_>,
    refusal: Refusal,
) -> Refusal {
    if refusal.told.is_some() {
        return refusal;
    }
    let name = refusal.fault.name;
    match settings_refusal(rt.alloc(), telling.folder, level, settings, name) {
        None => explained(rt, telling, refusal),
        told => refusal.telling(told),
    }
}

/// The refusal of work for which some tables of the folder at a path are read. Which one it is
/// about isn't looked for, since that takes all of them.
pub fn table_explained(alloc: Global, folder: &str, refusal: Refusal) -> Refusal {
    if refusal.told.is_some() || is_of_no_file(refusal.fault.name) {
        return refusal;
    }
    let wrong = of_file(refusal.fault.name).wrong;
    let wrong = format!(in alloc; "of a table, {wrong}");
    let told = RefusalText::new(alloc, folder, wrong, "verify tells of which");
    Refusal::new(refusal.fault, told)
}

/// Whether a refusal of this name is about no file that can be found.
pub fn is_of_no_file(name: FaultName) -> bool {
    matches!(
        name,
        FaultName::Locked | FaultName::Changed | FaultName::Device | FaultName::Memory
    )
}

/// What is told of the file that is refused. None if it isn't known, or if it is no file.
fn file_told<R: Host>(rt: &R, telling: Telling<'_>, refusal: &Refusal) -> Option<RefusalText> {
    let (alloc, folder) = (rt.alloc(), telling.folder);
    let name = refusal.fault.name;
    let mut disk = Disk::new(rt, folder);
    match name {
        FaultName::Lawless | FaultName::Bounds => unlawful_refusal(rt, telling, name),
        FaultName::Missing => missing_told(rt, folder, refusal.file.as_ref()?.as_str()),
        FaultName::LogShape
        | FaultName::LogChecksum
        | FaultName::EditTag
        | FaultName::EditField
        | FaultName::Comparator
        | FaultName::Apply => {
            let file = refusal.file.as_ref()?.as_str();
            manifest_refusal(alloc, &mut disk, folder, file, name).ok()?
        }
        _ => {
            let number = telling.refused.number()?;
            let file = table_file_name(alloc, &mut disk, number).ok()?;
            told_of_file(alloc, folder, file.as_str(), of_file(name))
        }
    }
}

/// What is told of the folder's file of this name, which was missing. If it is there by now, that
/// is told.
fn missing_told<R: Host>(rt: &R, folder: &str, file: &str) -> Option<RefusalText> {
    let alloc = rt.alloc();
    let newer = match file.strip_suffix(".sst") {
        Some(stem) => format!(in alloc; "{stem}.ldb").ok()?,
        None => String::from_str(alloc, file).ok()?,
    };
    let is_found = matches!(is_there(rt, folder, file), Ok(true))
        || matches!(is_there(rt, folder, newer.as_str()), Ok(true));
    if is_found || file.starts_with("MANIFEST-") && !is_named(rt, folder, file) {
        let wrong = "a file was missing, and none is by now: another program has changed the \
            database meanwhile";
        return said(alloc, folder, wrong, "run it again");
    }
    if file == CURRENT {
        return no_database(rt, folder);
    }
    missing_file(alloc, folder, newer.as_str())
}

/// Whether CURRENT still names the manifest of this name.
fn is_named<R: Host>(rt: &R, folder: &str, manifest: &str) -> bool {
    match Disk::new(rt, folder).read(CURRENT) {
        Ok(Some(bytes)) => bytes.strip_suffix(b"\n") == Some(manifest.as_bytes()),
        _ => false,
    }
}
