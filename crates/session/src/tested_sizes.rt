//! The sizes of a folder's files: those of a version's tables before any is read, and what is told
//! of a file that is too large to be read.

ghost use Rattle.folder.specs.Reports.{OnlyReads};

use crate::explanations::{Words, of_file};
use crate::folder_files::path_in;
use crate::opened_folder::refused_opened;
use crate::refusal::{Refusal, told_of_file};
use coding::{Fault, FaultName};
use disk::{Disk, SystemFiles};
use edit::FileMeta;
use folder::{CURRENT, Folder, Opened, old_table_name, table_name};
use std::alloc::Global;
use std::fs;
use std::rt::Files;

/// Tests whether each table of a version is there and has at most 2^30 bytes. Missing if one is
/// missing; else Size if one is too large. None is read.
pub fn sizes_tested<R: SystemFiles + AllocGlobal>(
    rt: &R,
    path: &str,
    opened: &Opened,
) -> Result<(), Refusal> {
    match large_table(rt, path, opened)? {
        Some(number) => Err(size_refusal(rt, path, number)),
        None => Ok(()),
    }
}

/// The number of the first table of a version that has more than 2^30 bytes. Missing if one is
/// missing. None is read.
pub fn large_table<R: SystemFiles + AllocGlobal>(
    rt: &R,
    path: &str,
    opened: &Opened,
) -> Result<Option<u64>, Refusal> {
    let mut folder = Disk::new(rt, path);
    let found = folder.large_table(opened.order, &opened.version);
    found.map_err(|fault| refused_opened(rt, path, &folder, Some(opened.manifest), fault))
}

/// The refusal of the table of a number, which has more than 2^30 bytes.
pub fn size_refusal<R: Files + AllocGlobal>(rt: &R, path: &str, number: u64) -> Refusal {
    match name_there(rt, path, number) {
        Some(name) => too_large(rt.alloc(), path, name.as_str()),
        None => Refusal::from(Fault::of(FaultName::Size)),
    }
}

/// The name that the table of a number has in a folder, however long it is: its older one, if the
/// first isn't there.
fn name_there<R: Files + AllocGlobal>(rt: &R, folder: &str, number: u64) -> Option<String> {
    let name = table_name(rt.alloc(), number).ok()?;
    let path = path_in(rt.alloc(), folder, name.as_str()).ok()?;
    if fs::metadata(rt, path.as_str()).is_ok() {
        return Some(name);
    }
    old_table_name(rt.alloc(), number).ok()
}

/// The name that the table of a number has in the folder: its older one, if that alone is there.
pub fn table_file_name<F: Folder>(
    alloc: Global,
    folder: &mut F,
    number: u64,
) -> Result<String, Fault>
    ensures reads { OnlyReads F.Folder folder.old folder.new }
{
    let name = table_name(alloc, number)?;
    if folder.read_part(name.as_str(), 0, 1)?.is_some() {
        return Ok(name);
    }
    let old_name = old_table_name(alloc, number)?;
    match folder.read_part(old_name.as_str(), 0, 1)? {
        Some(_) => Ok(old_name),
        None => Ok(name),
    }
}

/// How many bytes the tables of these files have together, 2^64 - 1 if they have more.
pub fn bytes_of_files(files: &[&FileMeta]) -> u64 {
    let mut bytes = 0u64;
    for file in files {
        bytes = bytes.saturating_add(file.size);
    }
    bytes
}

/// The refusal of a folder's file of this name, which isn't read since it has more than 2^30 bytes:
/// of a table as Size, and of CURRENT as Apply, since no manifest's name is that long. No test
/// refuses any other file for its length, so not to read it is Device.
pub(crate) fn too_large(alloc: Global, folder: &str, name: &str) -> Refusal {
    let (fault, wrong, remedy) = if name.ends_with(".ldb") || name.ends_with(".sst") {
        let Words { wrong, remedy } = of_file(FaultName::Size);
        (FaultName::Size, wrong, remedy)
    } else if name == CURRENT {
        (
            FaultName::Apply,
            "it has more than 1073741824 bytes: the database is damaged",
            "restore the folder from a copy",
        )
    } else if name.starts_with("MANIFEST-") {
        (
            FaultName::Device,
            "it has more than 1073741824 bytes, the most that is read of a manifest",
            "open the database once with LevelDB, which writes the manifest anew",
        )
    } else {
        (
            FaultName::Device,
            "it has more than 1073741824 bytes, the most that is read of a file",
            "restore the file from a copy",
        )
    };
    let told = told_of_file(alloc, folder, name, Words { wrong, remedy });
    Refusal::new(Fault::of(fault), told)
}
