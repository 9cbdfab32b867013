//! A folder of the system that is written to and read.

use crate::folder_shelf_tests::gives_parts;
use disk::Disk;
use folder::*;
use std::process::Abort;
use std::rt::Files;
use std::{env, fs, io, process};

/// The path of a folder of the system that a test makes.
pub(crate) fn new_path(rt: &HostRuntime, name: &str) -> io::Result<String> {
    let id = process::id(rt.process());
    let base = env::temp_dir(rt)?;
    let base = base.as_str();
    Ok(format!(in rt.alloc(); "{base}/sedvokt-{id}-{name}")?)
}

pub(crate) fn make_folder(rt: &(impl Files + Abort), path: &str) {
    fs::create_dir(rt, path).expect(rt, "a new folder");
}

/// Removes a folder with what is in it.
pub(crate) fn remove_folder(rt: &(impl Files + AllocGlobal + Abort), path: &str) {
    fs::remove_dir_all(rt, path).expect(rt, "a folder that is removed");
}

/// Makes these files. Whether all were made.
pub(crate) fn makes(disk: &mut impl Folder, files: &[(&str, &[u8])]) -> bool {
    for (name, bytes) in files {
        if disk.create(name, bytes).is_err() {
            return false;
        }
    }
    true
}

/// Whether a file has these bytes, or is missing if `wanted` is None.
pub(crate) fn has(disk: &mut impl Folder, name: &str, wanted: Option<&[u8]>) -> bool {
    match disk.read(name) {
        Ok(Some(bytes)) => wanted == Some(bytes.as_slice()),
        Ok(None) => wanted.is_none(),
        Err(_) => false,
    }
}

/// Whether a file is made twice and renamed to CURRENT.
fn is_renamed(disk: &mut impl Folder) -> bool {
    makes(disk, &[("1", b"a longer text"), ("1", b"text")])
        && disk.sync("1").is_ok()
        && disk.rename("1", "CURRENT").is_ok()
        && disk.sync_folder().is_ok()
}

/// Whether that file then has its other name, and only that, and no call failed.
fn gets_its_name(disk: &mut impl Folder) -> bool {
    has(disk, "CURRENT", None)
        && is_renamed(disk)
        && has(disk, "1", None)
        && has(disk, "CURRENT", Some(b"text"))
        && disk.failures() == 0
}

/// Whether the system refuses calls on names without a file, but for a sync, which does nothing.
fn refuses_names(disk: &mut impl Folder) -> bool {
    disk.sync("1").is_ok()
        && disk.rename("1", "2") == Err(FolderFault::Device)
        // A folder is no file.
        && disk.read(".").is_err()
}

/// Whether the system refuses calls on a missing folder, and five calls were refused by then.
fn refuses_all(disk: &mut impl Folder) -> bool {
    disk.sync_folder() == Err(FolderFault::Device)
        && disk.create("1", b"text") == Err(FolderFault::Device)
        && disk.failures() == 5
}

/// Whether all of that holds in a folder of the system that is made for it, and is removed in
/// between.
fn is_right(rt: &HostRuntime, path: &str) -> bool {
    let mut disk = Disk::new(rt, path);
    fs::create_dir(rt, path).is_ok()
        && gets_its_name(&mut disk)
        && refuses_names(&mut disk)
        && makes(&mut disk, &[("parts", b"one")])
        && gives_parts(&mut disk, "parts")
        && disk.read_part(".", 0, 1).is_err()
        && disk.failures() == 3
        && fs::remove_dir_all(rt, path).is_ok()
        && refuses_all(&mut disk)
}

#[test]
fn a_folder_of_the_system(rt: HostRuntime) {
    // No folder has the empty path.
    assert!(rt; has(&mut Disk::new(&rt, ""), "tmp", None));
    let path = new_path(&rt, "made").expect(&rt, "a path");
    assert!(rt; is_right(&rt, path.as_str()));
}
