//! What a folder of the system tells of calls that it refuses.

use crate::folder_disk_tests::{make_folder, makes, new_path, remove_folder};
use crate::folder_opening_tests::{THREE_FILES, version_of};
use crate::folder_system_tests::{TABLES, path_of, remove_file};
use coding::FaultName;
use disk::Disk;
use edit::Version;
use folder::*;
use std::alloc::Global;
use std::fs::{OpenFile, OpenOptions};
use std::process::Abort;
use std::rt::Files;

/// Whether the newest call that failed prints as this line.
pub(crate) fn is_told(
    rt: &impl Abort,
    alloc: Global,
    disk: &Disk<'_, HostRuntime>,
    line: &str,
) -> bool {
    let failure = disk.last_failure().expect(rt, "a failure");
    format!(in alloc; "{failure}").expect(rt, "memory").as_str() == line
}

/// Whether the newest call that failed was to read a file that is too large.
fn is_too_large(disk: &Disk<'_, HostRuntime>) -> bool {
    match disk.last_failure() {
        Some(failure) => failure.is_too_large(),
        None => false,
    }
}

/// A call that the system refuses.
#[derive(Clone, Copy)]
enum Refused {
    Create,
    Rename,
    SyncFolder,
    Read,
    Sync,
    Remove,
}

/// Calls on a missing folder, and what is told of them.
const OF_NO_FOLDER: &[(Refused, &str)] = &[
    (
        Refused::Create,
        "cannot create 1: No such file or directory",
    ),
    (
        Refused::Rename,
        "cannot rename 2: No such file or directory",
    ),
    (
        Refused::SyncFolder,
        "cannot sync the folder: No such file or directory",
    ),
];

/// Calls on the folder itself, which is no file.
const OF_NO_FILE: &[(Refused, &str)] = &[
    (Refused::Read, "cannot read .: not a regular file"),
    (Refused::Sync, "cannot sync .: not a regular file"),
    (Refused::Remove, "cannot remove .: Is a directory"),
];

/// Whether a call is refused.
fn is_refused(disk: &mut Disk<'_, HostRuntime>, call: Refused) -> bool {
    match call {
        Refused::Create => disk.create("1", b"one").is_err(),
        Refused::Rename => disk.rename("2", "1").is_err(),
        Refused::SyncFolder => disk.sync_folder().is_err(),
        Refused::Read => disk.read(".").is_err(),
        Refused::Sync => disk.sync(".").is_err(),
        Refused::Remove => disk.remove(".").is_err(),
    }
}

/// Whether these calls are refused and told.
fn are_told(
    rt: &impl Abort,
    alloc: Global,
    disk: &mut Disk<'_, HostRuntime>,
    calls: &[(Refused, &str)],
) -> bool {
    for (call, line) in calls {
        if !is_refused(disk, *call) || !is_told(rt, alloc, disk, line) {
            return false;
        }
    }
    true
}

#[test]
fn failures_are_told(rt: HostRuntime) {
    let path = new_path(&rt, "told").expect(&rt, "a path");
    let mut disk = Disk::new(&rt, path.as_str());
    assert!(rt; disk.last_failure().is_none());
    assert!(rt; are_told(&rt, rt.alloc(), &mut disk, OF_NO_FOLDER));
    make_folder(&rt, path.as_str());
    assert!(rt; are_told(&rt, rt.alloc(), &mut disk, OF_NO_FILE) && disk.sync_folder().is_ok());
    remove_folder(&rt, path.as_str());
}

/// Gives a file this length.
fn set_len(rt: &(impl Files + Abort), path: &str, len: u64) {
    let file = OpenOptions::new()
        .write(true)
        .open(rt, path)
        .expect(rt, "a file that is there");
    file.set_len(len).expect(rt, "another length");
}

/// Whether the first table of a version that is too large is answered so, or the fault's name.
fn has_large(
    disk: &mut Disk<'_, HostRuntime>,
    version: &Version,
    wanted: Result<Option<u64>, FaultName>,
) -> bool {
    match disk.large_table(Order::Bytewise, version) {
        Ok(large) => wanted == Ok(large),
        Err(fault) => wanted == Err(fault.name),
    }
}

/// Whether a table is too large to be read, and a folder is refused for something else.
fn is_large(rt: &impl Abort, alloc: Global, disk: &mut Disk<'_, HostRuntime>) -> bool {
    disk.read("000003.sst").is_err()
        && is_told(rt, alloc, disk, "cannot read 000003.sst: file too large")
        && is_too_large(disk)
        && disk.read(".").is_err()
        && !is_too_large(disk)
}

/// Whether tables of 2^30 bytes are not too large, and one byte more is too much.
fn are_limited(
    rt: &(impl Files + Abort),
    alloc: Global,
    disk: &mut Disk<'_, HostRuntime>,
    version: &Version,
    three: &str,
) -> bool {
    set_len(rt, three, 1 << 30);
    let is_allowed = has_large(disk, version, Ok(None));
    set_len(rt, three, (1 << 30) + 1);
    is_allowed && has_large(disk, version, Ok(Some(3))) && is_large(rt, alloc, disk)
}

/// Whether a table that is missing is refused so, and one that is no file as too large: loading
/// fails there.
fn are_missed(
    rt: &(impl Files + Abort),
    disk: &mut Disk<'_, HostRuntime>,
    version: &Version,
    five: &str,
) -> bool {
    remove_file(rt, five);
    let is_missing = has_large(disk, version, Err(FaultName::Missing));
    make_folder(rt, five);
    is_missing && has_large(disk, version, Ok(Some(3)))
}

#[test]
fn tables_of_over_2_to_30_bytes_are_too_large(rt: HostRuntime) {
    let path = new_path(&rt, "large").expect(&rt, "a path");
    let three = path_of(&rt, rt.alloc(), path.as_str(), "000003.sst");
    let five = path_of(&rt, rt.alloc(), path.as_str(), "000005.ldb");
    let version = version_of(&rt, rt.alloc(), THREE_FILES);
    make_folder(&rt, path.as_str());
    let mut disk = Disk::new(&rt, path.as_str());
    assert!(rt; makes(&mut disk, TABLES));
    assert!(rt; are_limited(&rt, rt.alloc(), &mut disk, &version, three.as_str()));
    assert!(rt; are_missed(&rt, &mut disk, &version, five.as_str()));
    remove_folder(&rt, path.as_str());
}
