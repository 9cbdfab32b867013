//! What a folder of the system leaves of files that are there.

use crate::folder_disk_tests::{has, make_folder, makes, new_path, remove_folder};
use crate::folder_opening_tests::{THREE_FILES, version_of};
use disk::Disk;
use folder::*;
use std::alloc::Global;
use std::fs;
use std::fs::Permissions;
use std::os::unix::fs::{MetadataExt, PermissionsExt, symlink};
use std::process::Abort;
use std::rt::Files;

/// The path of a file in a folder of the system.
pub(crate) fn path_of(rt: &impl Abort, alloc: Global, folder: &str, name: &str) -> String {
    format!(in alloc; "{folder}/{name}").expect(rt, "memory")
}

pub(crate) fn remove_file(rt: &(impl Files + Abort), path: &str) {
    fs::remove_file(rt, path).expect(rt, "a file that is removed");
}

/// Puts a folder in the place of a file.
fn replace(rt: &(impl Files + Abort), path: &str) {
    remove_file(rt, path);
    make_folder(rt, path);
}

/// Gives the file 1 a second name, 2, and makes the link 3 to that.
fn make_links(rt: &(impl Files + Abort), alloc: Global, path: &str) {
    let one = path_of(rt, alloc, path, "1");
    let two = path_of(rt, alloc, path, "2");
    let three = path_of(rt, alloc, path, "3");
    fs::hard_link(rt, one.as_str(), two.as_str()).expect(rt, "a second name");
    symlink(rt, "2", three.as_str()).expect(rt, "a link");
}

/// Whether files that are made anew leave the one of another name, and take the place of a link.
fn are_anew(disk: &mut impl Folder) -> bool {
    makes(disk, &[("1", b"other"), ("3", b"third")])
        && has(disk, "1", Some(b"other"))
        && has(disk, "2", Some(b"one"))
        && has(disk, "3", Some(b"third"))
}

#[test]
fn files_are_made_anew(rt: HostRuntime) {
    let path = new_path(&rt, "anew").expect(&rt, "a path");
    let one = path_of(&rt, rt.alloc(), path.as_str(), "1");
    make_folder(&rt, path.as_str());
    let mut disk = Disk::new(&rt, path.as_str());
    assert!(rt; makes(&mut disk, &[("1", b"one")]));
    make_links(&rt, rt.alloc(), path.as_str());
    assert!(rt; are_anew(&mut disk));
    // Each is synced by its handle, whatever has its name by then.
    replace(&rt, one.as_str());
    assert!(rt; disk.sync("1").is_ok() && disk.sync("1").is_err());
    remove_folder(&rt, path.as_str());
}

/// Gives a file these permissions.
fn set_mode(rt: &(impl Files + Abort), path: &str, mode: u32) {
    fs::set_permissions(rt, path, Permissions::from_mode(mode)).expect(rt, "other permissions");
}

/// The permissions of a file.
fn mode_of(rt: &(impl Files + Abort), path: &str) -> u32 {
    fs::metadata(rt, path).expect(rt, "a file").mode() & 0o7777
}

/// Whether new files have the permissions of CURRENT.
#[test]
fn files_are_as_open_as_current(rt: HostRuntime) {
    let path = new_path(&rt, "modes").expect(&rt, "a path");
    let current = path_of(&rt, rt.alloc(), path.as_str(), "CURRENT");
    let one = path_of(&rt, rt.alloc(), path.as_str(), "1");
    make_folder(&rt, path.as_str());
    let mut disk = Disk::new(&rt, path.as_str());
    for mode in [0o600, 0o666, 0o440, 0o751] {
        assert!(rt; makes(&mut disk, &[("CURRENT", b"of the tests")]));
        set_mode(&rt, current.as_str(), mode);
        assert!(rt; makes(&mut disk, &[("1", b"one")]));
        assert!(rt; mode_of(&rt, one.as_str()) == mode | 0o600, "{mode}");
    }
    remove_folder(&rt, path.as_str());
}

/// The tables of the version of three files.
pub(crate) const TABLES: &[(&str, &[u8])] = &[
    ("000008.ldb", b"eight"),
    ("000005.ldb", b"five"),
    ("000003.sst", b"three"),
];

/// Whether each of these names is synced, or refused if it isn't to be.
fn are_synced(disk: &mut impl Folder, names: &[&str], is_synced: bool) -> bool {
    for name in names {
        if disk.sync(name).is_ok() != is_synced {
            return false;
        }
    }
    true
}

/// Two files of a folder that are not looked into.
const EMPTY: &[(&str, &[u8])] = &[("CURRENT", b""), ("MANIFEST-000006", b"")];

/// The files that a version is opened by, and two of its tables.
const AHEAD: &[&str] = &["CURRENT", "MANIFEST-000006", "000008.ldb", "000003.sst"];

/// Puts folders in the place of these files.
fn replace_all(rt: &(impl Files + Abort), alloc: Global, path: &str) {
    for name in AHEAD {
        replace(rt, path_of(rt, alloc, path, name).as_str());
    }
}

/// Whether no call is made for files that were synced ahead, and what isn't a regular file is
/// refused once another file was made.
fn is_ahead(disk: &mut impl Folder) -> bool {
    are_synced(disk, AHEAD, true)
        && are_synced(disk, &["000003.ldb", "000005.ldb", "000005.sst"], true)
        && disk.create("1", b"one").is_ok()
        && are_synced(disk, AHEAD, false)
}

#[test]
fn files_are_synced_ahead(rt: HostRuntime) {
    let path = new_path(&rt, "synced").expect(&rt, "a path");
    let version = version_of(&rt, rt.alloc(), THREE_FILES);
    make_folder(&rt, path.as_str());
    assert!(rt; makes(&mut Disk::new(&rt, path.as_str()), TABLES));
    assert!(rt; makes(&mut Disk::new(&rt, path.as_str()), EMPTY));
    let mut disk = Disk::new(&rt, path.as_str());
    disk.sync_ahead(Order::Bytewise, &version, 6);
    replace_all(&rt, rt.alloc(), path.as_str());
    assert!(rt; is_ahead(&mut disk));
    remove_folder(&rt, path.as_str());
}

/// Whether a file is removed with what was kept of it, and a missing one is no failure.
#[test]
fn files_are_removed(rt: HostRuntime) {
    let path = new_path(&rt, "removed").expect(&rt, "a path");
    let five = path_of(&rt, rt.alloc(), path.as_str(), "000005.ldb");
    make_folder(&rt, path.as_str());
    let mut disk = Disk::new(&rt, path.as_str());
    assert!(rt; makes(&mut disk, TABLES));
    assert!(rt; disk.remove("000005.ldb").is_ok() && disk.remove("000005.ldb").is_ok());
    assert!(rt; has(&mut disk, "000005.ldb", None));
    assert!(rt; has(&mut disk, "000008.ldb", Some(b"eight")) && disk.failures() == 0);
    // What has its name by then isn't synced by the handle of the file that was removed.
    make_folder(&rt, five.as_str());
    assert!(rt; disk.sync("000005.ldb").is_err());
    remove_folder(&rt, path.as_str());
}
