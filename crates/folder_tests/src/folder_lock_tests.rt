//! The lock of a folder of the system.

use crate::folder_disk_tests::{makes, new_path};
use coding::{Fault, FaultName};
use disk::{Disk, lock_to_change, lock_to_read};
use std::fs;
use std::process::Abort;

/// Whether a lock was refused by this name.
fn is_refused<T: Drop>(answer: Result<T, Fault>, name: FaultName) -> bool {
    match answer {
        Ok(_) => false,
        Err(fault) => fault.name == name,
    }
}

/// Whether a folder can't be locked, whatever for, since another lock is held.
fn is_changed(rt: &HostRuntime, path: &str) -> bool {
    is_refused(lock_to_change(rt, rt.alloc(), path), FaultName::Locked)
        && is_refused(lock_to_read(rt, rt.alloc(), path), FaultName::Locked)
}

/// Whether nobody changes a folder that is read, and nothing is made in it for that.
fn is_kept(rt: &HostRuntime, path: &str, lock: &str) -> bool {
    match lock_to_read(rt, rt.alloc(), path) {
        Ok(Some(_lock)) => {
            is_refused(lock_to_change(rt, rt.alloc(), path), FaultName::Locked)
                && fs::metadata(rt, lock).is_err()
        }
        _ => false,
    }
}

/// Whether a folder without LOCK gets it for a lock that others can't share.
fn is_made(rt: &HostRuntime, path: &str, lock: &str) -> bool {
    match lock_to_change(rt, rt.alloc(), path) {
        Ok(_lock) => is_changed(rt, path) && fs::metadata(rt, lock).is_ok(),
        Err(_) => false,
    }
}

/// Whether two share a folder after that lock was dropped, and nobody changes it.
fn is_shared(rt: &HostRuntime, path: &str) -> bool {
    match (
        lock_to_read(rt, rt.alloc(), path),
        lock_to_read(rt, rt.alloc(), path),
    ) {
        (Ok(Some(_one)), Ok(Some(_other))) => {
            is_refused(lock_to_change(rt, rt.alloc(), path), FaultName::Locked)
        }
        _ => false,
    }
}

/// Whether a folder can be locked neither to be changed nor to be read, since LOCK is no file.
fn is_none(rt: &HostRuntime, path: &str) -> bool {
    is_refused(lock_to_change(rt, rt.alloc(), path), FaultName::Device)
        && is_refused(lock_to_read(rt, rt.alloc(), path), FaultName::Device)
}

/// Whether a folder that isn't there, or has no CURRENT, is Missing if it is to be changed.
fn is_missing(rt: &HostRuntime, path: &str) -> bool {
    is_refused(lock_to_change(rt, rt.alloc(), path), FaultName::Missing)
}

/// Whether a folder can't be locked to be changed while LOCK has a second name.
fn is_alone(rt: &HostRuntime, path: &str, lock: &str, other: &str) -> bool {
    fs::hard_link(rt, lock, other).is_ok()
        && is_refused(lock_to_change(rt, rt.alloc(), path), FaultName::Locked)
        && matches!(lock_to_read(rt, rt.alloc(), path), Ok(Some(_)))
        && fs::remove_file(rt, other).is_ok()
}

/// Whether all of that holds in a folder that is made for it, and is removed then.
fn is_right(rt: &HostRuntime, path: &str, lock: &str, other: &str) -> bool {
    fs::create_dir(rt, path).is_ok()
        && is_missing(rt, path)
        && fs::metadata(rt, lock).is_err()
        && makes(&mut Disk::new(rt, path), &[("CURRENT", b"of the tests")])
        && is_kept(rt, path, lock)
        && is_made(rt, path, lock)
        && is_shared(rt, path)
        && is_alone(rt, path, lock, other)
        && lock_to_change(rt, rt.alloc(), path).is_ok()
        && fs::remove_file(rt, lock).is_ok()
        && fs::create_dir(rt, lock).is_ok()
        && is_none(rt, path)
        && fs::remove_dir_all(rt, path).is_ok()
        && is_missing(rt, path)
        && matches!(lock_to_read(rt, rt.alloc(), path), Ok(None))
}

#[test]
fn a_folder_is_locked(rt: HostRuntime) {
    let path = new_path(&rt, "locked").expect(&rt, "a path");
    let lock = new_path(&rt, "locked/LOCK").expect(&rt, "a path");
    let other = new_path(&rt, "locked/other").expect(&rt, "a path");
    assert!(rt; is_right(&rt, path.as_str(), lock.as_str(), other.as_str()));
}
