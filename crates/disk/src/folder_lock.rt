//! The lock of a folder.
//!
//! LevelDB locks the whole of the folder's file LOCK by `fcntl`; other programs that use its
//! databases do by `flock`. A [`FolderLock`] is
//!
//! 1. a lock by `flock` on the folder itself, which this program alone asks for. Those who read
//!    share it, and it needs no file;
//! 2. if the folder is changed: the lock that the kit's `sqlite_std_file` takes by `fcntl`, on
//!    bytes of LOCK, and one by `flock` on LOCK. They are in the way of other programs' locks, and
//!    those in theirs.
//!
//! Those who read write nothing, so they have no lock of the second kind: it needs a file beside
//! LOCK. They look whether another program has one, in the system's list of locks. To read that
//! list takes 6 to 22 ms on a quiet machine, and who changes the folder doesn't need it.

use crate::file_access::{access_in, new_file};
use crate::listed_locks::listed_locks;
use crate::system_files::{ByteLock, SystemFiles, opened, regular};
use crate::whole_files::path_in;
use folder::CURRENT;
use ikey::{Fault, FaultName};
use std::alloc::Global;
use std::fs::{File, Metadata, OpenOptions, TryLockError};
use std::io::ErrorKind;
use std::os::unix::fs::MetadataExt;
use std::{fs, io};

/// The file whose lock stands for the folder.
const LOCK: &str = "LOCK";

/// What `sqlite_std_file` makes beside LOCK. It is removed again, unless it holds something.
const BESIDE: &str = "LOCK-wal";

/// The lock of a folder. It is held until this is dropped, or the program ends.
#[derive(Drop)]
pub struct FolderLock {
    /// The folder, with its lock until it is closed. None if the system has no locks of folders.
    _folder: Option<File>,
    /// LOCK, with the lock by `flock`. None if it isn't asked for, or if the one on bytes is in its
    /// way.
    _lock: Option<File>,
    /// The lock on bytes of LOCK.
    _bytes: Option<ByteLock>,
}

/// Locks the folder at `path` against every other program that reads or changes it as LevelDB does,
/// and against every other lock of this program.
///
/// LOCK is made if it isn't there, as the folder's other new files are. It does not wait.
///
/// - Missing: the folder isn't there, or has no CURRENT. Nothing is made.
/// - Locked: another holds a lock, or LOCK has a second name, so that it is another folder's too.
/// - Device: LOCK can't be made, opened or locked, or is no regular file.
/// - Memory: out of memory.
pub fn lock_to_change<R: SystemFiles>(
    rt: &R,
    alloc: Global,
    path: &str,
) -> Result<FolderLock, Fault> {
    let current = path_in(alloc, path, CURRENT)?;
    match fs::metadata(rt, current.as_str()) {
        Err(error) if error.kind() == ErrorKind::NotFound => Err(Fault::of(FaultName::Missing)),
        Err(error) => Err(fault_of(error)),
        Ok(_) => locked_to_change(rt, alloc, path).map_err(fault_of),
    }
}

/// Locks the folder at `path` against every other program that changes it by this one. It does not
/// wait, and writes nothing.
///
/// None if there is no such folder, if it may not be read, or if the system has no locks for it:
/// then nothing keeps others out. Another program that asks for LOCK is not kept out. That it has
/// LOCK isn't seen if the system doesn't list it: if it runs on another machine, or in a container
/// of its own.
///
/// - Locked: another holds the lock of [`lock_to_change`], or has the database open.
/// - Device: LOCK is no regular file, or can't be looked for.
/// - Memory: out of memory.
pub fn lock_to_read<R: SystemFiles>(
    rt: &R,
    alloc: Global,
    path: &str,
) -> Result<Option<FolderLock>, Fault> {
    match locked_to_read(rt, alloc, path) {
        Ok(lock) => Ok(lock),
        Err(error) if is_without_locks(error.kind()) => Ok(None),
        Err(error) => Err(fault_of(error)),
    }
}

fn locked_to_change<R: SystemFiles>(rt: &R, alloc: Global, folder: &str) -> io::Result<FolderLock> {
    let own = folder_opened(rt, folder)?;
    let is_held = is_taken(own.try_lock())?;
    let path = path_in(alloc, folder, LOCK)?;
    let lock = lock_opened(rt, alloc, folder, path.as_str())?;
    if lock.metadata()?.nlink() != 1 {
        return Err(ErrorKind::WouldBlock.into());
    }
    let bytes = bytes_locked(rt, alloc, folder, path.as_str())?;
    let is_whole = is_whole_locked(rt, alloc, &own, &lock)?;
    Ok(FolderLock {
        _folder: is_held.then_some(own),
        _lock: is_whole.then_some(lock),
        _bytes: Some(bytes),
    })
}

/// None if the system has no locks of folders, and nobody has LOCK.
fn locked_to_read<R: SystemFiles>(
    rt: &R,
    alloc: Global,
    folder: &str,
) -> io::Result<Option<FolderLock>> {
    let own = folder_opened(rt, folder)?;
    let is_held = is_taken(own.try_lock_shared())?;
    let path = path_in(alloc, folder, LOCK)?;
    match regular(rt, path.as_str()) {
        Err(error) if error.kind() == ErrorKind::NotFound => {}
        Err(error) => return Err(error),
        Ok(lock) => test_readable(rt, alloc, &own, &lock)?,
    }
    if !is_held {
        return Ok(None);
    }
    Ok(Some(FolderLock {
        _folder: Some(own),
        _lock: None,
        _bytes: None,
    }))
}

/// The folder at a path, open for reading. What is no folder isn't opened: that may block.
fn folder_opened<R: SystemFiles>(rt: &R, folder: &str) -> io::Result<File> {
    if !fs::metadata(rt, folder)?.is_dir() {
        return Err(ErrorKind::NotADirectory.into());
    }
    let mut how = OpenOptions::new();
    how.read(true);
    opened(rt, &how, folder)
}

/// Whether a lock by `flock` was taken. WouldBlock if another has it. Not taken is one that the
/// system doesn't have.
fn is_taken(answer: Result<(), TryLockError>) -> io::Result<bool> {
    match answer {
        Ok(()) => Ok(true),
        Err(TryLockError::WouldBlock) => Err(ErrorKind::WouldBlock.into()),
        Err(TryLockError::Error(_)) => Ok(false),
    }
}

/// LOCK, open for reading and writing. It is made if it isn't there.
fn lock_opened<R: SystemFiles>(
    rt: &R,
    alloc: Global,
    folder: &str,
    path: &str,
) -> io::Result<File> {
    match regular(rt, path) {
        Err(error) if error.kind() == ErrorKind::NotFound => {
            match new_file(rt, path, access_in(rt, alloc, folder)?) {
                Err(error) if error.kind() == ErrorKind::AlreadyExists => {
                    opened(rt, &to_write(), path)
                }
                answer => answer,
            }
        }
        Err(error) => Err(error),
        Ok(_) => opened(rt, &to_write(), path),
    }
}

/// WouldBlock if another program has a lock on LOCK that can't be shared. If the system doesn't
/// list its locks, nothing is known.
fn test_readable<R: SystemFiles>(
    rt: &R,
    alloc: Global,
    folder: &File,
    lock: &Metadata,
) -> io::Result<()> {
    let is_free = match listed_locks(rt, alloc, &folder.metadata()?, lock) {
        Ok(locks) => locks.iter().all(|held| held.is_shared),
        Err(error) if error.kind() == ErrorKind::OutOfMemory => return Err(error),
        Err(_) => true,
    };
    if is_free {
        Ok(())
    } else {
        Err(ErrorKind::WouldBlock.into())
    }
}

/// Takes the lock on bytes of LOCK. WouldBlock if another program is in the way. What is made
/// beside LOCK for that is removed again.
fn bytes_locked<R: SystemFiles>(
    rt: &R,
    alloc: Global,
    folder: &str,
    path: &str,
) -> io::Result<ByteLock> {
    let beside = path_in(alloc, folder, BESIDE)?;
    let is_kept = match fs::symlink_metadata(rt, beside.as_str()) {
        Ok(found) => !found.is_file() || found.len() > 0,
        Err(_) => false,
    };
    let bytes = rt.lock_bytes(path);
    if !is_kept {
        let _ = fs::remove_file(rt, beside.as_str());
    }
    bytes
}

/// Whether LOCK is locked by `flock` too. WouldBlock if another program has that lock. Where a file
/// system makes both kinds of locks one, the lock on bytes is in the way, and suffices.
fn is_whole_locked<R: SystemFiles>(
    rt: &R,
    alloc: Global,
    folder: &File,
    lock: &File,
) -> io::Result<bool> {
    match is_taken(lock.try_lock()) {
        Err(error) if error.kind() == ErrorKind::WouldBlock => {
            let locks = listed_locks(rt, alloc, &folder.metadata()?, &lock.metadata()?)?;
            if locks.iter().any(|held| held.is_whole) {
                return Err(error);
            }
            Ok(false)
        }
        answer => answer,
    }
}

/// How LOCK is opened for a lock that others can't share.
fn to_write() -> OpenOptions {
    let mut how = OpenOptions::new();
    how.read(true).write(true);
    how
}

/// Whether there is no lock to take: no folder, none that may be read, or a system without locks.
fn is_without_locks(kind: ErrorKind) -> bool {
    matches!(
        kind,
        ErrorKind::NotFound | ErrorKind::PermissionDenied | ErrorKind::Unsupported
    )
}

/// The fault of an error of the system.
fn fault_of(error: io::Error) -> Fault {
    Fault::of(match error.kind() {
        ErrorKind::WouldBlock => FaultName::Locked,
        ErrorKind::OutOfMemory => FaultName::Memory,
        _ => FaultName::Device,
    })
}
