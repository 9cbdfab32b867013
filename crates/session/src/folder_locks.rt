//! The locks of a folder that a command holds until it ends.

use crate::explanations::{NO_FOLDER, Words};
use crate::folder_files::{names_at, path_in};
use crate::refusal::{Refusal, RefusalText, said, told, told_of_file};
use crate::reporter::Telling;
use coding::{Fault, FaultName};
use disk::{FolderLock, SystemFiles, lock_to_change, lock_to_read};
use folder::CURRENT;
use install::pending_current;
use std::alloc::Global;
use std::fs::OpenOptions;
use std::io::ErrorKind;
use std::os::unix::fs::MetadataExt;
use std::rt::Files;
use std::{fs, io};

/// The call that failed if a folder can't be locked.
const LOCKING: &str = "make or lock its file LOCK";

/// What a command needs of a folder.
#[derive(Clone, Copy, PartialEq, Eq)]
pub enum Access {
    /// It is read, and nobody is kept out.
    None,
    /// It is read, while none of this program changes it.
    Read,
    /// The same, and the answer lists its logs.
    List,
    /// It is changed, while nobody else uses it.
    Change,
}

/// Locks the folder at a path as a command needs it. None if there is no lock to take.
pub fn locked<R: SystemFiles + Eprint + AllocGlobal>(
    rt: &R,
    telling: Telling<'_>,
    access: Access,
) -> Result<Option<FolderLock>, Refusal> {
    match access {
        Access::None => Ok(None),
        Access::Read | Access::List => locked_to_read(rt, telling),
        Access::Change => Ok(Some(locked_to_change(rt, telling)?)),
    }
}

/// Locks the folder at a path against every other program that reads or changes it. If it has no
/// CURRENT, its logs are told of. Changed if it has a text of CURRENT that isn't renamed yet: what
/// it names would be lost.
fn locked_to_change<R: SystemFiles + Eprint + AllocGlobal>(
    rt: &R,
    telling: Telling<'_>,
) -> Result<FolderLock, Refusal> {
    let path = telling.folder;
    let lock = match lock_to_change(rt, rt.alloc(), path) {
        Ok(lock) => lock,
        Err(fault) => {
            if fault.name == FaultName::Missing {
                telling.tell_unopened_logs(rt);
            }
            return Err(unlocked(rt, path, fault, true));
        }
    };
    match pending_in(rt, path) {
        Ok(None) => Ok(lock),
        Ok(Some(pending)) => Err(pending_refusal(rt.alloc(), pending.as_str())),
        Err(error) => Err(Refusal::of_listing(rt.alloc(), path, &error)),
    }
}

/// Locks the folder at a path against every program that changes it. None if it has no lock to
/// take, or if locks are ignored. If it has a text of CURRENT that isn't renamed yet, that is told.
fn locked_to_read<R: SystemFiles + Eprint + AllocGlobal>(
    rt: &R,
    telling: Telling<'_>,
) -> Result<Option<FolderLock>, Refusal> {
    let path = telling.folder;
    let lock = if telling.ignores_lock {
        None
    } else {
        lock_to_read(rt, rt.alloc(), path).map_err(|fault| unlocked(rt, path, fault, false))?
    };
    if !telling.is_quiet
        && let Ok(Some(pending)) = pending_in(rt, path)
    {
        let _ = eprintln!(rt;
            "sedvokt: {pending}: a program was about to rename it to CURRENT; what is told is of \
                CURRENT"
        );
    }
    Ok(lock)
}

/// The path of a folder's text of CURRENT that isn't renamed yet. None if it has none.
fn pending_in<R: Files + AllocGlobal>(rt: &R, folder: &str) -> io::Result<Option<String>> {
    let names = names_at(rt, folder)?;
    match pending_current(&names) {
        Some(name) => Ok(Some(path_in(rt.alloc(), folder, name)?)),
        None => Ok(None),
    }
}

/// The refusal of a folder that has a text of CURRENT that isn't renamed yet.
fn pending_refusal(alloc: Global, pending: &str) -> Refusal {
    let wrong = "a program was about to rename it to CURRENT, and what it names would be lost";
    let remedy = "open the database once with the program that wrote it";
    let told = said(alloc, pending, wrong, remedy);
    Refusal::new(Fault::of(FaultName::Changed), told)
}

/// The refusal of a folder that can't be locked, to change it or to read it.
fn unlocked<R: SystemFiles + AllocGlobal>(
    rt: &R,
    path: &str,
    fault: Fault,
    changes: bool,
) -> Refusal {
    match fault.name {
        FaultName::Device => device_refusal(rt, path, fault, changes),
        FaultName::Locked => Refusal::new(fault, shared_refusal(rt, path)),
        FaultName::Missing => Refusal::new(fault, no_database(rt, path)),
        _ => Refusal::from(fault),
    }
}

/// What is told of a folder whose LOCK has a second name. None if it has none.
fn shared_refusal<R: SystemFiles + AllocGlobal>(rt: &R, path: &str) -> Option<RefusalText> {
    let lock = path_in(rt.alloc(), path, "LOCK").ok()?;
    let found = fs::metadata(rt, lock.as_str()).ok()?;
    if found.nlink() < 2 {
        return None;
    }
    let wrong = "it has a second name, as in a copy by links, so another folder has the same lock";
    let remedy = "if no program has this database open, remove this file";
    said(rt.alloc(), lock.as_str(), wrong, remedy)
}

/// The refusal of a folder that can't be locked since the device failed.
fn device_refusal<R: SystemFiles + AllocGlobal>(
    rt: &R,
    path: &str,
    fault: Fault,
    changes: bool,
) -> Refusal {
    match fs::metadata(rt, path) {
        Err(error) if error.kind() == ErrorKind::NotFound => {
            Refusal::new(fault, told(rt.alloc(), path, NO_FOLDER))
        }
        Err(error) => Refusal::of_call(rt.alloc(), path, "read", &error),
        Ok(metadata) if metadata.is_dir() => file_refused(rt, path, fault, changes),
        Ok(_) => {
            let remedy = "give the folder of a database; dump and verify --table take a table";
            Refusal::new(fault, said(rt.alloc(), path, "it is no folder", remedy))
        }
    }
}

/// The refusal of a folder whose CURRENT can't be looked for, or whose LOCK can't be locked, in the
/// system's words if it has some.
fn file_refused<R: SystemFiles + AllocGlobal>(
    rt: &R,
    path: &str,
    fault: Fault,
    changes: bool,
) -> Refusal {
    if let Ok(current) = path_in(rt.alloc(), path, CURRENT)
        && let Err(error) = fs::metadata(rt, current.as_str())
        && error.kind() != ErrorKind::NotFound
    {
        return Refusal::of_call(rt.alloc(), path, "read CURRENT", &error);
    }
    match lock_tried(rt, path, changes) {
        Err(error) if error.kind() != ErrorKind::AlreadyExists => {
            Refusal::of_call(rt.alloc(), path, LOCKING, &error)
        }
        _ => {
            let text = format!(in rt.alloc(); "cannot {LOCKING}");
            Refusal::new(fault, RefusalText::of(rt.alloc(), path, text, None))
        }
    }
}

/// Opens LOCK, if it is there. If the folder is to be changed, a file beside it is made, as the
/// lock needs it, and removed.
fn lock_tried<R: SystemFiles + AllocGlobal>(rt: &R, folder: &str, changes: bool) -> io::Result<()> {
    let lock = path_in(rt.alloc(), folder, "LOCK")?;
    let mut how = OpenOptions::new();
    how.read(true).write(true);
    if let Err(error) = how.open(rt, lock.as_str())
        && error.kind() != ErrorKind::NotFound
    {
        return Err(error);
    }
    if !changes {
        return Ok(());
    }
    let beside = path_in(rt.alloc(), folder, "LOCK-wal")?;
    how.create_new(true).open(rt, beside.as_str())?;
    fs::remove_file(rt, beside.as_str())
}

/// What is told of a folder without a CURRENT.
pub fn no_database<R: SystemFiles + AllocGlobal>(rt: &R, folder: &str) -> Option<RefusalText> {
    let alloc = rt.alloc();
    match has_manifest(rt, folder) {
        Ok(true) => {
            let wrong = "it is missing, and the folder has a manifest: the database is damaged";
            let remedy = "restore the folder from a copy, or have LevelDB repair it";
            told_of_file(alloc, folder, CURRENT, Words { wrong, remedy })
        }
        Err(error) if error.kind() == ErrorKind::NotFound => told(alloc, folder, NO_FOLDER),
        _ => {
            let wrong = "this folder holds no LevelDB database: it has no CURRENT";
            said(alloc, folder, wrong, "give the folder of a database")
        }
    }
}

/// Whether a folder has a file with the name of a manifest.
fn has_manifest<R: SystemFiles + AllocGlobal>(rt: &R, folder: &str) -> io::Result<bool> {
    let names = names_at(rt, folder)?;
    Ok(names.iter().any(|name| name.starts_with("MANIFEST-")))
}
