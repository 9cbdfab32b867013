//! The folder that gets the outcome of a compaction.

use disk::{Disk, OwnedFiles, SystemFiles};
use folder::{Fault, FaultName};
use install::Outcome;
use session::{Refusal, refused_at, said, sync_folder_of};
use std::fs::{File, OpenOptions, TryLockError};
use std::io::ErrorKind;
use std::rt::Files;
use std::thread::Threads;
use std::{fs, io};
use store::write_outcome;

/// What is at the path of such a folder.
#[derive(Clone, Copy, PartialEq, Eq)]
pub enum OutState {
    /// Nothing.
    Absent,
    /// A folder without a file.
    Empty,
    /// A folder with a file, or something else.
    Taken,
}

/// What is at a path.
pub fn state_of<R: Files + AllocGlobal>(rt: &R, out: &str) -> Result<OutState, Refusal> {
    state_at(rt, out).map_err(|error| Refusal::of_listing(rt.alloc(), out, &error))
}

/// The same with the system's errors.
fn state_at<R: Files + AllocGlobal>(rt: &R, out: &str) -> io::Result<OutState> {
    match fs::metadata(rt, out) {
        Ok(metadata) if metadata.is_dir() => match fs::read_dir(&rt, out)?.next() {
            Some(Ok(_)) => Ok(OutState::Taken),
            Some(Err(error)) => Err(error),
            None => Ok(OutState::Empty),
        },
        Ok(_) => Ok(OutState::Taken),
        Err(error) if error.kind() == ErrorKind::NotFound => Ok(OutState::Absent),
        Err(error) => Err(error),
    }
}

/// Writes an outcome into such a folder, which is made if nothing is there. Changed if something is
/// in it by now, or another sedvokt writes into it. Its files belong to whom the CURRENT of the
/// `database` belongs.
pub(crate) fn fill<R: SystemFiles + AllocGlobal + Threads + Sync>(
    rt: &R,
    out: &str,
    database: &str,
    outcome: &Outcome,
) -> Result<(), Refusal> {
    let is_new = is_made(rt, out)?;
    let _claim = claimed(rt, out)?;
    let mut folder = Disk::owned_as(rt, out, database);
    let written = write_outcome(rt, &mut folder, outcome);
    written.map_err(|fault| refused_at(rt, out, &folder, fault))?;
    if is_new && let Err(error) = sync_folder_of(rt, out.trim_end_matches('/')) {
        return Err(Refusal::of_call(rt.alloc(), out, "sync its folder", &error));
    }
    Ok(())
}

/// Makes a folder at a path, if nothing is there. The answer is whether it was made.
fn is_made<R: Files + AllocGlobal>(rt: &R, out: &str) -> Result<bool, Refusal> {
    if state_of(rt, out)? != OutState::Absent {
        return Ok(false);
    }
    match fs::create_dir(rt, out) {
        Ok(()) => Ok(true),
        // Another sedvokt has made it.
        Err(_) if state_of(rt, out)? != OutState::Absent => Ok(false),
        Err(error) => Err(Refusal::of_call(rt.alloc(), out, "make the folder", &error)),
    }
}

/// The folder at a path, locked until it is dropped against all others that write an outcome into
/// it, if the system has such locks. Changed if another has it, or if it has a file.
fn claimed<R: SystemFiles + AllocGlobal>(rt: &R, out: &str) -> Result<File, Refusal> {
    let mut how = OpenOptions::new();
    how.read(true);
    let folder = match rt.open_own(&how, out) {
        Ok(folder) => folder,
        Err(error) => return Err(Refusal::of_call(rt.alloc(), out, "open it", &error)),
    };
    let is_held = matches!(folder.try_lock(), Err(TryLockError::WouldBlock));
    if is_held || state_of(rt, out)? != OutState::Empty {
        let wrong = "it was empty, and another program writes into it by now";
        let told = said(rt.alloc(), out, wrong, "give another folder");
        return Err(Refusal::new(Fault::of(FaultName::Changed), told));
    }
    Ok(folder)
}
