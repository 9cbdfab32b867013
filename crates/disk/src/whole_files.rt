//! Files of the system, read whole or synced by several threads.

use crate::pending_files::Due;
use crate::system::MAX_FILE_LEN;
use crate::system_files::regular;
use std::alloc::{AllocError, Global};
use std::fs::{File, OpenFile};
use std::io::{ErrorKind, Read};
use std::rt::Files;
use std::thread::Threads;
use std::{io, thread};

/// The most threads that make files or sync them. Why more than processors: they mostly wait for
/// the system.
pub(crate) const THREADS: usize = 16;

/// Files that are read or synced whole, through a handle that threads share.
pub trait WholeFiles: Send + Sync {
    /// The bytes of the file at `path`. The system's error if there is no such file, if it can't be
    /// read, or if memory runs out. Other if it is no regular file, FileTooLarge if it has more
    /// than 2^30 bytes.
    fn whole(&self, alloc: Global, path: &str) -> io::Result<Vec<u8>>;

    /// Writes the bytes of the file at `path` through to the device, and answers what came of it.
    /// The system's error if there is no such file, or if it can't be opened. Other if it is no
    /// regular file.
    fn synced(&self, path: &str) -> io::Result<io::Result<()>>;
}

impl WholeFiles for HostRuntime {
    fn whole(&self, alloc: Global, path: &str) -> io::Result<Vec<u8>> {
        whole(self, alloc, path)
    }

    fn synced(&self, path: &str) -> io::Result<io::Result<()>> {
        synced(self, path)
    }
}

/// The bytes of the file at `path`. Memory is taken for its length and one byte more, so that it
/// need not grow. Fails as [`WholeFiles::whole`] does.
pub(crate) fn whole<R: Files>(rt: &R, alloc: Global, path: &str) -> io::Result<Vec<u8>> {
    regular(rt, path)?;
    let file = File::open(rt, path)?;
    let length = file.metadata()?.len();
    if length > MAX_FILE_LEN {
        return Err(ErrorKind::FileTooLarge.into());
    }
    let mut bytes = Vec::with_capacity(alloc, (length as usize).saturating_add(1))?;
    // A file that grows meanwhile is read no further.
    file.take(MAX_FILE_LEN + 1).read_to_end(&mut bytes)?;
    if bytes.len() as u64 > MAX_FILE_LEN {
        return Err(ErrorKind::FileTooLarge.into());
    }
    Ok(bytes)
}

/// Syncs the file at `path`. It is opened for reading, which suffices for that. Fails as
/// [`WholeFiles::synced`] does.
pub(crate) fn synced<R: Files>(rt: &R, path: &str) -> io::Result<io::Result<()>> {
    regular(rt, path)?;
    Ok(File::open(rt, path)?.sync_all())
}

/// Syncs these files of a folder, each by one of several threads. One that can't be opened stays
/// without an answer.
pub(crate) fn sync_all<R: WholeFiles + Threads>(
    rt: &R,
    alloc: Global,
    folder: &str,
    files: &mut [Due],
) {
    thread::for_each_mut(
        rt,
        files,
        THREADS,
        &|_, due| sync_due(rt, alloc, folder, due),
    );
}

/// Syncs a file of a folder, under its older name if no file has the first one.
fn sync_due<R: WholeFiles>(rt: &R, alloc: Global, folder: &str, due: &mut Due) {
    let answer = synced_in(rt, alloc, folder, due.name.as_str());
    match answer {
        Err(error) if error.kind() == ErrorKind::NotFound => {
            if let Some(older) = due.older.take() {
                due.answer = synced_in(rt, alloc, folder, older.as_str()).ok();
                due.name = older;
            }
        }
        _ => due.answer = answer.ok(),
    }
}

/// The path of a file in a folder. If the folder's path is empty, so is the file's.
pub(crate) fn path_in(alloc: Global, folder: &str, name: &str) -> Result<String, AllocError> {
    if folder.is_empty() {
        return Ok(String::new(alloc));
    }
    Ok(format!(in alloc; "{folder}/{name}")?)
}

/// Syncs the file of this `name` in a folder. Fails as [`WholeFiles::synced`] does.
fn synced_in<R: WholeFiles>(
    rt: &R,
    alloc: Global,
    folder: &str,
    name: &str,
) -> io::Result<io::Result<()>> {
    let path = path_in(alloc, folder, name)?;
    rt.synced(path.as_str())
}
