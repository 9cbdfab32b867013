//! The calls of a folder of the system, as the system answers them.

ghost use Rattle.std.specs.Prelude.{◌≤◌, length, IfOk, IfSome};

use crate::file_access::access_in;
use crate::made_table::{made_at, remove_at};
use crate::pending_files::PendingFiles;
use crate::system_files::{SystemFiles, regular};
use crate::whole_files::{path_in, synced, whole};
use folder::WriteCall;
use std::alloc::Global;
use std::fs::{File, OpenFile};
use std::io::{ErrorKind, Read, Seek, SeekFrom};
use std::rt::Files;
use std::{fs, io};

/// The most bytes of a file that is read: 2^30.
pub const MAX_FILE_LEN: u64 = 1 << 30;

/// The bytes of a file. None if no file has this `name`.
pub(crate) fn read_in<R: Files>(
    rt: &R,
    alloc: Global,
    folder: &str,
    name: &str,
) -> io::Result<Option<Vec<u8>>> {
    let path = path_in(alloc, folder, name)?;
    match whole(rt, alloc, path.as_str()) {
        Ok(bytes) => Ok(Some(bytes)),
        Err(error) if error.kind() == ErrorKind::NotFound => Ok(None),
        Err(error) => Err(error),
    }
}

/// The `len` bytes of a file from `offset` on, or as many as it has there. None if no file has this
/// `name`.
pub(crate) fn part_in<R: Files>(
    rt: &R,
    alloc: Global,
    folder: &str,
    name: &str,
    offset: u64,
    len: usize,
) -> io::Result<Option<Vec<u8>>>
    ensures { IfOk result (λ part. IfSome part (λ bytes. length bytes.items ≤ len)) }
{
    let path = path_in(alloc, folder, name)?;
    match part(rt, alloc, path.as_str(), offset, len) {
        Ok(bytes) => Ok(Some(bytes)),
        Err(error) if error.kind() == ErrorKind::NotFound => Ok(None),
        Err(error) => Err(error),
    }
}

/// That part of the file at `path`. No more memory is taken than the file has bytes there. The
/// system's error if there is no such file, or if it can't be read. Other if it is no regular file,
/// FileTooLarge if it has more than 2^30 bytes.
fn part<R: Files>(rt: &R, alloc: Global, path: &str, offset: u64, len: usize) -> io::Result<Vec<u8>>
    ensures { IfOk result (λ bytes. length bytes.items ≤ len) }
{
    regular(rt, path)?;
    let mut file = File::open(rt, path)?;
    let length = file.metadata()?.len();
    if length > MAX_FILE_LEN {
        return Err(ErrorKind::FileTooLarge.into());
    }
    let start = offset.min(length);
    let there = (length - start).min(len as u64) as usize;
    let mut bytes = vec![in alloc; 0; there]?;
    file.seek(SeekFrom::Start(start))?;
    file.read_exact(&mut bytes)?;
    Ok(bytes)
}

/// The length of a file in bytes. None if no file has this `name`.
pub(crate) fn length_in<R: Files>(
    rt: &R,
    alloc: Global,
    folder: &str,
    name: &str,
) -> io::Result<Option<u64>> {
    let path = path_in(alloc, folder, name)?;
    match regular(rt, path.as_str()) {
        Ok(found) => Ok(Some(found.len())),
        Err(error) if error.kind() == ErrorKind::NotFound => Ok(None),
        Err(error) => Err(error),
    }
}

/// Where files are made.
#[derive(Clone, Copy)]
pub(crate) struct Place<'p> {
    /// The path of the folder that gets them.
    pub folder: &'p str,
    /// The path of the folder whose CURRENT says who may use them.
    pub owner: &'p str,
}

/// Makes a call that writes.
pub(crate) fn done_in<R: SystemFiles>(
    rt: &R,
    alloc: Global,
    place: Place<'_>,
    kept: &mut PendingFiles,
    call: WriteCall<'_>,
) -> io::Result<()> {
    let folder = place.folder;
    match call {
        WriteCall::Create(name, bytes) => create_in(rt, alloc, place, kept, name, bytes),
        WriteCall::Sync(name) => sync_in(rt, alloc, folder, kept, name),
        WriteCall::Rename(from, to) => rename_in(rt, alloc, folder, kept, from, to),
        WriteCall::Remove(name) => remove_in(rt, alloc, folder, kept, name),
        WriteCall::SyncFolder => sync_folder(rt, folder),
    }
}

/// Makes a file anew as [`made_at`] does, and keeps it open.
fn create_in<R: SystemFiles>(
    rt: &R,
    alloc: Global,
    place: Place<'_>,
    kept: &mut PendingFiles,
    name: &str,
    bytes: &[u8],
) -> io::Result<()> {
    kept.forget_ahead(name);
    drop(kept.taken(name));
    let path = path_in(alloc, place.folder, name)?;
    let access = access_in(rt, alloc, place.owner)?;
    let file = made_at(rt, path.as_str(), access, bytes)?;
    let answer = kept.keep(name, file);
    if answer.is_err() {
        let _ = remove_at(rt, path.as_str());
    }
    Ok(answer?)
}

/// Removes a file, if it is there.
fn remove_in<R: Files>(
    rt: &R,
    alloc: Global,
    folder: &str,
    kept: &mut PendingFiles,
    name: &str,
) -> io::Result<()> {
    kept.forget_ahead(name);
    drop(kept.taken(name));
    remove_at(rt, path_in(alloc, folder, name)?.as_str())
}

/// Syncs a file: by the handle that it was made with, or else under its name. If no file has the
/// name, nothing is done.
fn sync_in<R: Files>(
    rt: &R,
    alloc: Global,
    folder: &str,
    kept: &mut PendingFiles,
    name: &str,
) -> io::Result<()> {
    if let Some(file) = kept.taken(name) {
        return file.sync_all();
    }
    if let Some(answer) = kept.answer(name) {
        return answer;
    }
    let path = path_in(alloc, folder, name)?;
    match synced(rt, path.as_str()) {
        Ok(answer) => answer,
        Err(error) if error.kind() == ErrorKind::NotFound => Ok(()),
        Err(error) => Err(error),
    }
}

fn rename_in<R: Files>(
    rt: &R,
    alloc: Global,
    folder: &str,
    kept: &mut PendingFiles,
    from: &str,
    to: &str,
) -> io::Result<()> {
    kept.forget_ahead(from);
    kept.forget_ahead(to);
    drop(kept.taken(from));
    drop(kept.taken(to));
    let from = path_in(alloc, folder, from)?;
    let to = path_in(alloc, folder, to)?;
    fs::rename(rt, from.as_str(), to.as_str())
}

/// Syncs a folder. What is no folder isn't opened: that may block.
fn sync_folder<R: Files>(rt: &R, folder: &str) -> io::Result<()> {
    if fs::metadata(rt, folder)?.is_dir() {
        File::open(rt, folder)?.sync_all()
    } else {
        Err(ErrorKind::NotADirectory.into())
    }
}
