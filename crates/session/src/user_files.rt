//! Whole files, read and replaced.

use crate::refusal::{Refusal, said};
use coding::{Fault, FaultName};
use disk::MAX_FILE_LEN;
use std::fs::{File, OpenFile, OpenOptions, Permissions};
use std::io::{ErrorKind, Read, Write};
use std::rt::Files;
use std::{fs, io};

/// The bytes of a file; of a pipe, those that come until it is closed. Missing if there is no such
/// file, Size if there are more than 2^30 bytes, Device if it can't be read.
pub fn read_file<R: Files + AllocGlobal>(rt: &R, path: &str) -> Result<Vec<u8>, Refusal> {
    let alloc = rt.alloc();
    bytes_at(rt, path).map_err(|error| match error.kind() {
        ErrorKind::NotFound => Refusal::of_missing(alloc, path),
        ErrorKind::IsADirectory => {
            let wrong = "it is a folder, and a file is wanted";
            let remedy = "verify, scan and get take the folder of a database";
            let told = said(alloc, path, wrong, remedy);
            Refusal::new(Fault::of(FaultName::Device), told)
        }
        ErrorKind::FileTooLarge => Refusal::of_file(alloc, path, Fault::of(FaultName::Size)),
        _ => Refusal::of_call(alloc, path, "read", &error),
    })
}

/// The same with the system's errors. FileTooLarge if there are more than 2^30 bytes. Of a file
/// whose length says so none is read, and of anything else no more than one byte beyond them.
fn bytes_at<R: Files + AllocGlobal>(rt: &R, path: &str) -> io::Result<Vec<u8>> {
    let file = File::open(rt, path)?;
    let found = file.metadata()?;
    let mut bytes = Vec::new(rt.alloc());
    if found.is_file() {
        if found.len() > MAX_FILE_LEN {
            return Err(ErrorKind::FileTooLarge.into());
        }
        bytes = Vec::with_capacity(rt.alloc(), (found.len() as usize).saturating_add(1))?;
    }
    file.take(MAX_FILE_LEN + 1).read_to_end(&mut bytes)?;
    if bytes.len() as u64 > MAX_FILE_LEN {
        return Err(ErrorKind::FileTooLarge.into());
    }
    Ok(bytes)
}

/// Replaces what a file holds by these bytes. If that is refused, the file holds what it held,
/// unless the last step is.
///
/// The bytes go into a temporary file in the same folder, which is synced and then renamed. The
/// last step syncs the folder. Anything that is no file, as a terminal or a pipe, is written
/// directly.
pub fn replace_file<R: Files + AllocGlobal>(
    rt: &R,
    path: &str,
    bytes: &[u8],
) -> Result<(), Refusal> {
    match permissions_or_written(rt, path, bytes) {
        Ok(None) => Ok(()),
        Ok(permissions) => swap_in(rt, path, bytes, permissions),
        Err(error) if error.kind() == ErrorKind::NotFound => swap_in(rt, path, bytes, None),
        Err(error) => Err(Refusal::of_call(rt.alloc(), path, "write", &error)),
    }
}

/// The permissions of a file at a path, which is left as it is. What is there and is no file is
/// written, and the answer is None.
fn permissions_or_written<R: Files>(
    rt: &R,
    path: &str,
    bytes: &[u8],
) -> io::Result<Option<Permissions>> {
    let mut file = OpenOptions::new().write(true).open(rt, path)?;
    let metadata = file.metadata()?;
    if metadata.is_file() {
        return Ok(Some(metadata.permissions()));
    }
    file.write_all(bytes)?;
    Ok(None)
}

/// Writes a temporary file beside the file at a path, and renames it. A link stays a link: the file
/// that it leads to is replaced.
fn swap_in<R: Files + AllocGlobal>(
    rt: &R,
    path: &str,
    bytes: &[u8],
    permissions: Option<Permissions>,
) -> Result<(), Refusal> {
    let alloc = rt.alloc();
    let found = fs::canonicalize(rt, path);
    let target = match &found {
        Ok(target) => target.as_str(),
        Err(_) => path,
    };
    let temporary = format!(in alloc; "{target}.sedvokt.tmp")?;
    let name = temporary.as_str();
    let made = made_anew(rt, name);
    let file = made.map_err(|error| Refusal::of_call(
        alloc,
        path,
        "make a temporary file beside it",
        &error,
    ))?;
    if let Err(error) = fill::<R>(file, bytes, permissions) {
        let _ = fs::remove_file(rt, name);
        return Err(Refusal::of_call(alloc, path, "write", &error));
    }
    if let Err(error) = fs::rename(rt, name, target) {
        let _ = fs::remove_file(rt, name);
        return Err(Refusal::of_call(alloc, path, "replace", &error));
    }
    sync_folder_of(rt, target).map_err(|error| Refusal::of_call(
        alloc,
        path,
        "sync its folder",
        &error,
    ))
}

/// A new file of this name. What an earlier run left under it is removed before.
fn made_anew<R: Files>(rt: &R, name: &str) -> io::Result<R::File> {
    let _ = fs::remove_file(rt, name);
    OpenOptions::new()
        .write(true)
        .create_new(true)
        .open(rt, name)
}

/// Writes the bytes through to the device.
fn fill<R: Files>(
    mut file: R::File,
    bytes: &[u8],
    permissions: Option<Permissions>,
) -> io::Result<()> {
    if let Some(permissions) = permissions {
        file.set_permissions(permissions)?;
    }
    file.write_all(bytes)?;
    file.sync_all()
}

/// Writes the names of the folder of a file through to the device.
pub fn sync_folder_of<R: Files>(rt: &R, path: &str) -> io::Result<()> {
    let folder = match path.rsplit_once('/') {
        Some(("", _)) => "/",
        Some((folder, _)) => folder,
        None => ".",
    };
    File::open(rt, folder)?.sync_all()
}
