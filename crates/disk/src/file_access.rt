//! New files of a folder, which belong to whom its CURRENT belongs.

use crate::system_files::{OwnedFiles, opened};
use crate::whole_files::path_in;
use folder::CURRENT;
use std::alloc::Global;
use std::fs::{File, OpenOptions, Permissions};
use std::io::ErrorKind;
use std::os::unix::fs::{MetadataExt, OpenOptionsExt, PermissionsExt, fchown};
use std::rt::Files;
use std::{fs, io};

/// The bits of a mode that say who may read, write and run a file.
const PERMISSIONS: u32 = 0o777;

/// Those of them that speak of the file's owner.
const OF_OWNER: u32 = 0o700;

/// Those that speak of its group.
const OF_GROUP: u32 = 0o070;

/// That its owner may read and write it, as LevelDB has to.
const OWNER_READS_AND_WRITES: u32 = 0o600;

/// Who may use a file, and whose it is.
#[derive(Clone, Copy, Drop)]
pub struct Access {
    mode: u32,
    owner: u32,
    group: u32,
}

/// Makes a file at `path`, open for reading and writing. AlreadyExists if anything is there, a
/// symbolic link too.
///
/// It gets the permissions of the CURRENT that `access` is of, and its owner and group if the
/// program may set them; in between it never has more. Its owner may read and write it in any
/// event, and its group may nothing if it isn't that of CURRENT. Without CURRENT it gets what the
/// system gives new files.
pub(crate) fn new_file<R: OwnedFiles>(
    rt: &R,
    path: &str,
    access: Option<Access>,
) -> io::Result<File> {
    let mut options = OpenOptions::new();
    options.read(true).write(true).create_new(true);
    if let Some(access) = access {
        options.mode(access.mode & OF_OWNER);
    }
    let file = opened(rt, &options, path)?;
    if let Some(access) = access {
        give(&file, access)?;
    }
    Ok(file)
}

/// Who may use CURRENT, and whose it is. None if there is no CURRENT.
pub(crate) fn access_in<R: Files>(
    rt: &R,
    alloc: Global,
    folder: &str,
) -> io::Result<Option<Access>> {
    let path = path_in(alloc, folder, CURRENT)?;
    match fs::metadata(rt, path.as_str()) {
        Ok(found) => Ok(Some(Access {
            mode: found.mode() & PERMISSIONS | OWNER_READS_AND_WRITES,
            owner: found.uid(),
            group: found.gid(),
        })),
        Err(error) if error.kind() == ErrorKind::NotFound => Ok(None),
        Err(error) => Err(error),
    }
}

/// Gives a file this access. If the program may not set its owner or its group, they stay.
fn give(file: &File, access: Access) -> io::Result<()> {
    let _ = fchown(file, None, Some(access.group));
    let _ = fchown(file, Some(access.owner), None);
    let found = file.metadata()?;
    let mode = if found.gid() == access.group {
        access.mode
    } else {
        access.mode & !OF_GROUP
    };
    if found.mode() & PERMISSIONS == mode {
        return Ok(());
    }
    file.set_permissions(Permissions::from_mode(mode))
}
