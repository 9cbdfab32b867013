//! Files of the system, opened under descriptors of their own.

use crate::file_access::Access;
use crate::made_table::{MadeTable, made_at};
use crate::whole_files::THREADS;
use sqlite_disk::Unknown;
use sqlite_std_file::OpenError;
use std::fs::{File, Metadata, OpenOptions};
use std::io::ErrorKind;
use std::os::fd::AsRawFd;
use std::rt::Files;
use std::thread::Threads;
use std::{fs, io, thread};

/// The last descriptor of a standard stream.
const LAST_STREAM: i32 = 2;

/// A lock on bytes of a file, which is held until this is dropped.
#[derive(Drop)]
pub struct ByteLock {
    /// It is taken for the two files of a database of SQLite, of which nothing else is asked.
    _files: sqlite_disk::Files<sqlite_std_file::File>,
}

/// Files of the system, which have descriptors, and so owners.
pub trait OwnedFiles: Files {
    /// Opens the file at `path` as [`Files`] does.
    fn open_own(&self, how: &OpenOptions, path: &str) -> io::Result<File>;
}

/// The same, with locks, and made by several threads.
pub trait SystemFiles: OwnedFiles {
    ghost use Rattle.std.specs.Prelude.{◌≡◌, length};
    ghost use Rattle.std.specs.Thread.{IsSync};

    /// Takes a lock on bytes of the file at `path` that nobody shares. It does not wait. A lock
    /// that another program has on the whole file is in its way, and this one in the way of such a
    /// lock.
    ///
    /// It needs a regular file with one name that may be read and written. A file of its name and
    /// `-wal` after it is made beside it, and can be removed. WouldBlock if another is in the way.
    fn lock_bytes(&self, path: &str) -> io::Result<ByteLock>;

    /// Makes each of these tables its file and syncs it, by threads of `rt`.
    fn write_all<T: Threads + Sync>(
        &self,
        rt: &T,
        access: io::Result<Option<Access>>,
        tables: &[(u64, Vec<u8>)],
        files: &mut [MadeTable],
    )
        // The bound `T: Sync`, as at [`Folder::write_tables`](folder::Folder::write_tables).
        requires threads { IsSync T.row }
        requires each { length files.old ≡ length tables.now };
}

/// Files of the system, which are made through a handle that threads share.
pub trait MakesFiles: Send + Sync {
    /// Makes a file anew at `path`, of these bytes, and answers it open. What was there before
    /// keeps its bytes, if it has another name or is open elsewhere.
    fn made(&self, path: &str, access: Option<Access>, bytes: &[u8]) -> io::Result<File>;
}

impl OwnedFiles for HostRuntime {
    fn open_own(&self, how: &OpenOptions, path: &str) -> io::Result<File> {
        self.open_file(how, path)
    }
}

impl MakesFiles for HostRuntime {
    fn made(&self, path: &str, access: Option<Access>, bytes: &[u8]) -> io::Result<File> {
        made_at(self, path, access, bytes)
    }
}

impl SystemFiles for HostRuntime {
    fn lock_bytes(&self, path: &str) -> io::Result<ByteLock> {
        match sqlite_std_file::open(self, path, Unknown) {
            Ok(files) => Ok(ByteLock { _files: files }),
            Err(OpenError::Io(error)) => Err(error),
            Err(OpenError::Busy) => Err(ErrorKind::WouldBlock.into()),
            Err(OpenError::OutOfMemory) => Err(ErrorKind::OutOfMemory.into()),
            Err(OpenError::HotJournal) => Err(ErrorKind::InvalidData.into()),
        }
    }

    fn write_all<T: Threads + Sync>(
        &self,
        rt: &T,
        access: io::Result<Option<Access>>,
        tables: &[(u64, Vec<u8>)],
        files: &mut [MadeTable],
    ) {
        thread::for_each_mut(
            rt,
            files,
            THREADS,
            &|place, file| file.write(self, access, &tables[place].1),
        );
    }
}

/// Opens a file under a descriptor that is none of a standard stream. If such a stream was closed
/// when the program began, what is meant for it must not land in the file.
pub(crate) fn opened<R: OwnedFiles>(rt: &R, how: &OpenOptions, path: &str) -> io::Result<File> {
    let file = rt.open_own(how, path)?;
    if file.as_raw_fd() > LAST_STREAM {
        Ok(file)
    } else {
        file.try_clone()
    }
}

/// What the system says of a regular file. Other if the path leads to anything else: to open that
/// may block.
pub(crate) fn regular<R: Files>(rt: &R, path: &str) -> io::Result<Metadata> {
    let found = fs::metadata(rt, path)?;
    if found.is_file() {
        Ok(found)
    } else {
        Err(io::Error::other("not a regular file"))
    }
}
