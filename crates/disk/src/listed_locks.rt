//! The locks on a file, as the system lists them.
//!
//! A line of the list, of a lock of LevelDB's and of one that is waited for:
//!
//!     1: POSIX  ADVISORY  WRITE 27563 fe:00:11100426 0 EOF
//!     1: -> FLOCK  ADVISORY  READ 27564 fe:00:11100426 0 EOF

use std::alloc::Global;
use std::fs::{File, Metadata};
use std::io::{ErrorKind, Read};
use std::os::unix::fs::MetadataExt;
use std::rt::Files;
use std::{fs, io};

/// Where the system lists the locks of all files.
const LIST: &str = "/proc/locks";

/// The most bytes of the list that are read.
const MAX_LIST_LEN: u64 = 1 << 24;

/// As many bytes of the list are there at once, whatever locks begin or end meanwhile: the system
/// gives whole lines of up to a page.
const WHOLE_LEN: usize = 3_840;

/// How often a longer list is read. Where one part of it ends and the next begins, a lock can be
/// left out if another one ends meanwhile.
const READINGS: usize = 8;

/// How many words of a line come up to the one that names the file.
const WORDS: usize = 6;

/// A lock that is held on a file.
#[derive(Clone, Copy, Drop)]
pub(crate) struct ListedLock {
    /// Whether it is one of `flock`. Else it is one on bytes, of `fcntl`.
    pub is_whole: bool,
    /// Whether others can have it too.
    pub is_shared: bool,
}

/// A line of the list that may tell of the file.
#[derive(Clone, Copy)]
struct ListedLine<'l> {
    device: &'l str,
    inode: u64,
    lock: ListedLock,
}

/// The locks that are held on the file `lock` of a folder. If the program has a lock on the folder,
/// its line in the list tells how the list names their device, which not every file system tells
/// otherwise.
pub(crate) fn listed_locks<R: Files>(
    rt: &R,
    alloc: Global,
    folder: &Metadata,
    lock: &Metadata,
) -> io::Result<Vec<ListedLock>> {
    let mut locks = Vec::new(alloc);
    for _ in 0..READINGS {
        let list = list(rt, alloc)?;
        add_locks(alloc, list.as_str(), folder, lock, &mut locks)?;
        if list.len() <= WHOLE_LEN {
            return Ok(locks);
        }
    }
    Ok(locks)
}

/// The list. FileTooLarge if it has more than 2^24 bytes.
fn list<R: Files>(rt: &R, alloc: Global) -> io::Result<String> {
    let file = File::open(rt, LIST)?;
    let mut bytes = Vec::with_capacity(alloc, 1 << 16)?;
    file.take(MAX_LIST_LEN).read_to_end(&mut bytes)?;
    if bytes.len() as u64 == MAX_LIST_LEN {
        return Err(ErrorKind::FileTooLarge.into());
    }
    match String::from_utf8(bytes) {
        Ok(list) => Ok(list),
        Err(_) => Err(ErrorKind::InvalidData.into()),
    }
}

/// Appends the locks on the file `lock` that a list tells of.
fn add_locks(
    alloc: Global,
    list: &str,
    folder: &Metadata,
    lock: &Metadata,
    locks: &mut Vec<ListedLock>,
) -> io::Result<()> {
    let lines = lines_of(alloc, list, folder.ino(), lock.ino())?;
    let is_one_device = folder.dev() == lock.dev();
    for line in &lines {
        if line.inode == lock.ino()
            && (!is_one_device || is_on(&lines, folder.ino(), line.device))
        {
            locks.push(line.lock)?;
        }
    }
    Ok(())
}

/// The lines of a list that tell of one of two inodes, on any device.
fn lines_of<'l>(
    alloc: Global,
    list: &'l str,
    folder: u64,
    lock: u64,
) -> io::Result<Vec<ListedLine<'l>>> {
    let mut lines = Vec::new(alloc);
    for text in list.lines() {
        let words: Vec<&'l str> = text.split_whitespace().collect(alloc)?;
        if let Some(line) = line_of(&words)
            && (line.inode == folder || line.inode == lock)
        {
            lines.push(line)?;
        }
    }
    Ok(lines)
}

/// The line that has these words. None if it is of a lock that is waited for, or of a lease.
fn line_of<'l>(words: &[&'l str]) -> Option<ListedLine<'l>> {
    if words.len() < WORDS || !matches!(words[1], "POSIX" | "OFDLCK" | "FLOCK") {
        return None;
    }
    let (device, inode) = words[5].rsplit_once(':')?;
    Some(ListedLine {
        device,
        inode: inode.parse().ok()?,
        lock: ListedLock {
            is_whole: words[1] == "FLOCK",
            is_shared: words[3] == "READ",
        },
    })
}

/// Whether a folder's inode has a lock on this device, or on none.
fn is_on(lines: &[ListedLine<'_>], folder: u64, device: &str) -> bool {
    let mut is_known = false;
    for line in lines {
        if line.inode == folder {
            if line.device == device {
                return true;
            }
            is_known = true;
        }
    }
    !is_known
}
