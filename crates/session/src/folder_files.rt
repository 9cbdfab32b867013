//! The names of a folder's files, and what these and their lengths tell.

use crate::refusal::Refusal;
use edit::Version;
use install::{Opened, obsolete_names};
use std::alloc::{AllocError, Global};
use std::io::ErrorKind;
use std::rt::Files;
use std::{fs, io};

/// The fewest digits of a number in the name of a file.
const DIGITS: usize = 6;

/// A log that has a byte.
#[derive(Clone, Copy)]
pub struct Log {
    pub number: u64,
    /// How many bytes it has.
    pub bytes: u64,
}

/// Files of a folder that its version doesn't need.
#[derive(Drop)]
pub struct UnneededFiles {
    /// Their names, which rise.
    pub names: Vec<String>,
    /// How many bytes each has.
    pub lengths: Vec<u64>,
}

/// The path of a folder's file.
pub fn path_in(alloc: Global, folder: &str, name: &str) -> Result<String, AllocError> {
    if folder.ends_with('/') {
        format!(in alloc; "{folder}{name}")
    } else {
        format!(in alloc; "{folder}/{name}")
    }
}

/// The names in a folder, which rise.
pub fn names_in<R: Files + AllocGlobal>(rt: &R, folder: &str) -> Result<Vec<String>, Refusal> {
    names_at(rt, folder).map_err(|error| Refusal::of_listing(rt.alloc(), folder, &error))
}

/// The same with the system's errors. Names that are no UTF-8 are left out: LevelDB gives no file
/// such a name.
pub(crate) fn names_at<R: Files + AllocGlobal>(rt: &R, folder: &str) -> io::Result<Vec<String>> {
    let mut names = Vec::new(rt.alloc());
    for entry in fs::read_dir(&rt, folder)? {
        match entry {
            Err(error) if error.kind() == ErrorKind::InvalidFilename => {}
            Err(error) => return Err(error),
            Ok(entry) => names.push(String::from_str(rt.alloc(), entry.file_name())?)?,
        }
    }
    names.sort_unstable();
    Ok(names)
}

/// The logs that LevelDB would replay over this version, and that have a byte; their numbers rise.
/// If the version isn't known, these are all logs that have a byte. The folder is listed, and no
/// log is read.
pub fn logs_with_writes<R: Files + AllocGlobal>(
    rt: &R,
    folder: &str,
    version: Option<&Version>,
) -> io::Result<Vec<Log>> {
    let mut logs = Vec::new(rt.alloc());
    for name in &names_at(rt, folder)? {
        if let Some(number) = replayed_log(version, name.as_str())
            && let Some(bytes) = file_len(rt, folder, name.as_str())?
        {
            logs.push(Log { number, bytes })?;
        }
    }
    logs.sort_unstable_by_key(|log| log.number);
    Ok(logs)
}

/// How many bytes a folder's file has. None if it is no file, or empty, or a link to nothing.
fn file_len<R: Files + AllocGlobal>(rt: &R, folder: &str, name: &str) -> io::Result<Option<u64>> {
    let path = path_in(rt.alloc(), folder, name)?;
    match fs::metadata(rt, path.as_str()) {
        Ok(metadata) if metadata.is_file() && metadata.len() > 0 => Ok(Some(metadata.len())),
        Ok(_) => Ok(None),
        Err(error) if error.kind() == ErrorKind::NotFound => Ok(None),
        Err(error) => Err(error),
    }
}

/// The number of the log that a version names, if it isn't there; LevelDB leaves it there also if
/// it is empty. None if the version names none, which is number 0.
pub fn missing_log<R: Files + AllocGlobal>(
    rt: &R,
    folder: &str,
    version: &Version,
) -> Result<Option<u64>, Refusal> {
    let number = version.log_number().unwrap_or(0);
    let name = format!(in rt.alloc(); "{number:06}.log")?;
    if number == 0 || is_there(rt, folder, name.as_str())? {
        return Ok(None);
    }
    Ok(Some(number))
}

/// Whether a folder's file is there. Device if the system doesn't tell it.
pub fn is_there<R: Files + AllocGlobal>(rt: &R, folder: &str, name: &str) -> Result<bool, Refusal> {
    let path = path_in(rt.alloc(), folder, name)?;
    match fs::metadata(rt, path.as_str()) {
        Ok(_) => Ok(true),
        Err(error) if error.kind() == ErrorKind::NotFound => Ok(false),
        Err(error) => {
            Err(Refusal::of_call(rt.alloc(), path.as_str(), "read its length", &error))
        }
    }
}

/// The files of a folder that the version that it was opened as doesn't need.
pub fn unneeded_files<R: Files + AllocGlobal>(
    rt: &R,
    folder: &str,
    opened: &Opened,
) -> Result<UnneededFiles, Refusal> {
    let listed = names_in(rt, folder)?;
    let mut files = UnneededFiles {
        names: Vec::new(rt.alloc()),
        lengths: Vec::new(rt.alloc()),
    };
    for name in &obsolete_names(rt.alloc(), opened, &listed)? {
        if let Some(length) = length_of(rt, folder, name)? {
            files.names.push(String::from_str(rt.alloc(), name)?)?;
            files.lengths.push(length)?;
        }
    }
    Ok(files)
}

/// How many bytes a folder's file has. None of a folder, and of what isn't there. Device if the
/// system doesn't tell it.
fn length_of<R: Files + AllocGlobal>(
    rt: &R,
    folder: &str,
    name: &str,
) -> Result<Option<u64>, Refusal> {
    let path = path_in(rt.alloc(), folder, name)?;
    match fs::symlink_metadata(rt, path.as_str()) {
        Ok(metadata) if metadata.is_dir() => Ok(None),
        Ok(metadata) => Ok(Some(metadata.len())),
        Err(error) if error.kind() == ErrorKind::NotFound => Ok(None),
        Err(error) => {
            Err(Refusal::of_call(rt.alloc(), path.as_str(), "read its length", &error))
        }
    }
}

/// The number of the log that `name` is, if LevelDB replays it when it opens the `version`. It does
/// so if the number is not below the version's log number, or is its previous log. If the version
/// isn't known, LevelDB may replay any log. None of every other name.
///
/// A log's name is `%06d.log`.
pub fn replayed_log(version: Option<&Version>, name: &str) -> Option<u64> {
    let number = number_in(name.strip_suffix(".log")?)?;
    match version {
        Some(version) if !is_replayed(version, number) => None,
        _ => Some(number),
    }
}

/// Whether LevelDB replays the log of this number.
fn is_replayed(version: &Version, number: u64) -> bool {
    number >= version.log_number().unwrap_or(0) || Some(number) == version.previous_log()
}

/// Whether a compaction of the `version`, or one after it, may replace a folder's file of this
/// `name`, which is no folder itself. Its number is then next file or above of a manifest and of a
/// temporary file, and above next file of a table.
///
/// An interrupted compaction leaves such a file. So does a copy whose manifest was taken before its
/// tables.
pub(crate) fn may_be_replaced<R: Files + AllocGlobal>(
    rt: &R,
    folder: &str,
    version: &Version,
    name: &str,
) -> bool {
    let next = version.next_file().unwrap_or(0);
    let is_free = match name.strip_suffix(".ldb") {
        Some(digits) => matches!(number_in(digits), Some(number) if number > next),
        None => matches!(number_of_manifest(name), Some(number) if number >= next),
    };
    is_free && matches!(length_of(rt, folder, name), Ok(Some(_)))
}

/// The number of a manifest, `MANIFEST-%06d`, or of a temporary file, `%06d.dbtmp`.
fn number_of_manifest(name: &str) -> Option<u64> {
    match name.strip_prefix("MANIFEST-") {
        Some(digits) => number_in(digits),
        None => number_in(name.strip_suffix(".dbtmp")?),
    }
}

/// The number that these `digits` are, as `%06d` writes them: at least six, and no zero before more
/// than six. None if it writes no number so.
fn number_in(digits: &str) -> Option<u64> {
    let bytes = digits.as_bytes();
    let is_written = bytes.len() == DIGITS || bytes.len() > DIGITS && !bytes.starts_with(b"0");
    if is_written && bytes.iter().all(|digit| digit.is_ascii_digit()) {
        digits.parse().ok()
    } else {
        None
    }
}
