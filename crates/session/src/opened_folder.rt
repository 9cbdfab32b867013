//! The work on a folder as each command begins it and ends it: it is opened, refusals are told, and
//! lines are printed.

use crate::explanations::{CLOSE_ONCE, Words};
use crate::folder_files::{Log, logs_with_writes, missing_log, path_in};
use crate::folder_locks::Access;
use crate::progress_line::ProgressLine;
use crate::refusal::{Refusal, RefusalText, told_of_file};
use crate::reporter::{Beginning, Telling, log_named, tell_time};
use crate::tested_sizes::too_large;
use coding::{Fault, FaultName};
use disk::{Disk, SystemFiles};
use edit::Version;
use folder::{CURRENT, Folder, Opened, number_in_current, open};
use std::alloc::Global;
use std::io;
use std::io::{ErrorKind, Write};
use std::rt::Files;
use std::time::Clock;

/// What to do if there is no room for a file.
const NO_ROOM: &str = "clean removes files that no version needs; the database is as it was after \
    the last step that was told";

/// What is told of CURRENT if it names another manifest than before.
const REPLACED: Words = Words {
    wrong: "it names another manifest by now: another program has changed the database meanwhile",
    remedy: "run it again",
};

/// The bytes of a MiB.
const MEBIBYTE: u64 = 1 << 20;

/// A folder that a command works on, and what it was opened as: `Opened`, or of work that changes
/// it, `SyncedVersion`.
#[derive(Drop)]
pub struct Session<'r, R, V = Opened> {
    pub rt: &'r R,
    pub telling: Telling<'r>,
    /// When the work began, if that is told.
    pub begun: Option<Beginning>,
    pub disk: Disk<'r, R>,
    pub opened: V,
    /// How many logs have writes that are in no table. None if the folder can't be listed.
    pub logs: Option<u64>,
    /// The number of the manifest that CURRENT names, unless this work changes it.
    pub manifest: Option<u64>,
}

/// Opens a folder. It is told of its manifest, if LevelDB writes none like it, and of its logs,
/// unless the answer lists these.
pub fn open_session<'r, R: SystemFiles + Eprint + Clock + AllocGlobal>(
    rt: &'r R,
    telling: Telling<'r>,
    access: Access,
) -> Result<Session<'r, R>, Refusal> {
    let begun = telling.begin(rt);
    let mut disk = Disk::new(rt, telling.folder);
    let opened = match open_in(rt, telling.folder, &mut disk) {
        Ok(opened) => opened,
        Err(refusal) => {
            if access != Access::List {
                telling.tell_unopened_logs(rt);
            }
            return Err(refusal);
        }
    };
    let logs = if access == Access::List {
        None
    } else {
        telling.tell_impossible(rt, &opened);
        logs_counted(rt, telling, &opened.version)?
    };
    let manifest = Some(opened.manifest);
    Ok(Session {
        rt,
        telling,
        begun,
        disk,
        opened,
        logs,
        manifest,
    })
}

impl<'r, R: SystemFiles + Eprint + Clock + AllocGlobal, V> Session<'r, R, V> {
    /// The line of progress of work that begins.
    pub fn progress(&self) -> ProgressLine<'r, R> {
        ProgressLine::new(self.rt, self.telling)
    }

    /// What the work came to that a line of progress showed, which is erased.
    pub fn ended<T: Drop>(
        &self,
        progress: &ProgressLine<'_, R>,
        answer: Result<T, Fault>,
    ) -> Result<T, Refusal> {
        progress.erase();
        self.done(answer)
    }

    /// What a call of the folder came to.
    pub fn done<T: Drop>(&self, answer: Result<T, Fault>) -> Result<T, Refusal> {
        let (rt, folder) = (self.rt, self.telling.folder);
        match answer {
            Ok(answer) => Ok(answer),
            Err(fault) => Err(refused_opened(rt, folder, &self.disk, self.manifest, fault)),
        }
    }

    /// Tells how long the work took.
    pub fn tell_time(&self, step: &str) {
        tell_time(self.rt, step, self.begun);
    }
}

/// How many logs have writes that are in no table, which is told. If one has some, that is a
/// refusal, if this is asked for; then it is also told if the log is missing that the version
/// names.
fn logs_counted<R: Files + Eprint + AllocGlobal>(
    rt: &R,
    telling: Telling<'_>,
    version: &Version,
) -> Result<Option<u64>, Refusal> {
    let folder = telling.folder;
    let logs = match logs_with_writes(rt, folder, Some(version)) {
        Ok(logs) => logs,
        Err(error) if telling.refuses_logs || error.kind() == ErrorKind::OutOfMemory => {
            return Err(Refusal::of_listing(rt.alloc(), folder, &error));
        }
        Err(_) => {
            telling.tell_unlisted(rt);
            return Ok(None);
        }
    };
    if !telling.refuses_logs {
        telling.tell_logs(rt, &logs);
    } else if let Some(log) = logs.first() {
        return Err(log_refusal(rt.alloc(), folder, *log));
    } else if let Some(number) = missing_log(rt, folder, version)? {
        let _ = eprintln!(rt;
            "sedvokt: {folder}: the manifest names {number:06}.log, and it is missing; the newest \
                writes may be lacking"
        );
    }
    Ok(Some(logs.len() as u64))
}

/// The refusal for a log that has writes.
fn log_refusal(alloc: Global, folder: &str, log: Log) -> Refusal {
    let told = match log_named(alloc, folder, log) {
        Ok((path, bytes)) => {
            let wrong = format!(in alloc; "it has {bytes} of writes that are in no table");
            RefusalText::new(alloc, path.as_str(), wrong, CLOSE_ONCE)
        }
        Err(_) => None,
    };
    Refusal::new(Fault::of(FaultName::Logs), told)
}

/// What a folder is opened as.
pub fn open_in<R: SystemFiles + AllocGlobal>(
    rt: &R,
    path: &str,
    folder: &mut Disk<'_, R>,
) -> Result<Opened, Refusal> {
    let opened = open(rt.alloc(), folder);
    opened.map_err(|fault| refused_at(rt, path, folder, fault))
}

/// The refusal of work on the folder at a path. If the device failed, the call that failed is told.
/// If that was to read a file that has more than 2^30 bytes, it is refused as such a file is.
pub fn refused_at<R: SystemFiles + AllocGlobal>(
    rt: &R,
    path: &str,
    folder: &Disk<'_, R>,
    fault: Fault,
) -> Refusal {
    let alloc = rt.alloc();
    let failure = match folder.last_failure() {
        Some(failure) if fault.name == FaultName::Device => failure,
        _ => return Refusal::at(alloc, fault, folder.last_read()),
    };
    if failure.is_too_large() {
        return too_large(alloc, path, failure.name.as_str());
    }
    let text = format!(in alloc; "{failure}");
    let told = match failure.error.kind() {
        ErrorKind::StorageFull => RefusalText::new(alloc, path, text, NO_ROOM),
        _ => RefusalText::of(alloc, path, text, None),
    };
    Refusal::new(fault, told)
}

/// The refusal of work on what the folder at a path was opened as, told as [`refused_at`] tells it.
/// If a file is missing, and CURRENT names another manifest by now than this one, that is told.
pub fn refused_opened<R: SystemFiles + AllocGlobal>(
    rt: &R,
    path: &str,
    folder: &Disk<'_, R>,
    manifest: Option<u64>,
    fault: Fault,
) -> Refusal {
    if fault.name == FaultName::Missing
        && let Some(manifest) = manifest
        && is_replaced(rt, path, manifest)
    {
        return Refusal::new(fault, told_of_file(rt.alloc(), path, CURRENT, REPLACED));
    }
    refused_at(rt, path, folder, fault)
}

/// Tells if CURRENT names another manifest than when the folder was `opened`: a file that is
/// missing may be the other program's doing.
pub fn tell_replaced<R: SystemFiles + Eprint + AllocGlobal>(
    rt: &R,
    telling: Telling<'_>,
    opened: &Opened,
) {
    if !telling.is_quiet
        && is_replaced(rt, telling.folder, opened.manifest)
        && let Ok(current) = path_in(rt.alloc(), telling.folder, CURRENT)
    {
        let Words { wrong, remedy } = REPLACED;
        let _ = eprintln!(rt; "sedvokt: {current}: {wrong}; {remedy}");
    }
}

/// Whether CURRENT names another manifest than that of this number.
fn is_replaced<R: SystemFiles + AllocGlobal>(rt: &R, path: &str, manifest: u64) -> bool {
    match Disk::new(rt, path).read(CURRENT) {
        Ok(Some(bytes)) => match number_in_current(rt.alloc(), &bytes) {
            Ok(number) => number != manifest,
            Err(_) => false,
        },
        _ => false,
    }
}

/// Writes lines to the standard output.
pub fn print_lines<R: Print + AllocGlobal>(rt: &R, lines: &[u8]) -> Result<(), Refusal> {
    io::writer(rt)
        .write_all(lines)
        .map_err(|error| Refusal::of_output(rt.alloc(), &error))
}

/// How many bytes these MiB are.
pub fn bytes_of(mebibytes: u64) -> u64 {
    mebibytes.saturating_mul(MEBIBYTE)
}
