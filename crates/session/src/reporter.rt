//! What is told on the standard error of the work on a folder.

ghost use Rattle.std.specs.Prelude.{◌≡◌, false, IfSome};

use crate::amount_texts::grouped;
use crate::explanations::CLOSE_ONCE;
use crate::folder_files::{Log, logs_with_writes, may_be_replaced, names_at, path_in};
use edit::Version;
use folder::{Opened, manifest_name};
use ikey::MAX_SEQUENCE;
use std::alloc::{AllocError, Global};
use std::rt::Files;
use std::sync::atomic::{AtomicBool, AtomicU64, Ordering};
use std::time::{Clock, Instant};

/// The milliseconds after which somebody who watches is told how long work takes.
pub const LONG: u64 = 2_000;

/// What is told of a manifest that LevelDB doesn't write, though its version may be lawful here.
const IMPOSSIBLE: &str = "LevelDB never writes that, and may stop when it opens or reads the \
    database";

/// What is to be told of the work on a folder. If it can't be told, nothing else changes.
#[derive(Clone, Copy)]
pub struct Telling<'a> {
    /// The path of the folder.
    pub folder: &'a str,
    /// Whether nothing is told but refusals.
    pub is_quiet: bool,
    /// Whether the times of all steps are told.
    pub is_verbose: bool,
    /// Whether somebody watches, as at a terminal, so that the times of long steps are told, and a
    /// line of progress is shown.
    pub is_watched: bool,
    /// Whether the lock of the folder isn't looked at.
    pub ignores_lock: bool,
    /// Whether a log with writes that are in no table is a refusal.
    pub refuses_logs: bool,
    /// How many bytes of tables may be held to find the file of a refusal.
    pub memory: u64,
    /// Which table is refused, if one is.
    pub refused: &'a RefusedTable,
}

impl<'a> Telling<'a> {
    /// The time at which a step begins, if it may be told. None if the clock can't be read, too.
    pub fn begin<R: Clock>(self, rt: &R) -> Option<Beginning>
        ensures { IfSome result (λ _. self.entry.is_quiet ≡ false) }
    {
        if self.is_quiet || !(self.is_verbose || self.is_watched) {
            return None;
        }
        Some(Beginning {
            time: Instant::now(rt).ok()?,
            patience: if self.is_verbose { 0 } else { LONG },
        })
    }

    /// Tells of the logs with writes that are in no table of the version.
    pub(crate) fn tell_logs<R: Eprint + AllocGlobal>(self, rt: &R, logs: &[Log]) {
        if let Ok(about) = format!(in rt.alloc();
            "of writes that are in no table; they are neither seen nor tested here; {CLOSE_ONCE}"
        ) {
            self.tell_each(rt, logs, about.as_str());
        }
    }

    /// Tells that the folder can't be listed.
    pub(crate) fn tell_unlisted<R: Eprint>(self, rt: &R) {
        let path = self.folder;
        if !self.is_quiet {
            let _ = eprintln!(rt;
                "sedvokt: {path}: its files cannot be listed; there may be logs with writes"
            );
        }
    }

    /// Tells of each log that has a byte, of a folder that can't be opened: which of them LevelDB
    /// would replay isn't known. Nothing is told if the folder can't be listed.
    pub(crate) fn tell_unopened_logs<R: Files + Eprint + AllocGlobal>(self, rt: &R) {
        if let Ok(logs) = logs_with_writes(rt, self.folder, None) {
            let about = "in which there may be writes that are in no table";
            self.tell_each(rt, &logs, about);
        }
    }

    /// Tells of each of these logs how many bytes it has, and this about them.
    fn tell_each<R: Eprint + AllocGlobal>(self, rt: &R, logs: &[Log], about: &str) {
        if self.is_quiet {
            return;
        }
        for log in logs {
            if let Ok((path, bytes)) = log_named(rt.alloc(), self.folder, *log) {
                let _ = eprintln!(rt; "sedvokt: {path}: {bytes} {about}");
            }
        }
    }

    /// Tells of what a folder was opened as that LevelDB takes for impossible when it opens it, a
    /// line each: its log number isn't below next file; its last sequence is above 2^56 - 1.
    pub(crate) fn tell_impossible<R: Eprint + AllocGlobal>(self, rt: &R, opened: &Opened) {
        let log = opened.version.log_number().unwrap_or(0);
        let next = opened.version.next_file().unwrap_or(0);
        let last = opened.version.last_sequence().unwrap_or(0);
        if !self.is_quiet
            && let Ok(name) = manifest_name(rt.alloc(), opened.manifest)
            && let Ok(path) = path_in(rt.alloc(), self.folder, name.as_str())
        {
            if log >= next {
                let _ = eprintln!(rt;
                    "sedvokt: {path}: its log number, {log}, is not below the next file number, \
                        {next}; {IMPOSSIBLE}"
                );
            }
            if last > MAX_SEQUENCE {
                let _ = eprintln!(rt;
                    "sedvokt: {path}: its last sequence, {last}, is above {MAX_SEQUENCE}; \
                        {IMPOSSIBLE}"
                );
            }
        }
    }

    /// Whether compactions from this version on may replace a file of this name.
    fn may_be_replaced<R: Files + AllocGlobal>(
        self,
        rt: &R,
        version: &Version,
        name: &str,
    ) -> bool {
        may_be_replaced(rt, self.folder, version, name)
    }

    /// Tells of the files that compactions from this version on may replace, but for those that are
    /// removed now. Nothing is told if the folder can't be listed: that is told with its logs.
    pub fn tell_replaceable<R: Files + Eprint + AllocGlobal>(
        self,
        rt: &R,
        version: &Version,
        removed: &[String],
    ) {
        if self.is_quiet {
            return;
        }
        let Ok(names) = names_at(rt, self.folder) else {
            return;
        };
        let mut count = 0u64;
        let mut first = "";
        for name in &names {
            if !removed.contains(name) && self.may_be_replaced(rt, version, name.as_str()) {
                first = if count == 0 { name.as_str() } else { first };
                count = count.saturating_add(1);
            }
        }
        if count > 0 {
            let folder = self.folder;
            let _ = eprintln!(rt;
                "sedvokt: {folder}: files with a number that the manifest says is free: {count}, \
                    as {first}; new ones may replace them, and nothing needs them, unless the \
                    folder was copied while it changed: then restore it from a whole copy"
            );
        }
    }
}

/// The path of a folder's log, and how many bytes it has, in words.
pub(crate) fn log_named(
    alloc: Global,
    folder: &str,
    log: Log,
) -> Result<(String, String), AllocError> {
    let number = log.number;
    let name = format!(in alloc; "{number:06}.log")?;
    let path = path_in(alloc, folder, name.as_str())?;
    let bytes = grouped(alloc, log.bytes)?;
    let unit = if log.bytes == 1 { "byte" } else { "bytes" };
    Ok((path, format!(in alloc; "{bytes} {unit}")?))
}

/// When a step began.
#[derive(Clone, Copy)]
pub struct Beginning {
    time: Instant,
    /// The milliseconds from which on it is told how long the step took.
    patience: u64,
}

/// Tells how long a step took that was done, if its beginning is known and it took long enough.
pub fn tell_time<R: Eprint + Clock>(rt: &R, step: &str, begun: Option<Beginning>) {
    let Some(begun) = begun else {
        return;
    };
    if let Ok(taken) = begun.time.elapsed(rt) {
        let millis = taken.as_millis();
        if millis >= u128::from(begun.patience) {
            let _ = eprintln!(rt; "{step}: {millis} ms");
        }
    }
}

/// The number of the table that is why work on a folder is refused, as far as it is known. Workers
/// share it.
#[derive(Drop)]
pub struct RefusedTable {
    is_known: AtomicBool,
    number: AtomicU64,
}

impl RefusedTable {
    /// None is known yet.
    pub fn none() -> RefusedTable {
        RefusedTable {
            is_known: AtomicBool::new(false),
            number: AtomicU64::new(0),
        }
    }

    /// Keeps the number of a table.
    pub(crate) fn keep(&self, number: u64) {
        self.number.store(number, Ordering::SeqCst);
        self.is_known.store(true, Ordering::SeqCst);
    }

    /// The number that was kept last. None if none was.
    pub fn number(&self) -> Option<u64> {
        if self.is_known.load(Ordering::SeqCst) {
            Some(self.number.load(Ordering::SeqCst))
        } else {
            None
        }
    }
}
