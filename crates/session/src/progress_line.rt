//! A line of progress on the standard error.

use crate::reporter::{LONG, RefusedTable, Telling};
use board::{Watch, Work};
use folder::Gate;
use std::alloc::{AllocError, Global};
use std::sync::atomic::{AtomicBool, AtomicU64, Ordering};
use std::time::{Clock, Instant};

/// The milliseconds that work takes before its line is shown, if times are told.
const PATIENCE: u64 = 200;

/// The milliseconds that pass before the line is written again.
const PAUSE: u64 = 100;

/// The bytes of a MB.
const MEGABYTE: u64 = 1_000_000;

/// What a compaction of all levels has left to do.
#[derive(Clone, Copy)]
pub struct WorkLeft {
    /// The level that is compacted next.
    pub level: u64,
    /// About how many steps are left.
    pub steps: u64,
    /// How many bytes the files above the bottom have together.
    pub bytes: u64,
}

/// A line that tells how far long work is. It is rewritten in place, and erased when the work ends.
/// If it can't be written, nothing else changes.
#[derive(Drop)]
pub struct ProgressLine<'r, R> {
    rt: &'r R,
    /// Where the number of a table is kept that is refused.
    refused: &'r RefusedTable,
    /// When the work began. None if no line is shown.
    begun: Option<Instant>,
    /// Whether tables are merged; else they are checked.
    is_compacting: AtomicBool,
    /// How many jobs the first part of the work has.
    jobs: AtomicU64,
    /// How many jobs are done.
    done: AtomicU64,
    /// The milliseconds after which the line is due.
    due: AtomicU64,
    /// Whether it is written, and was not erased since.
    is_written: AtomicBool,
    /// Which step of a compaction of all levels this is, from 1 on. 0 of other work.
    step: AtomicU64,
    /// About how many steps there are.
    steps: AtomicU64,
    /// The level that the step compacts.
    level: AtomicU64,
    /// How many bytes are above the bottom before the step.
    left: AtomicU64,
}

impl<'r, R: Eprint + Clock + AllocGlobal> ProgressLine<'r, R> {
    /// The line of work that begins, shown if somebody watches.
    pub fn new(rt: &'r R, telling: Telling<'r>) -> ProgressLine<'r, R> {
        let patience = if telling.is_verbose { PATIENCE } else { LONG };
        ProgressLine {
            rt,
            refused: telling.refused,
            begun: if telling.is_watched && !telling.is_quiet {
                Instant::now(rt).ok()
            } else {
                None
            },
            is_compacting: AtomicBool::new(false),
            jobs: AtomicU64::new(0),
            done: AtomicU64::new(0),
            due: AtomicU64::new(patience),
            is_written: AtomicBool::new(false),
            step: AtomicU64::new(0),
            steps: AtomicU64::new(0),
            level: AtomicU64::new(0),
            left: AtomicU64::new(0),
        }
    }

    /// A step of a compaction of all levels begins, after `done` others.
    pub fn begin_step(&self, done: u64, left: WorkLeft) {
        let steps = done.saturating_add(left.steps);
        self.step.store(done.saturating_add(1), Ordering::SeqCst);
        self.steps.store(steps, Ordering::SeqCst);
        self.level.store(left.level, Ordering::SeqCst);
        self.left.store(left.bytes, Ordering::SeqCst);
    }

    /// Erases the line, if it is written.
    pub fn erase(&self) {
        if self.is_written.swap(false, Ordering::SeqCst) {
            let _ = self.rt.eprint("\r\x1b[K");
        }
    }

    /// Writes the line if it is due. If several workers come at the same time, one of them writes.
    fn refresh(&self, begun: Instant) {
        let Ok(taken) = begun.elapsed(self.rt) else {
            return;
        };
        let now = u64::try_from(taken.as_millis()).unwrap_or(u64::MAX);
        let due = self.due.load(Ordering::SeqCst);
        if now < due {
            return;
        }
        let next = now.saturating_add(PAUSE);
        let claimed = self
            .due
            .compare_exchange(due, next, Ordering::SeqCst, Ordering::SeqCst);
        if claimed.is_ok() {
            self.write();
        }
    }

    /// Writes the line over the one before.
    fn write(&self) {
        let Ok(text) = self.text() else {
            return;
        };
        self.is_written.store(true, Ordering::SeqCst);
        if let Ok(line) = format!(in self.rt.alloc(); "\r{text}\x1b[K") {
            let _ = self.rt.eprint(line.as_str());
        }
    }

    /// What the line says: which step this is, if there are several, and how far it is.
    fn text(&self) -> Result<String, AllocError> {
        let alloc = self.rt.alloc();
        let jobs = self.jobs.load(Ordering::SeqCst);
        let done = self.done.load(Ordering::SeqCst);
        let is_compacting = self.is_compacting.load(Ordering::SeqCst);
        let text = progress_text(alloc, is_compacting, jobs, done)?;
        let step = self.step.load(Ordering::SeqCst);
        if step == 0 {
            return Ok(text);
        }
        let steps = self.steps.load(Ordering::SeqCst);
        let level = self.level.load(Ordering::SeqCst);
        let next = level.saturating_add(1);
        let left = self.left.load(Ordering::SeqCst).div_ceil(MEGABYTE);
        format!(in alloc;
            "step {step} of about {steps}, level {level} to {next}, {left} MB left; {text}"
        )
    }
}

impl<'r, R: Eprint + Clock + AllocGlobal> Gate for ProgressLine<'r, R> {
    fn pass(&self, _seat: u32, _job: u64) {}

    fn left(&self, _seat: u32, _job: u64) {
        if let Some(begun) = self.begun {
            self.done.fetch_add(1, Ordering::SeqCst);
            self.refresh(begun);
        }
    }
}

impl<'r, R: Eprint + Clock + AllocGlobal> Watch for ProgressLine<'r, R> {
    fn begin(&self, work: Work, jobs: u64) {
        self.is_compacting
            .store(work == Work::Compact, Ordering::SeqCst);
        self.jobs.store(jobs, Ordering::SeqCst);
        self.done.store(0, Ordering::SeqCst);
    }

    fn refused(&self, number: u64) {
        self.refused.keep(number);
    }
}

/// How far the work is, if `done` jobs of both parts together are done. The first part has `jobs`
/// jobs: `ranges merged: 3 of 8`. In the second part: `tables encoded: 12`.
fn progress_text(
    alloc: Global,
    is_compacting: bool,
    jobs: u64,
    done: u64,
) -> Result<String, AllocError> {
    let (first, second) = if is_compacting {
        ("ranges merged", "tables encoded")
    } else {
        ("tables checked", "ranges tested")
    };
    if done <= jobs {
        return format!(in alloc; "{first}: {done} of {jobs}");
    }
    let more = done - jobs;
    format!(in alloc; "{second}: {more}")
}
