//! What is printed of work that is done, and what is told if it can't be printed.

use answers::{CompactionEnd, compaction_json, compaction_lines, json_line};
use session::{Beginning, Refusal, RefusalText, print_lines, tell_time};
use std::alloc::Global;
use std::collections::BTreeSet;
use std::time::Clock;
use store::DeletedFile;

/// Work that is done by the time its lines can't be written.
#[derive(Clone, Copy)]
pub(crate) enum DoneWork {
    /// A new version is installed.
    Version,
    /// The same, and others were to follow.
    Step,
    /// An outcome is in its folder.
    Outcome,
    /// Files are removed.
    Removal,
}

/// The refusal of lines of work in a folder, which is done.
pub(crate) fn unprinted(alloc: Global, folder: &str, done: DoneWork, refusal: Refusal) -> Refusal {
    let (wrong, remedy) = match done {
        DoneWork::Version => (
            "the new version is installed, but its lines could not be written",
            Some("manifest shows it"),
        ),
        DoneWork::Step => (
            "the step is installed, but its lines could not be written, so the work stopped",
            Some("run it again"),
        ),
        DoneWork::Outcome => (
            "the outcome is written, but its lines could not be written",
            None,
        ),
        DoneWork::Removal => (
            "the files are removed, but their lines could not be written",
            None,
        ),
    };
    let wrong = String::from_str(alloc, wrong);
    Refusal::new(refusal.fault, RefusalText::of(alloc, folder, wrong, remedy))
}

/// Prints the lines of a compaction of a level, or its JSON line.
pub(crate) fn print_compaction<R: Print + AllocGlobal>(
    rt: &R,
    level: u64,
    outputs: &[(u64, u64)],
    deleted: &BTreeSet<DeletedFile>,
    end: CompactionEnd<'_>,
    is_json: bool,
) -> Result<(), Refusal> {
    let alloc = rt.alloc();
    let text = if is_json {
        let object = compaction_json(alloc, level, outputs, deleted, end)?;
        json_line(alloc, &object)?
    } else {
        compaction_lines(alloc, outputs, deleted, end)?
    };
    print_lines(rt, text.as_bytes())
}

/// Tells how long the compaction of a level took, if its beginning is known.
pub(crate) fn tell_step<R: Eprint + Clock + AllocGlobal>(
    rt: &R,
    level: u64,
    begun: Option<Beginning>,
) {
    if let Ok(step) = format!(in rt.alloc(); "compact --level {level}") {
        tell_time(rt, step.as_str(), begun);
    }
}
