//! What is told of a compaction on the standard error: what was made of which files, that filters
//! are gone, that there was nothing to do, and which files can go.

use answers::FileTotal;
use disk::{Disk, SystemFiles};
use folder::{Bytewise, Fault, FileMeta, LEVELS, Version};
use session::{
    LAST_LEVEL, Refusal, Telling, deleted_files, have_filter, open_in, total_text, unneeded_files,
};
use std::alloc::Global;
use std::collections::BTreeSet;
use store::DeletedFile;

/// All files of a version.
pub(crate) fn version_total(alloc: Global, version: &Version) -> Result<FileTotal, Fault> {
    let mut total = FileTotal::none();
    for level in 0..LEVELS {
        total = with_files(total, &version.files::<Bytewise>(alloc, level)?);
    }
    Ok(total)
}

/// The same with these files too.
fn with_files(mut total: FileTotal, files: &[&FileMeta]) -> FileTotal {
    for file in files {
        total = total.with(file.size);
    }
    total
}

/// Files of which these are the numbers and the lengths.
fn total_of(files: &[(u64, u64)]) -> FileTotal {
    let mut total = FileTotal::none();
    for (_, size) in files {
        total = total.with(*size);
    }
    total
}

/// What is told of a compaction after its lines.
#[derive(Clone, Copy)]
pub(crate) struct CompactionNote {
    /// The inputs.
    taken: FileTotal,
    /// The new tables.
    made: FileTotal,
    /// Whether an input has a filter block, and no new table has.
    loses_filters: bool,
}

/// What is to be told of the compaction of the version `before` that made these `outputs` of the
/// files that it `deleted`. The ends of its tables are read. None if nothing is, or if it can't be
/// known.
pub(crate) fn note_of<R: SystemFiles + AllocGlobal>(
    rt: &R,
    telling: Telling<'_>,
    before: &Version,
    outputs: &[(u64, u64)],
    deleted: &BTreeSet<DeletedFile>,
) -> Option<CompactionNote> {
    if telling.is_quiet {
        return None;
    }
    let alloc = rt.alloc();
    let inputs = deleted_files(alloc, before, deleted).ok()?;
    let mut folder = Disk::new(rt, telling.folder);
    Some(CompactionNote {
        taken: total_of(&inputs),
        made: total_of(outputs),
        loses_filters: have_filter(alloc, &mut folder, &inputs) == Ok(true)
            && have_filter(alloc, &mut folder, outputs) == Ok(false),
    })
}

impl CompactionNote {
    /// Tells what was made of which files, and if filters are gone.
    pub fn tell<R: Eprint + AllocGlobal>(self, rt: &R, telling: Telling<'_>) {
        tell_made(rt, telling, self.taken, self.made);
        self.tell_filters(rt, telling);
    }

    /// Tells if filters are gone, and answers whether they are.
    pub fn tell_filters<R: Eprint>(self, rt: &R, telling: Telling<'_>) -> bool {
        let folder = telling.folder;
        if self.loses_filters {
            let _ = eprintln!(rt;
                "sedvokt: {folder}: the old tables have filters, and the new ones have none: a \
                    lookup of a key that is not there reads a block of each table that it looks in"
            );
        }
        self.loses_filters
    }
}

/// Tells what was made of which files.
pub(crate) fn tell_made<R: Eprint + AllocGlobal>(
    rt: &R,
    telling: Telling<'_>,
    before: FileTotal,
    after: FileTotal,
) {
    let alloc = rt.alloc();
    if !telling.is_quiet
        && let Ok(before) = total_text(alloc, before.files, before.bytes)
        && let Ok(after) = total_text(alloc, after.files, after.bytes)
    {
        let _ = eprintln!(rt; "{before} into {after}");
    }
}

/// Tells how many files the version of a folder doesn't need, and what removes them. Nothing is
/// told if there is none, or if they can't be counted.
pub(crate) fn tell_room<R: SystemFiles + Eprint + AllocGlobal>(rt: &R, telling: Telling<'_>) {
    let folder = telling.folder;
    if !telling.is_quiet
        && let Ok(total) = unneeded_total(rt, folder)
        && total.files > 0
        && let Ok(files) = total_text(rt.alloc(), total.files, total.bytes)
    {
        let _ = eprintln!(rt; "{files} can go: sedvokt clean {folder}");
    }
}

/// The files of a folder that its version doesn't need.
fn unneeded_total<R: SystemFiles + AllocGlobal>(
    rt: &R,
    folder: &str,
) -> Result<FileTotal, Refusal> {
    let opened = open_in(rt, folder, &mut Disk::new(rt, folder))?;
    let mut total = FileTotal::none();
    for bytes in &unneeded_files(rt, folder, &opened)?.lengths {
        total = total.with(*bytes);
    }
    Ok(total)
}

/// Tells that there was no step to do, if all `files` are at the `bottom`.
pub(crate) fn tell_no_step<R: Eprint>(rt: &R, telling: Telling<'_>, bottom: u64, files: u64) {
    let folder = telling.folder;
    if telling.is_quiet {
        return;
    }
    if files == 0 {
        let _ = eprintln!(rt;
            "sedvokt: {folder}: there is nothing to compact: no level has a file"
        );
    } else if bottom >= LAST_LEVEL {
        let _ = eprintln!(rt;
            "sedvokt: {folder}: all files are at level {bottom}, the last one, where nothing is \
                compacted"
        );
    } else {
        let rewritten = if files == 1 {
            "the file"
        } else {
            "some of them, and --all then the others"
        };
        let _ = eprintln!(rt;
            "sedvokt: {folder}: all files are at level {bottom}, where --all leaves them; \
                compact --level {bottom} rewrites {rewritten}"
        );
    }
}
