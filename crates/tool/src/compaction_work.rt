//! The compaction of a folder, whose outcomes are installed.

use crate::clean_work::{clean_folder, clean_named};
use crate::compaction_notes::{note_of, tell_room};
use crate::folder_change::begin_change;
use crate::outcome_work::{outcome_of, test_of};
use crate::printed_work::{DoneWork, print_compaction, tell_step, unprinted};
use crate::step_printer::StepPrinter;
use answers::CompactionEnd;
use folder::{Bytewise, Fault, FaultName, Version};
use levels::{Descent, Selection, compact_level};
use refusals::sizes_in_turn;
use session::{Host, LAST_LEVEL, Refusal, Session, bytes_of, refused_at};
use std::alloc::Global;
use store::{
    Choice, CompactionStep, SyncedVersion, bottom, checkers_of, compact_opened, next_level,
};
use usage::{CompactLine, CompactWork, Levels};

/// Compacts a level of a folder, or all of them one after the other. What it was opened as is
/// synced once, so that it outlives a crash; if no level is to be compacted, nothing has to.
pub fn compact_folder<R: Host>(
    session: Session<'_, R>,
    line: &CompactLine<'_>,
) -> Result<(), Refusal> {
    let CompactWork::Installed(levels) = line.options.work else {
        return Ok(());
    };
    let (rt, telling) = (session.rt, session.telling);
    if !line.options.testing.is_skipped {
        sizes_in_turn(rt, telling.folder, &session.opened)?;
    }
    if is_due(rt.alloc(), &session.opened.version, levels)? {
        telling.tell_replaceable(rt, &session.opened.version, &[]);
        let change = begin_change(session)?;
        match levels {
            Levels::One(level) | Levels::Whole(level) => compact_one(change, line, levels, level)?,
            Levels::All => compact_all(change, line)?,
        }
    } else {
        nothing_compacted(session, line, levels)?;
    }
    tell_room(rt, telling);
    Ok(())
}

/// Whether there is a level to compact.
fn is_due(alloc: Global, version: &Version, levels: Levels) -> Result<bool, Fault> {
    match levels {
        Levels::One(level) | Levels::Whole(level) => {
            Ok(level < LAST_LEVEL && !version.files::<Bytewise>(alloc, level)?.is_empty())
        }
        Levels::All => Ok(next_level(alloc, version, bottom(alloc, version)?)?.is_some()),
    }
}

/// What is answered if there is no level to compact: why a level can't be; of all levels, files
/// that the version doesn't need are removed, if that is asked for.
fn nothing_compacted<R: Host>(
    session: Session<'_, R>,
    line: &CompactLine<'_>,
    levels: Levels,
) -> Result<(), Refusal> {
    let mut session = session;
    match levels {
        Levels::One(level) | Levels::Whole(level) => {
            outcome_of(&mut session, line, Choice::Picked(level), None)?;
            Err(Fault::of(FaultName::NoInput).into())
        }
        Levels::All => {
            let (rt, telling) = (session.rt, session.telling);
            let progress = session.progress();
            let version = &session.opened.version;
            let mut steps = StepPrinter::new(rt, telling, &progress, version, line)?;
            steps.end()?;
            if line.options.cleans {
                clean_folder(session, line.options.is_json)?;
            }
            Ok(())
        }
    }
}

/// Compacts a level of a folder, and prints what was made.
fn compact_one<R: Host>(
    change: Session<'_, R, SyncedVersion>,
    line: &CompactLine<'_>,
    levels: Levels,
    level: u64,
) -> Result<(), Refusal> {
    let mut change = change;
    let (rt, telling) = (change.rt, change.telling);
    let begun = telling.begin(rt);
    let step = step_made(&mut change, line, levels, level)?;
    tell_step(rt, level, begun);
    let (before, outputs, deleted) = (&change.opened.version, &step.outputs, &step.deleted);
    let note = note_of(rt, telling, before, outputs, deleted);
    let end = CompactionEnd::Installed(step.manifest);
    let is_json = line.options.is_json;
    if let Err(refusal) = print_compaction(rt, level, outputs, deleted, end, is_json) {
        return Err(unprinted(rt.alloc(), telling.folder, DoneWork::Version, refusal));
    }
    if let Some(note) = note {
        note.tell(rt, telling);
    }
    if line.options.cleans {
        let manifest = change.opened.version.next_file();
        clean_named(rt, telling.folder, &mut change.disk, manifest, is_json)?;
    }
    Ok(())
}

/// Compacts a level of a folder, or all of it, and installs the outcome. What the folder was opened
/// as is tested before, if that is asked for; else nothing but the inputs is read.
fn step_made<R: Host>(
    change: &mut Session<'_, R, SyncedVersion>,
    line: &CompactLine<'_>,
    levels: Levels,
    level: u64,
) -> Result<CompactionStep, Refusal> {
    let rt = change.rt;
    let progress = change.progress();
    let (settings, testing) = (&line.settings, &line.options.testing);
    let workers = checkers_of(rt, rt.alloc(), settings.workers, &progress);
    let memory = bytes_of(testing.memory);
    let folder = &mut change.disk;
    let opened = &change.opened;
    let made = match levels {
        Levels::Whole(level) => compact_level(&workers, folder, opened, level, settings, memory),
        _ => compact_opened(&workers, folder, opened, level, settings, test_of(testing)),
    };
    change.ended(&progress, made)
}

/// Compacts the first level that has a file, again and again, until all files are at the bottom.
/// Each step is printed when it is installed, and each file that is removed after it.
fn compact_all<R: Host>(
    change: Session<'_, R, SyncedVersion>,
    line: &CompactLine<'_>,
) -> Result<(), Refusal> {
    let progress = change.progress();
    let Session {
        rt,
        telling,
        mut disk,
        opened,
        ..
    } = change;
    let mut steps = StepPrinter::new(rt, telling, &progress, &opened.version, line)?;
    let testing = &line.options.testing;
    let descent = Descent {
        selection: Selection::Fitting(bytes_of(testing.memory)),
        settings: line.settings,
        test: test_of(testing),
    };
    let workers = checkers_of(rt, rt.alloc(), line.settings.workers, &progress);
    let end = levels::compact_levels(&workers, &mut disk, opened, &descent, &mut steps);
    progress.erase();
    match end {
        Ok(_) => steps.end(),
        Err(fault) => Err(refused_at(rt, telling.folder, &disk, fault)),
    }
}
