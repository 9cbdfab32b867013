//! The installation of outcomes.

use crate::clean_work::clean_named;
use crate::compaction_notes::{note_of, tell_room};
use crate::folder_change::begin_change;
use crate::outcome_refusal::outcome_explained;
use crate::printed_work::{DoneWork, print_compaction, unprinted};
use adoption::{
    Comparison, TakenOutcome, TakenOutcomes, begin_taking, install_taken, take_outcome,
};
use answers::CompactionEnd;
use disk::Disk;
use folder::Fault;
use refusals::explained;
use session::{
    Host, Opened, ProgressLine, Refusal, Session, Telling, bytes_of, refused_at, sizes_tested,
    tell_time,
};
use store::{CompactionStep, SyncedVersion, checkers};
use usage::InstallLine;

/// What is asked for, and who watches.
#[derive(Drop)]
struct InstallTask<'t, 'x, R> {
    rt: &'x R,
    telling: Telling<'x>,
    line: &'x InstallLine<'x>,
    progress: &'t ProgressLine<'x, R>,
    opened: &'t SyncedVersion,
}

/// Installs in a folder the outcomes that others have, by one manifest, and prints what was
/// installed. What the folder was opened as is synced, so that it outlives a crash.
pub fn install_outcomes<'x, R: Host>(
    session: Session<'x, R, Opened>,
    line: &'x InstallLine<'x>,
) -> Result<(), Refusal> {
    let (rt, telling) = (session.rt, session.telling);
    let Session {
        begun,
        mut disk,
        opened,
        ..
    } = match to_install(session) {
        Ok(change) => change,
        Err(refusal) => return Err(explained(rt, telling, refusal)),
    };
    let progress = ProgressLine::new(rt, telling);
    let task = InstallTask {
        rt,
        telling,
        line,
        progress: &progress,
        opened: &opened,
    };
    let step = outcomes_installed(&task, &mut disk)?;
    tell_time(rt, "install", begun);
    tell_installed(&task, &mut disk, &step)
}

/// The folder of a session, in which outcomes are to be installed. No table is missing.
fn to_install<R: Host>(
    session: Session<'_, R, Opened>,
) -> Result<Session<'_, R, SyncedVersion>, Refusal> {
    let (rt, telling) = (session.rt, session.telling);
    sizes_tested(rt, telling.folder, &session.opened)?;
    telling.tell_replaceable(rt, &session.opened.version, &[]);
    begin_change(session)
}

/// Installs all outcomes in a folder.
fn outcomes_installed<'x, R: Host>(
    task: &InstallTask<'_, 'x, R>,
    folder: &mut Disk<'x, R>,
) -> Result<CompactionStep, Refusal> {
    let (rt, line) = (task.rt, task.line);
    let mut taken = no_outcome(task, folder)?;
    for (done, out) in line.outs.iter().enumerate() {
        taken = with_outcome(task, folder, taken, done as u64, out)?;
    }
    let workers = checkers(rt, rt.alloc(), task.progress);
    let installed = install_taken(&workers, folder, taken, bytes_of(line.testing.memory));
    task.progress.erase();
    match installed {
        Ok(step) => Ok(step),
        Err(fault) => {
            let refusal = refused_at(rt, task.telling.folder, folder, fault);
            let last = line.outs.len().saturating_sub(1) as u64;
            Err(outcome_explained(rt, task.telling, line, last, task.opened, refusal))
        }
    }
}

/// No outcome yet. The version is tested, if outputs are to be compared.
fn no_outcome<'t, 'x, R: Host>(
    task: &InstallTask<'t, 'x, R>,
    folder: &mut Disk<'x, R>,
) -> Result<TakenOutcomes<'t>, Refusal>
where
    'x: 't,
{
    let (rt, line) = (task.rt, task.line);
    let comparison = if line.testing.is_skipped {
        Comparison::LeftOut
    } else {
        Comparison::With(line.snapshots)
    };
    let workers = checkers(rt, rt.alloc(), task.progress);
    let memory = bytes_of(line.testing.memory);
    match begin_taking(&workers, folder, task.opened, comparison, memory) {
        Ok(taken) => Ok(taken),
        Err(fault) => {
            task.progress.erase();
            let refusal = refused_at(rt, task.telling.folder, folder, fault);
            Err(explained(rt, task.telling, refusal))
        }
    }
}

/// The same with the outcome of one more folder, after as many others.
fn with_outcome<'x, 'o, R: Host>(
    task: &InstallTask<'_, 'x, R>,
    folder: &mut Disk<'x, R>,
    before: TakenOutcomes<'o>,
    done: u64,
    out: &'x str,
) -> Result<TakenOutcomes<'o>, Refusal> {
    let rt = task.rt;
    let mut source = Disk::new(rt, out);
    let workers = checkers(rt, rt.alloc(), task.progress);
    match take_outcome(&workers, folder, &mut source, before) {
        Ok(TakenOutcome { taken, made: _made }) => Ok(taken),
        Err(fault) => Err(refused_of_either(task, out, done, &source, folder, fault)),
    }
}

/// The refusal of the outcome after as many others, at the folder of the two whose call failed.
fn refused_of_either<'x, R: Host>(
    task: &InstallTask<'_, 'x, R>,
    out: &'x str,
    done: u64,
    source: &Disk<'x, R>,
    folder: &Disk<'x, R>,
    fault: Fault,
) -> Refusal {
    let (rt, telling) = (task.rt, task.telling);
    task.progress.erase();
    let refusal = if source.last_failure().is_some() {
        refused_at(rt, out, source, fault)
    } else {
        refused_at(rt, telling.folder, folder, fault)
    };
    outcome_explained(rt, telling, task.line, done, task.opened, refusal)
}

/// Prints what was installed, and removes files after it if that is asked for.
fn tell_installed<'x, R: Host>(
    task: &InstallTask<'_, 'x, R>,
    folder: &mut Disk<'x, R>,
    step: &CompactionStep,
) -> Result<(), Refusal> {
    let (rt, telling, before) = (task.rt, task.telling, &task.opened.version);
    let note = note_of(rt, telling, before, &step.outputs, &step.deleted);
    let end = CompactionEnd::Installed(step.manifest);
    if let Err(refusal) = print_compaction(rt, 0, &step.outputs, &step.deleted, end, false) {
        return Err(unprinted(rt.alloc(), telling.folder, DoneWork::Version, refusal));
    }
    if let Some(note) = note {
        note.tell_filters(rt, telling);
    }
    if task.line.cleans {
        clean_named(rt, telling.folder, folder, before.next_file(), false)?;
    }
    tell_room(rt, telling);
    Ok(())
}
