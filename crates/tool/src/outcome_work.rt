//! A compaction whose outcome goes into a folder of its own.

use crate::compaction_notes::note_of;
use crate::out_folder::fill;
use crate::printed_work::{DoneWork, print_compaction, tell_step, unprinted};
use answers::CompactionEnd;
use folder::FaultName;
use refusals::sizes_in_turn;
use session::{Host, Opened, Refusal, RefusalText, Session, bytes_of, in_words, said};
use store::{Choice, CompactionOutcome, EDIT, OutcomeSettings, checkers_of, outcome};
use usage::{CompactLine, CompactWork, Testing};

/// Compacts a level of a folder, which is only read, and writes the outcome into another one. What
/// was made is printed then. The version is tested before, if that is asked for.
pub fn write_compaction<R: Host>(
    session: &mut Session<'_, R, Opened>,
    line: &CompactLine<'_>,
) -> Result<(), Refusal> {
    let CompactWork::Written {
        level,
        part,
        out,
        first_number,
    } = line.options.work
    else {
        return Ok(());
    };
    let (rt, telling) = (session.rt, session.telling);
    if !line.options.testing.is_skipped {
        sizes_in_turn(rt, telling.folder, &session.opened)?;
    }
    let choice = match part {
        None => Choice::Picked(level),
        Some(number) => Choice::Part(level, number),
    };
    let made = match outcome_of(session, line, choice, first_number) {
        Ok(made) => made,
        Err(refusal) => {
            return Err(choice_explained(session, choice, first_number, refusal));
        }
    };
    fill(rt, out, telling.folder, &made.outcome)?;
    tell_step(rt, level, session.begun);
    print_made(session, line, level, out, &made)
}

/// Prints the outcome of the compaction of a level, which is written, and tells of it.
fn print_made<R: Host>(
    session: &Session<'_, R, Opened>,
    line: &CompactLine<'_>,
    level: u64,
    out: &str,
    made: &CompactionOutcome,
) -> Result<(), Refusal> {
    let (rt, telling) = (session.rt, session.telling);
    let (outputs, deleted) = (&made.outputs, &made.deleted);
    let note = note_of(rt, telling, &session.opened.version, outputs, deleted);
    let end = CompactionEnd::Written(EDIT);
    if let Err(refusal) = print_compaction(rt, level, outputs, deleted, end, line.options.is_json) {
        return Err(unprinted(rt.alloc(), out, DoneWork::Outcome, refusal));
    }
    if let Some(note) = note {
        note.tell(rt, telling);
    }
    Ok(())
}

/// The outcome of the compaction of a choice, whose first new table has this number, if it is
/// given. The version is tested before, if that is asked for, but for the sizes of its tables. If
/// it isn't, nothing but the inputs is read.
pub(crate) fn outcome_of<R: Host>(
    session: &mut Session<'_, R, Opened>,
    line: &CompactLine<'_>,
    choice: Choice,
    first: Option<u64>,
) -> Result<CompactionOutcome, Refusal> {
    let rt = session.rt;
    let progress = session.progress();
    let asked = OutcomeSettings {
        first,
        settings: line.settings,
    };
    let made = outcome(
        &checkers_of(rt, rt.alloc(), line.settings.workers, &progress),
        &mut session.disk,
        &session.opened,
        choice,
        &asked,
        test_of(&line.options.testing),
    );
    session.ended(&progress, made)
}

/// How many bytes of tables the test of a version holds, if it is asked for.
pub(crate) fn test_of(testing: &Testing) -> Option<u64> {
    if testing.is_skipped {
        return None;
    }
    Some(bytes_of(testing.memory))
}

/// The refusal, with what is told of a part that isn't there, or of a first number that can't be
/// used.
fn choice_explained<R: Host>(
    session: &Session<'_, R, Opened>,
    choice: Choice,
    first: Option<u64>,
    refusal: Refusal,
) -> Refusal {
    let (alloc, folder) = (session.rt.alloc(), session.telling.folder);
    let next = session.opened.version.next_file().unwrap_or(0);
    let told = match (refusal.fault.name, choice, first) {
        (FaultName::NoInput, Choice::Part(level, part), _) => {
            let wrong = format!(in alloc; "level {level} has no part {part}");
            RefusalText::new(alloc, folder, wrong, "job --parts shows which it has")
        }
        (FaultName::Numbers, _, Some(first)) if first <= next => {
            let wrong = format!(in alloc;
                "--first-number {first} is not above the version's next file number, {next}"
            );
            RefusalText::new(alloc, folder, wrong, "give a greater number")
        }
        (FaultName::Numbers, _, Some(_)) => {
            let wrong = in_words(FaultName::Numbers).wrong;
            said(alloc, folder, wrong, "give a smaller --first-number")
        }
        _ => return refusal,
    };
    Refusal::new(refusal.fault, told)
}
