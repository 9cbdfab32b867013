//! The version of a folder, and its test.

use crate::fault_printer::print_faults;
use answers::{json_line, lawful_json, lawful_line, manifest_lines, version_json};
use checks::{VersionTotals, checkers, test_by_order};
use refusals::sizes_in_turn;
use session::{Answer, Host, Refusal, Session, bytes_of, missing_log};
use usage::{ManifestLine, Testing, VerdictForm, VerifyLine};

/// What is printed of the version of a folder.
pub fn version_answer<R: Host>(session: &Session<'_, R>, line: &ManifestLine<'_>) -> Answer {
    let alloc = session.rt.alloc();
    let (order, version) = (session.opened.order, &session.opened.version);
    if !line.is_json {
        return Ok(manifest_lines(alloc, line.spelling, order, version)?);
    }
    let object = version_json(alloc, line.spelling, order, version)?;
    Ok(json_line(alloc, &object)?.into_bytes())
}

/// Tests the version of a folder. The answer is what is printed of a lawful one: a line, or JSON.
pub fn verdict_answer<R: Host>(session: &mut Session<'_, R>, line: &VerifyLine<'_>) -> Answer {
    let memory = bytes_of(line.memory);
    if line.form == VerdictForm::AllFaults {
        return print_faults(session, memory);
    }
    let tested = version_tested(session, memory)?;
    let (rt, logs) = (session.rt, session.logs);
    if line.form == VerdictForm::Line {
        return Ok(lawful_line(rt.alloc(), tested)?);
    }
    let missing = match logs {
        Some(_) => missing_log(rt, session.telling.folder, &session.opened.version)?,
        None => None,
    };
    let object = lawful_json(rt.alloc(), tested.files, tested.entries, logs, missing)?;
    Ok(json_line(rt.alloc(), &object)?.into_bytes())
}

/// Tests a version before it is read, unless that is left out.
pub(crate) fn test_unless_skipped<R: Host>(
    session: &mut Session<'_, R>,
    testing: &Testing,
) -> Result<(), Refusal> {
    if !testing.is_skipped {
        version_tested(session, bytes_of(testing.memory))?;
    }
    Ok(())
}

/// Tests the sizes of a version's tables, and then the version.
fn version_tested<R: Host>(
    session: &mut Session<'_, R>,
    memory: u64,
) -> Result<VersionTotals, Refusal> {
    let rt = session.rt;
    sizes_in_turn(rt, session.telling.folder, &session.opened)?;
    let progress = session.progress();
    let workers = checkers(rt, rt.alloc(), &progress);
    let (order, version) = (session.opened.order, &session.opened.version);
    let tested = test_by_order(&workers, &mut session.disk, order, version, memory);
    session.ended(&progress, tested)
}
