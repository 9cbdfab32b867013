//! The values of keys in a folder.

use crate::row_printer::AT_ONCE;
use crate::version_printer::test_unless_skipped;
use answers::{ValueForm, json_line, push_named_value, unverified_value, value_json};
use checks::Fault;
use session::{Answer, Host, Refusal, Session, print_lines};
use texts::{Spelling, text_of};
use usage::{GetLine, KeySource};

/// The line of a key without a value. No value has it as its hexadecimal digits.
const NO_VALUE: &[u8] = b"none\n";

/// Prints the values of these keys in a folder, in their order, and answers what is left to print.
/// Those before a refusal are printed. The version is tested before, if that is asked for.
pub fn values_answer<R: Host>(
    session: &mut Session<'_, R>,
    line: &GetLine<'_>,
    keys: &[Vec<u8>],
) -> Answer {
    test_unless_skipped(session, &line.testing)?;
    let rt = session.rt;
    let mut lines = Vec::new(rt.alloc());
    for key in keys {
        if let Err(refusal) = push_value(session, &mut lines, line, key) {
            print_lines(rt, &lines)?;
            return Err(refusal);
        }
        if lines.len() >= AT_ONCE {
            print_lines(rt, &lines)?;
            lines.clear();
        }
    }
    Ok(lines)
}

/// Appends what is printed of the value of a key. Its line has the key too, unless it is the only
/// one that is given.
fn push_value<R: Host>(
    session: &mut Session<'_, R>,
    lines: &mut Vec<u8>,
    line: &GetLine<'_>,
    key: &[u8],
) -> Result<(), Refusal> {
    let form = if line.is_raw || line.is_json {
        ValueForm::Raw
    } else {
        ValueForm::Line(line.spelling)
    };
    let answer = value_of(session, line, key, form);
    let answer = session.done(answer)?;
    let answer = answer.as_deref();
    if line.is_json {
        let alloc = session.rt.alloc();
        let object = value_json(alloc, line.spelling, key, answer, session.logs)?;
        lines.extend_from_slice(json_line(alloc, &object)?.as_bytes())?;
    } else if line.is_raw || is_alone(line) {
        lines.extend_from_slice(answer.unwrap_or(&[]))?;
    } else {
        push_named_value(lines, line.spelling, key, answer.unwrap_or(NO_VALUE))?;
    }
    if is_alone(line) {
        tell_absent(session, line, key, answer);
    }
    Ok(())
}

/// The value of a `key` at a line's sequence, without a test of the version.
fn value_of<R: Host>(
    session: &mut Session<'_, R>,
    line: &GetLine<'_>,
    key: &[u8],
    form: ValueForm,
) -> Result<Option<Vec<u8>>, Fault> {
    let (folder, opened) = (&mut session.disk, &session.opened);
    unverified_value(session.rt.alloc(), folder, opened, key, line.at, form)
}

/// Whether one key alone is given.
fn is_alone(line: &GetLine<'_>) -> bool {
    matches!(&line.keys, KeySource::Given(keys) if keys.len() == 1)
}

/// Tells that a key has no value, if its line doesn't, and if it may have been meant as text.
fn tell_absent<R: Host>(
    session: &mut Session<'_, R>,
    line: &GetLine<'_>,
    key: &[u8],
    answer: Option<&[u8]>,
) {
    let (rt, folder) = (session.rt, session.telling.folder);
    let is_line = !line.is_raw && !line.is_json;
    let is_found = matches!(answer, Some(bytes) if !is_line || bytes != NO_VALUE);
    if session.telling.is_quiet || is_found {
        return;
    }
    if line.is_raw {
        let _ = eprintln!(rt; "sedvokt: {folder}: the key has no value");
    }
    if line.spelling == Spelling::Hexadecimal && have_value(session, line, key) == Ok(true) {
        let _ = eprintln!(rt;
            "sedvokt: {folder}: the key was read as hexadecimal; for text give --text"
        );
    }
}

/// Whether the hexadecimal digits of a `key`, in either case, are a key that has a value.
fn have_value<R: Host>(
    session: &mut Session<'_, R>,
    line: &GetLine<'_>,
    key: &[u8],
) -> Result<bool, Fault> {
    let alloc = session.rt.alloc();
    let lower = text_of(alloc, key)?;
    if value_of(session, line, lower.as_bytes(), ValueForm::Raw)?.is_some() {
        return Ok(true);
    }
    let upper = lower.to_ascii_uppercase(alloc)?;
    Ok(value_of(session, line, upper.as_bytes(), ValueForm::Raw)?.is_some())
}
