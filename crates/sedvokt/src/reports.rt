//! What is told of a refusal and of a fault of usage, with its status.

use answers::{Told, refusal_json, status};
use coding::{Fault, FaultName};
use session::{Refusal, in_words};
use usage::Usage;

/// The status of work that was done, and of help or a version that was asked for.
pub(crate) const DONE: u8 = 0;

/// The status of a fault of usage.
const USAGE: u8 = 2;

/// What is told of a key that has to be hexadecimal digits, and isn't.
const NO_DIGITS: &str = "usage: key is not hexadecimal";

/// What is told to be refused if no command is known.
pub(crate) const COMMAND_LINE: &str = "the command line";

/// Tells a refusal of work on `path`, but for its name if that is told already, and answers its
/// status.
pub(crate) fn report_refusal<R: Eprint + AllocGlobal>(
    rt: &R,
    path: &str,
    is_json: bool,
    refusal: Refusal,
) -> u8 {
    let mut refusal = refusal;
    refusal.tell_name(rt);
    if !refusal.is_silent {
        let parts = parts_of(path, &refusal);
        if is_json {
            tell_json(rt, &refusal.fault, parts);
        } else {
            tell_text(rt, parts);
        }
    }
    status(&refusal.fault)
}

/// A path, what is wrong with it, and what to do, if that is told.
type Parts<'a> = (&'a str, &'a str, Option<&'a str>);

/// What is told of a refusal of work on `path`.
fn parts_of<'a>(path: &'a str, refusal: &'a Refusal) -> Parts<'a> {
    match &refusal.told {
        Some(text) => (text.path.as_str(), text.wrong.as_str(), text.remedy),
        None => {
            let words = in_words(refusal.fault.name);
            (path, words.wrong, Some(words.remedy))
        }
    }
}

/// Tells them as a JSON object. If there is no memory for that, nothing is told.
fn tell_json<R: Eprint + AllocGlobal>(rt: &R, fault: &Fault, parts: Parts<'_>) {
    let (path, wrong, remedy) = parts;
    let told = Told {
        path: Some(path),
        wrong: Some(wrong),
        remedy,
    };
    let alloc = rt.alloc();
    let Ok(name) = format!(in alloc; "{fault}") else {
        return;
    };
    if let Ok(line) = refusal_json(alloc, name.as_str(), told) {
        let _ = rt.eprint(line.as_str());
    }
}

/// Tells them as text.
fn tell_text<R: Eprint>(rt: &R, parts: Parts<'_>) {
    let (path, wrong, remedy) = parts;
    let _ = match remedy {
        Some(remedy) => eprintln!(rt; "sedvokt: {path}: {wrong}; {remedy}"),
        None => eprintln!(rt; "sedvokt: {path}: {wrong}"),
    };
}

/// Tells a fault of usage, and answers its status.
pub(crate) fn report_misuse<R: Eprint>(rt: &R, text: &str) -> u8 {
    let _ = rt.eprintln(text);
    USAGE
}

/// Tells that something is where an empty folder has to be, and answers the status.
pub(crate) fn report_taken<R: Eprint>(rt: &R, out: &str) -> u8 {
    let status = report_misuse(rt, "usage: OUT is not an empty folder");
    let _ = eprintln!(rt; "sedvokt: {out}: give an empty folder, or a path where nothing is");
    status
}

/// Tells why a command line asks for nothing, and answers the status.
pub(crate) fn report_usage<R: Print + Eprint + AllocGlobal>(rt: &R, usage: Usage) -> u8 {
    match usage {
        Usage::Key => report_misuse(rt, NO_DIGITS),
        Usage::Hexadecimal => {
            let status = report_misuse(rt, NO_DIGITS);
            let _ = rt.eprintln("sedvokt: with --text a key is given as text");
            status
        }
        Usage::Text => {
            let status = report_misuse(rt, "usage: key is not text");
            let _ = rt.eprintln(
                "sedvokt: with --text a byte is given as \\xHH, a backslash as \\x5c, and the \
                    empty key as '\"\"'",
            );
            status
        }
        Usage::Snapshots => report_misuse(rt, "usage: snapshots are not numbers"),
        Usage::Memory => {
            let refusal = Refusal::from(Fault::of(FaultName::Memory));
            report_refusal(rt, COMMAND_LINE, false, refusal)
        }
        Usage::Clap(error) if error.use_stderr() => {
            let _ = rt.eprint(&error);
            USAGE
        }
        Usage::Clap(error) => match rt.print(&error) {
            Ok(()) => DONE,
            Err(error) => {
                let refusal = Refusal::of_output(rt.alloc(), &error);
                report_refusal(rt, COMMAND_LINE, false, refusal)
            }
        },
    }
}
