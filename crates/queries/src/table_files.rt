//! The work on the file of a table.

use answers::{dump, json_line, table_entries, valid_json, verify_table};
use checks::{Fault, FaultName};
use install::CURRENT;
use session::{Answer, CLOSE_ONCE, Refusal, Words, read_file, told};
use std::alloc::Global;
use std::rt::Files;
use usage::{DumpLine, TableLine};

/// The lines of the entries of a table.
pub fn table_answer<R: Files + AllocGlobal>(rt: &R, line: &DumpLine<'_>) -> Answer {
    let bytes = read_file(rt, line.table)?;
    let lines = dump(rt.alloc(), line.spelling, &bytes);
    lines.map_err(|fault| refusal_of(rt.alloc(), line.table, fault))
}

/// Tests whether a file is a table, and answers the line of one, as JSON if that is asked for.
pub fn table_verdict<R: Files + AllocGlobal>(rt: &R, line: &TableLine<'_>) -> Answer {
    let bytes = read_file(rt, line.table)?;
    let verdict = if line.is_json {
        json_verdict(rt.alloc(), &bytes)
    } else {
        verify_table(rt.alloc(), &bytes)
    };
    verdict.map_err(|fault| refusal_of(rt.alloc(), line.table, fault))
}

/// The JSON line of a table.
fn json_verdict(alloc: Global, bytes: &[u8]) -> Result<Vec<u8>, Fault> {
    let object = valid_json(alloc, table_entries(alloc, bytes)?)?;
    Ok(json_line(alloc, &object)?.into_bytes())
}

/// The refusal of a file as a table. If its name is that of another file of a database, it is told
/// what that is.
fn refusal_of(alloc: Global, path: &str, fault: Fault) -> Refusal {
    match of_other_file(path) {
        Some(words) if fault.name != FaultName::Memory => {
            Refusal::new(fault, told(alloc, path, words))
        }
        _ => Refusal::of_file(alloc, path, fault),
    }
}

/// The words of a file that has the name of a manifest, of a log or of CURRENT. None of any other.
fn of_other_file(path: &str) -> Option<Words> {
    let name = path.rsplit('/').next().unwrap_or(path);
    if name.starts_with("MANIFEST-") || name == CURRENT {
        return Some(Words {
            wrong: "it is no table, but a manifest, or names one",
            remedy: "the command manifest prints what the manifest of a folder says",
        });
    }
    if name.ends_with(".log") {
        return Some(Words {
            wrong: "it is no table, but a log, which no command reads",
            remedy: CLOSE_ONCE,
        });
    }
    None
}
