//! All entries of a key in a folder.

use crate::row_printer::push_logs;
use crate::version_printer::test_unless_skipped;
use answers::{EntryPlace, entry_json, entry_line, json_line};
use checks::Fault;
use scan::{Kind, PlacedEntry, key_history};
use session::{Answer, Bytewise, Disk, Host, Order, Session, Shortlex};
use std::alloc::Global;
use usage::HistoryLine;

/// What is printed of all entries of a key in a folder, the newest first. After those of JSON comes
/// the line of the logs, if there is one with writes.
pub fn history_answer<R: Host>(session: &mut Session<'_, R>, line: &HistoryLine<'_>) -> Answer {
    test_unless_skipped(session, &line.testing)?;
    let alloc = session.rt.alloc();
    let found = history_of(session, &line.key);
    let mut lines = Vec::new(alloc);
    for entry in &session.done(found)? {
        lines.extend_from_slice(entry_text(alloc, line, entry)?.as_bytes())?;
    }
    push_logs(alloc, &mut lines, line.is_json, session.logs)?;
    Ok(lines)
}

/// All entries of a key, the newest first.
fn history_of<'r, R: Host>(
    session: &mut Session<'r, R>,
    key: &[u8],
) -> Result<Vec<PlacedEntry>, Fault> {
    let alloc = session.rt.alloc();
    let version = &session.opened.version;
    let disk = &mut session.disk;
    match session.opened.order {
        Order::Bytewise => key_history::<Bytewise, Disk<'r, R>>(alloc, disk, version, key),
        Order::Shortlex => key_history::<Shortlex, Disk<'r, R>>(alloc, disk, version, key),
    }
}

/// What is printed of an entry.
fn entry_text(alloc: Global, line: &HistoryLine<'_>, found: &PlacedEntry) -> Result<String, Fault> {
    let key = found.entry.key.as_key();
    let place = EntryPlace {
        level: found.level,
        file: found.file,
        sequence: key.sequence(),
    };
    let value = match key.kind() {
        Kind::Put => Some(found.entry.value.as_slice()),
        Kind::Delete => None,
    };
    if !line.is_json {
        return entry_line(alloc, line.spelling, place, value);
    }
    json_line(alloc, &entry_json(alloc, line.spelling, place, value)?)
}
