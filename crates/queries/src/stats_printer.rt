//! The statistics of a folder.

use answers::{json_line, stats_json, stats_text};
use checks::checkers;
use refusals::sizes_in_turn;
use scan::{FileTotal, version_stats};
use session::{Answer, Host, Refusal, Session, bytes_of, logs_with_writes, unneeded_files};
use usage::StatsLine;

/// How many files, bytes and entries each level of a folder has, and what else there is. Its
/// version is tested before.
pub fn stats_answer<R: Host>(session: &mut Session<'_, R>, line: &StatsLine<'_>) -> Answer {
    let alloc = session.rt.alloc();
    sizes_in_turn(session.rt, session.telling.folder, &session.opened)?;
    let logs = logs_counted(session)?;
    let unnamed = unneeded_counted(session)?;
    let progress = session.progress();
    let workers = checkers(session.rt, alloc, &progress);
    let (folder, opened) = (&mut session.disk, &session.opened);
    let counted = version_stats(&workers, folder, opened, bytes_of(line.memory));
    let stats = session.ended(&progress, counted)?;
    if !line.is_json {
        return Ok(stats_text(alloc, line.spelling, &stats, logs, unnamed)?);
    }
    let object = stats_json(alloc, line.spelling, &stats, logs, unnamed)?;
    Ok(json_line(alloc, &object)?.into_bytes())
}

/// The logs that have a byte.
fn logs_counted<R: Host>(session: &Session<'_, R>) -> Result<FileTotal, Refusal> {
    let (rt, folder) = (session.rt, session.telling.folder);
    let logs = logs_with_writes(rt, folder, None);
    let mut total = FileTotal::none();
    for log in &logs.map_err(|error| Refusal::of_listing(rt.alloc(), folder, &error))? {
        total = total.with(log.bytes);
    }
    Ok(total)
}

/// The files that the version doesn't need.
fn unneeded_counted<R: Host>(session: &Session<'_, R>) -> Result<FileTotal, Refusal> {
    let mut total = FileTotal::none();
    let files = unneeded_files(session.rt, session.telling.folder, &session.opened)?;
    for bytes in &files.lengths {
        total = total.with(*bytes);
    }
    Ok(total)
}
