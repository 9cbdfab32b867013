//! The names of the files that a copy of a folder needs.

use answers::{json_line, name_json};
use checks::{Fault, FaultName};
use folder::file_numbers;
use install::CURRENT;
use refusals::missing_file;
use session::{
    Answer, Bytewise, Disk, Host, Order, Refusal, Session, Shortlex, is_there, manifest_name,
    names_in, refused_opened, replayed_log, table_file_name,
};
use std::alloc::Global;
use usage::FilesLine;

/// The names of the files that a copy of a folder needs, a line each: CURRENT, the manifest, the
/// tables by level and in version order, and the logs that LevelDB would replay. No table is read.
pub fn files_answer<R: Host>(session: &Session<'_, R>, line: &FilesLine<'_>) -> Answer {
    let alloc = session.rt.alloc();
    let mut lines = Vec::new(alloc);
    push_name(alloc, &mut lines, line, CURRENT)?;
    let manifest = manifest_name(alloc, session.opened.manifest)?;
    push_name(alloc, &mut lines, line, manifest.as_str())?;
    let version = &session.opened.version;
    let numbers = match session.opened.order {
        Order::Bytewise => file_numbers::<Bytewise>(alloc, version)?,
        Order::Shortlex => file_numbers::<Shortlex>(alloc, version)?,
    };
    for number in &numbers {
        let name = table_found(session, *number)?;
        push_name(alloc, &mut lines, line, name.as_str())?;
    }
    push_logs(session, &mut lines, line)?;
    Ok(lines)
}

/// Appends the line of a name.
fn push_name(
    alloc: Global,
    lines: &mut Vec<u8>,
    line: &FilesLine<'_>,
    name: &str,
) -> Result<(), Fault> {
    if line.is_json {
        lines.extend_from_slice(json_line(alloc, &name_json(alloc, name)?)?.as_bytes())?;
        return Ok(());
    }
    lines.extend_from_slice(name.as_bytes())?;
    lines.push(b'\n')?;
    Ok(())
}

/// Appends the logs that LevelDB would replay over a version.
fn push_logs<R: Host>(
    session: &Session<'_, R>,
    lines: &mut Vec<u8>,
    line: &FilesLine<'_>,
) -> Result<(), Refusal> {
    for name in &names_in(session.rt, session.telling.folder)? {
        if replayed_log(Some(&session.opened.version), name.as_str()).is_some() {
            push_name(session.rt.alloc(), lines, line, name.as_str())?;
        }
    }
    Ok(())
}

/// The name under which the table of a number is there. Missing if it isn't; if another program
/// changed the folder meanwhile, that is told.
fn table_found<R: Host>(session: &Session<'_, R>, number: u64) -> Result<String, Refusal> {
    let (rt, path) = (session.rt, session.telling.folder);
    let mut folder = Disk::new(rt, path);
    let found = table_file_name(rt.alloc(), &mut folder, number);
    let name = found.map_err(|fault| refused_opened(rt, path, &folder, session.manifest, fault))?;
    if is_there(rt, path, name.as_str())? {
        return Ok(name);
    }
    let fault = Fault::of(FaultName::Missing);
    let refusal = refused_opened(rt, path, &session.disk, session.manifest, fault);
    if refusal.told.is_some() {
        return Err(refusal);
    }
    Err(refusal.telling(missing_file(rt.alloc(), path, name.as_str())))
}
