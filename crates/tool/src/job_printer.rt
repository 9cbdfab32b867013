//! The files that a compaction of a folder would read.

use folder::Fault;
use session::{Answer, Host, Session};
use store::{Inputs, files_to_compact, parts_to_compact};
use usage::JobLine;

/// The names of the files that a compaction of a level would read, or the parts of the level. No
/// table is read.
pub fn job_answer<R: Host>(session: &mut Session<'_, R>, line: &JobLine<'_>) -> Answer {
    let alloc = session.rt.alloc();
    if line.by_parts {
        let parts = session.done(parts_to_compact(alloc, &session.opened, line.level))?;
        let mut lines = String::new(alloc);
        for (place, part) in parts.iter().enumerate() {
            push_part(&mut lines, place as u64 + 1, part)?;
        }
        return Ok(lines.into_bytes());
    }
    let lines = files_to_compact(alloc, &mut session.disk, &session.opened, line.level);
    session.done(lines)
}

/// Appends the lines of the part of a `number`: one a file.
fn push_part(lines: &mut String, number: u64, part: &Inputs) -> Result<(), Fault> {
    for file in &part.files {
        let (level, meta) = (file.level, &file.meta);
        writeln!(lines, "part {number} {level} {} {}", meta.number, meta.size)?;
    }
    Ok(())
}
