//! The program, from its words to its status.

use crate::needs::{Needs, needs_of};
use crate::reports::{
    COMMAND_LINE, DONE, report_misuse, report_refusal, report_taken, report_usage,
};
use queries::{
    blocks_answer, files_answer, history_answer, keys_in_input, rows_answer, stats_answer,
    table_answer, table_verdict, values_answer, verdict_answer, version_answer,
};
use refusals::{compaction_explained, explained, table_explained};
use session::{
    Access, Answer, Host, Refusal, RefusedTable, Session, Telling, bytes_of, locked, open_session,
    print_lines, tell_time,
};
use std::env::Env;
use std::io::ErrorKind;
use std::rt::Files;
use std::{env, io};
use tool::{
    OutState, clean_folder, compact_folder, install_outcomes, job_answer, removable_answer,
    state_of, write_compaction,
};
use usage::{CommandLine, CompactWork, KeySource, Levels, Line, Settings, Usage, Verbosity, line};

/// Does what the words of the process ask for, and answers the status: 0 done, 1 refused, 2 a fault
/// of usage, 3 a failing device.
///
/// - Results go to the standard output, and so do help and a version that were asked for. All else
///   goes to the standard error.
/// - A refusal is told in two lines: its name; then the path, what is wrong and what to do. With
///   `--json` the second one is a JSON object.
/// - If nothing can be written to the standard error, the status is the same.
/// - The work on a folder is told on the standard error as `-v` asks. If `is_watched`, as a
///   terminal is, long work shows a line of progress there.
pub(crate) fn run<R: Env + Host>(rt: &R, is_watched: bool) -> u8 {
    let words = match words_given(rt) {
        Ok(words) => words,
        Err(error) if error.kind() == ErrorKind::InvalidData => {
            return report_misuse(rt, "usage: the arguments are not text");
        }
        Err(error) => {
            let refusal = Refusal::of_call(rt.alloc(), COMMAND_LINE, "read", &error);
            return report_refusal(rt, COMMAND_LINE, false, refusal);
        }
    };
    let mut listed = Vec::new(rt.alloc());
    match line(rt.alloc(), words.as_slice(), &mut listed) {
        Ok(asked) => answer(rt, &asked, is_watched),
        Err(Usage::Clap(_)) if words.iter().any(|word| word.as_str() == "--no-logs") => {
            report_misuse(rt, "usage: --no-logs is called --fail-on-logs")
        }
        Err(usage) => report_usage(rt, usage),
    }
}

/// Does what a command line asks for, tells why not if it is refused, and answers the status.
fn answer<R: Host>(rt: &R, asked: &CommandLine<'_>, is_watched: bool) -> u8 {
    let needs = needs_of(&asked.line);
    let refused = RefusedTable::none();
    let done = match taken_folder(rt, &asked.line) {
        Ok(Some(out)) => return report_taken(rt, out),
        Ok(None) => carry_out(
            rt,
            telling_of(asked, needs.subject, needs.memory, is_watched, &refused),
            &asked.line,
            &needs,
        ),
        Err(refusal) => Err(refusal),
    };
    match done {
        Ok(()) => DONE,
        Err(refusal) => report_refusal(rt, needs.subject, needs.is_json, refusal),
    }
}

/// The path at which an empty folder has to be, if something else is there.
fn taken_folder<'a, R: Files + AllocGlobal>(
    rt: &R,
    line: &Line<'a>,
) -> Result<Option<&'a str>, Refusal> {
    let Line::Compact(line) = line else {
        return Ok(None);
    };
    let CompactWork::Written { out, .. } = line.options.work else {
        return Ok(None);
    };
    if state_of(rt, out)? == OutState::Taken {
        Ok(Some(out))
    } else {
        Ok(None)
    }
}

/// The words of the process. `InvalidData` if one is no text.
fn words_given<R: Env + AllocGlobal>(rt: &R) -> io::Result<Vec<String>> {
    Ok(env::args(rt)?.collect(rt.alloc())?)
}

/// Does what a command line asks for.
fn carry_out<R: Host>(
    rt: &R,
    telling: Telling<'_>,
    line: &Line<'_>,
    needs: &Needs<'_>,
) -> Result<(), Refusal> {
    match line {
        Line::Blocks(line) => print_lines(rt, &blocks_answer(rt, line)?),
        Line::Dump(line) => print_lines(rt, &table_answer(rt, line)?),
        Line::Table(line) => print_lines(rt, &table_verdict(rt, line)?),
        line => {
            let keys = keys_of(rt, line)?;
            let _lock = locked(rt, telling, needs.access)?;
            work_on_folder(rt, telling, line, &keys, needs)
        }
    }
}

/// The keys in the standard input, if they are asked for.
fn keys_of<R: Host>(rt: &R, line: &Line<'_>) -> Result<Vec<Vec<u8>>, Refusal> {
    match line {
        Line::Get(line) if matches!(line.keys, KeySource::Input) => {
            keys_in_input(rt, line.spelling)
        }
        _ => Ok(Vec::new(rt.alloc())),
    }
}

/// The same of a folder that is locked. It is opened, then comes the work, then how long all of it
/// took, and then what is left to print.
fn work_on_folder<R: Host>(
    rt: &R,
    telling: Telling<'_>,
    line: &Line<'_>,
    input: &[Vec<u8>],
    needs: &Needs<'_>,
) -> Result<(), Refusal> {
    let session = match open_session(rt, telling, needs.access) {
        Ok(session) => session,
        Err(refusal) => return Err(explained(rt, telling, refusal)),
    };
    let begun = session.begun;
    let answer = match needs.access {
        Access::Change => changed(session, line),
        _ => read(session, line, input),
    };
    match answer {
        Ok(lines) => {
            if let Some(step) = needs.step {
                tell_time(rt, step, begun);
            }
            print_lines(rt, &lines)
        }
        Err(refusal) => Err(explained_by(rt, telling, line, needs, refusal)),
    }
}

/// What is left to print of a folder that is only read.
fn read<R: Host>(session: Session<'_, R>, line: &Line<'_>, input: &[Vec<u8>]) -> Answer {
    let mut session = session;
    match line {
        Line::Manifest(line) => version_answer(&session, line),
        Line::Stats(line) => stats_answer(&mut session, line),
        Line::Verify(line) => verdict_answer(&mut session, line),
        Line::Get(line) => match &line.keys {
            KeySource::Given(keys) => values_answer(&mut session, line, keys),
            KeySource::Input => values_answer(&mut session, line, input),
        },
        Line::Scan(line) => rows_answer(&mut session, line),
        Line::History(line) => history_answer(&mut session, line),
        Line::Files(line) => files_answer(&session, line),
        Line::Job(line) => job_answer(&mut session, line),
        Line::Compact(line) => {
            write_compaction(&mut session, line)?;
            Ok(Vec::new(session.rt.alloc()))
        }
        _ => removable_answer(&session),
    }
}

/// Changes a folder. What was done is printed as it is done.
fn changed<R: Host>(session: Session<'_, R>, line: &Line<'_>) -> Answer {
    let alloc = session.rt.alloc();
    match line {
        Line::Compact(line) => compact_folder(session, line)?,
        Line::Install(line) => install_outcomes(session, line)?,
        _ => clean_folder(session, false)?,
    }
    Ok(Vec::new(alloc))
}

/// The refusal of the work on an opened folder, with what is told of it. If tables were read that
/// are not tested, the folder isn't read again to tell of which one it is.
fn explained_by<R: Host>(
    rt: &R,
    telling: Telling<'_>,
    line: &Line<'_>,
    needs: &Needs<'_>,
    refusal: Refusal,
) -> Refusal {
    match line {
        Line::Install(_) => refusal,
        Line::Job(line) => {
            let settings = Settings::default();
            compaction_explained(rt, telling, Some(line.level), &settings, refusal)
        }
        Line::Compact(line) => {
            let level = level_of(line.options.work);
            compaction_explained(rt, telling, level, &line.settings, refusal)
        }
        _ if needs.is_untested => table_explained(rt.alloc(), telling.folder, refusal),
        _ => explained(rt, telling, refusal),
    }
}

/// The level that is compacted, if it is one alone.
fn level_of(work: CompactWork<'_>) -> Option<u64> {
    match work {
        CompactWork::Written { level, .. }
        | CompactWork::Installed(Levels::One(level) | Levels::Whole(level)) => Some(level),
        CompactWork::Installed(Levels::All) => None,
    }
}

/// What is to be told of the work that a command line asks for.
fn telling_of<'a>(
    asked: &CommandLine<'_>,
    folder: &'a str,
    memory: u64,
    is_watched: bool,
    refused: &'a RefusedTable,
) -> Telling<'a> {
    Telling {
        folder,
        is_quiet: asked.verbosity == Verbosity::Quiet,
        is_verbose: asked.verbosity == Verbosity::Verbose,
        is_watched,
        ignores_lock: asked.ignores_lock,
        refuses_logs: asked.refuses_logs,
        memory: bytes_of(memory),
        refused,
    }
}
