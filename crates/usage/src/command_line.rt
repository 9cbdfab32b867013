//! A command line, read.

ghost use Rattle.std.specs.Prelude.{◌≡◌, IfOk, map};
ghost use Rattle.clap.specs.Words.{found_of, rows_of, subcommand_rows_of};
ghost use Rattle.usage.specs.Line.{CommandLineGives, IsRead, LineGives, LineOf};
ghost use Rattle.usage.specs.Verbosity.{IsVerbosity, is_flagged_anywhere, is_flagged_below};

use crate::commands::{program_command, ruled_command};
use crate::compact_line::{compact_line, install_line};
use crate::key_lines::{blocks_line, get_line, history_line, scan_line};
use crate::lines::{
    clean_line, dump_line, files_line, job_line, manifest_line, stats_line, table_line, verify_line,
};
use crate::requests::{CommandLine, Line, Verbosity};
use crate::usage_fault::Usage;
use crate::values::{Unread, is_flagged, is_given};
use clap::ArgMatches;
use clap::error::{Error, ErrorKind};
use std::alloc::{AllocError, Global};
use std::convert::AsStr;

/// The message if one of `--verbose` and `--quiet` is given before the command, and the other one
/// after it. `clap` looks at each of the two places alone.
const AT_ODDS: &str = "the argument '--verbose' cannot be used with '--quiet'";

/// What the words of a command line ask for. The first word is the program's name. The answer lends
/// the words, and `listed`, which gets the snapshots that `compact` or `install` lists.
///
/// Of several faults of usage the first of these is answered:
///
/// 1. a fault that `clap` finds without the rules that arguments have on each other;
/// 2. the one that it finds with these rules;
/// 3. `Key`, `Hexadecimal` or `Text`: a text that is no key, of `--from` before that of `--to`; or
///    `Snapshots`: a text that is no list of numbers.
///
/// `Memory` may come for any words.
pub fn line<'a, S: AsStr>(
    alloc: Global,
    words: &'a [S],
    listed: &'a mut Vec<u64>,
) -> Result<CommandLine<'a>, Usage>
    ensures { IfOk result (CommandLineGives (map S.text words.entry.now)) }
{
    let mut command = program_command(alloc)?;
    let matches = command.try_get_matches_from_mut(words)?;
    match command_line(alloc, &matches, listed) {
        Ok(line) => Ok(line),
        Err(Unread::Usage(usage)) => Err(usage),
        Err(Unread::Rules) => Err(Usage::from(complaint(alloc, words)?)),
    }
}

/// What a parse asks for.
fn command_line<'a>(
    alloc: Global,
    matches: &ArgMatches<'a>,
    listed: &'a mut Vec<u64>,
) -> Result<CommandLine<'a>, Unread>
    ensures { IfOk result (IsRead (rows_of (found_of matches.now))
        (subcommand_rows_of matches.now)) }
{
    let verbosity = verbosity_given(matches)?;
    let line = line_of(alloc, matches, listed)?;
    Ok(CommandLine {
        verbosity,
        ignores_lock: is_flagged_below(matches, "no-lock"),
        refuses_logs: is_flagged_below(matches, "fail-on-logs"),
        line,
    })
}

/// How much is told. `Rules` if both `--verbose` and `--quiet` are given, each before the command
/// or after it.
fn verbosity_given(matches: &ArgMatches<'_>) -> Result<Verbosity, Unread>
    ensures { IfOk result (IsVerbosity (rows_of (found_of matches.now))
        (subcommand_rows_of matches.now)) }
{
    let is_verbose = is_flagged_anywhere(matches, "verbose");
    match (is_verbose, is_flagged_anywhere(matches, "quiet")) {
        (false, false) => Ok(Verbosity::Normal),
        (false, true) => Ok(Verbosity::Quiet),
        (true, false) => Ok(Verbosity::Verbose),
        (true, true) => Err(Unread::Rules),
    }
}

/// Whether a flag is given before the command, or after it.
fn is_flagged_anywhere(matches: &ArgMatches<'_>, id: &str) -> bool
    ensures { result ≡ is_flagged_anywhere id.now (rows_of (found_of matches.now))
        (subcommand_rows_of matches.now) }
{
    is_flagged(matches, id) || is_flagged_below(matches, id)
}

/// Whether a flag is given after the command.
fn is_flagged_below(matches: &ArgMatches<'_>, id: &str) -> bool
    ensures { result ≡ is_flagged_below id.now (subcommand_rows_of matches.now) }
{
    match matches.subcommand() {
        Some((_, values)) => is_flagged(values, id),
        None => false,
    }
}

/// The line of a parse.
fn line_of<'a>(
    alloc: Global,
    matches: &ArgMatches<'a>,
    listed: &'a mut Vec<u64>,
) -> Result<Line<'a>, Unread>
    ensures { IfOk result (LineOf (subcommand_rows_of matches.now)) }
{
    match matches.subcommand() {
        Some((name, values)) => line_in(alloc, name, values, listed),
        // `clap` demands a command.
        None => Err(Unread::Rules),
    }
}

/// The line of a command, by its name.
fn line_in<'a>(
    alloc: Global,
    name: &str,
    values: &ArgMatches<'a>,
    listed: &'a mut Vec<u64>,
) -> Result<Line<'a>, Unread>
    ensures { IfOk result (LineGives name.now (rows_of (found_of values.now))) }
{
    match name {
        "stats" => Ok(Line::Stats(stats_line(values)?)),
        "verify" if is_given(values, "table") => Ok(Line::Table(table_line(values)?)),
        "verify" => Ok(Line::Verify(verify_line(values)?)),
        "get" => Ok(Line::Get(get_line(alloc, values)?)),
        "history" => Ok(Line::History(history_line(alloc, values)?)),
        "scan" => Ok(Line::Scan(scan_line(alloc, values)?)),
        "manifest" => Ok(Line::Manifest(manifest_line(values)?)),
        "dump" => Ok(Line::Dump(dump_line(values)?)),
        "files" => Ok(Line::Files(files_line(values)?)),
        "compact" => Ok(Line::Compact(compact_line(alloc, values, listed)?)),
        "clean" => Ok(Line::Clean(clean_line(values)?)),
        "job" => Ok(Line::Job(job_line(values)?)),
        "install" => Ok(Line::Install(install_line(alloc, values, listed)?)),
        "blocks" => Ok(Line::Blocks(blocks_line(alloc, values)?)),
        // `clap` knows no other command.
        _ => Err(Unread::Rules),
    }
}

/// Why words that `clap` accepts make no line: which rule of arguments on each other they break, as
/// commands say whose arguments have these rules. The only fault is out of memory.
fn complaint<'a, S: AsStr>(alloc: Global, words: &'a [S]) -> Result<Error, AllocError> {
    let mut command = ruled_command(alloc)?;
    match command.try_get_matches_from_mut(words) {
        Err(error) => Ok(error),
        Ok(_) => command.error(ErrorKind::ArgumentConflict, AT_ODDS),
    }
}
