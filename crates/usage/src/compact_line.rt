//! The lines of `compact` and of `install`, which may be given a list of snapshots.

ghost use Rattle.std.specs.Prelude.{◌≡◌, IfOk, IfSome, Some, codes, map};
ghost use Rattle.clap.specs.Words.{all_of, found_of, rows_of};
ghost use Rattle.usage.specs.CompactLine.{AreNumbers, HasCompact, HasInstall, HasLevels};
ghost use Rattle.usage.specs.CompactLine.{HasOptions, HasSettings, HasSnapshots, HasWork};
ghost use Rattle.usage.specs.CompactLine.{IsNumberList, gives_snapshots};

use crate::requests::{CompactLine, CompactOptions, CompactWork, InstallLine, Levels};
use crate::usage_fault::Usage;
use crate::values::{
    Unread, first_text, is_flagged, is_given, needed_text, number_given, number_or, testing_of,
};
use clap::ArgMatches;
use compact::{Options, Settings, Snapshots};
use std::alloc::{AllocError, Global};
use texts::number_of;

/// What is given to `compact`, with the numbers of its list in `listed`. Snapshots if the text of
/// the list is no list of numbers.
pub(crate) fn compact_line<'a>(
    alloc: Global,
    values: &ArgMatches<'a>,
    listed: &'a mut Vec<u64>,
) -> Result<CompactLine<'a>, Unread>
    ensures { IfOk result (λ line. HasCompact line (rows_of (found_of values.now))) }
{
    Ok(CompactLine {
        folder: needed_text(values, "DIR")?,
        options: options_of(values)?,
        settings: settings_of(alloc, values, listed)?,
    })
}

/// What is asked for beside the settings.
fn options_of<'a>(values: &ArgMatches<'a>) -> Result<CompactOptions<'a>, Unread>
    ensures { IfOk result (λ options. HasOptions options (rows_of (found_of values.now))) }
{
    Ok(CompactOptions {
        work: work_of(values)?,
        testing: testing_of(values)?,
        is_json: is_flagged(values, "json"),
        cleans: is_flagged(values, "clean"),
    })
}

/// What is compacted, and where the outcome goes. `Rules` if one of these holds:
///
/// - not exactly one of `--level` and `--all` is given;
/// - `--whole` is given with `--all` or `--no-verify`;
/// - `--out` is given with `--clean`;
/// - `--part` or `--first-number` is given without `--out`.
fn work_of<'a>(values: &ArgMatches<'a>) -> Result<CompactWork<'a>, Unread>
    ensures { IfOk result (λ work. HasWork work (rows_of (found_of values.now))) }
{
    let levels = levels_of(values)?;
    let part = number_given(values, "part")?;
    let first_number = number_given(values, "first-number")?;
    match (first_text(values, "out"), levels, part, first_number) {
        (None, levels, None, None) => Ok(CompactWork::Installed(levels)),
        (Some(out), Levels::One(level), part, first_number) if !is_flagged(values, "clean") => {
            Ok(CompactWork::Written {
                level,
                part,
                out,
                first_number,
            })
        }
        _ => Err(Unread::Rules),
    }
}

/// The levels that are asked for.
fn levels_of(values: &ArgMatches<'_>) -> Result<Levels, Unread>
    ensures { IfOk result (λ levels. HasLevels levels (rows_of (found_of values.now))) }
{
    let level = number_given(values, "level")?;
    let (is_all, is_whole) = (is_flagged(values, "all"), is_flagged(values, "whole"));
    match (level, is_all, is_whole) {
        (Some(level), false, false) => Ok(Levels::One(level)),
        (Some(level), false, true) if !is_flagged(values, "no-verify") => Ok(Levels::Whole(level)),
        (None, true, false) => Ok(Levels::All),
        _ => Err(Unread::Rules),
    }
}

/// The settings of a compaction. A number that isn't given has its default.
fn settings_of<'a>(
    alloc: Global,
    values: &ArgMatches<'_>,
    listed: &'a mut Vec<u64>,
) -> Result<Settings<'a>, Unread>
    ensures { IfOk result (λ settings. HasSettings settings (rows_of (found_of values.now))) }
{
    let defaults = Settings::default();
    let options = Options {
        block_size: number_or(values, "block-size", defaults.options.block_size)?,
        restart_interval: defaults.options.restart_interval,
        file_size: number_or(values, "file-size", defaults.options.file_size)?,
    };
    Ok(Settings {
        workers: number_or(values, "workers", defaults.workers)?,
        ranges: number_or(values, "ranges", defaults.ranges)?,
        snapshots: snapshots_of(alloc, values, listed)?,
        options,
    })
}

/// What is given to `install`, in the same way.
pub(crate) fn install_line<'a>(
    alloc: Global,
    values: &ArgMatches<'a>,
    listed: &'a mut Vec<u64>,
) -> Result<InstallLine<'a>, Unread>
    ensures { IfOk result (λ line. HasInstall line (rows_of (found_of values.now))) }
{
    let testing = testing_of(values)?;
    if testing.is_skipped && gives_snapshots(values) {
        return Err(Unread::Rules);
    }
    Ok(InstallLine {
        folder: needed_text(values, "DIR")?,
        outs: outs_of(alloc, values)?,
        snapshots: snapshots_of(alloc, values, listed)?,
        testing,
        cleans: is_flagged(values, "clean"),
    })
}

/// The texts of OUT.
fn outs_of<'a>(alloc: Global, values: &ArgMatches<'a>) -> Result<Vec<&'a str>, Unread>
    ensures { IfOk result (λ outs. all_of (codes "OUT") (rows_of (found_of values.now))
        ≡ Some (map (λ out. out.now) outs.items)) }
{
    match values.get_strs("OUT") {
        Some(texts) => Ok(Vec::from_slice(alloc, texts)?),
        None => Err(Unread::Rules),
    }
}

/// Whether snapshots are given.
fn gives_snapshots(values: &ArgMatches<'_>) -> bool
    ensures { result ≡ gives_snapshots (rows_of (found_of values.now)) }
{
    is_given(values, "snapshot") || is_given(values, "snapshots")
}

/// The sequences that stay readable, with the numbers of a list in `listed`.
fn snapshots_of<'a>(
    alloc: Global,
    values: &ArgMatches<'_>,
    listed: &'a mut Vec<u64>,
) -> Result<Snapshots<'a>, Unread>
    ensures { IfOk result (λ snapshots. HasSnapshots snapshots (rows_of (found_of values.now))) }
{
    let since = number_given(values, "snapshot")?;
    match (since, first_text(values, "snapshots")) {
        (Some(sequence), None) => Ok(Snapshots::From(sequence)),
        (None, None) => Ok(Snapshots::Listed(&[])),
        (None, Some(text)) => match numbers_of(alloc, text)? {
            Some(sequences) => {
                *listed = sequences;
                Ok(Snapshots::Listed(listed.as_slice()))
            }
            None => Err(Unread::Usage(Usage::Snapshots)),
        },
        (Some(_), Some(_)) => Err(Unread::Rules),
    }
}

/// The numbers of a text, with commas between them. None if one of them is no number, as
/// the empty text.
fn numbers_of(alloc: Global, text: &str) -> Result<Option<Vec<u64>>, AllocError>
    ensures { IfOk result (λ found. IfSome found
        (λ numbers. IsNumberList text.now numbers.items)) }
{
    let numerals: Vec<&str> = text.split(',').collect(alloc)?;
    numbers_in(alloc, &numerals)
}

/// The numbers of these texts. None if one of them is no number.
fn numbers_in(alloc: Global, numerals: &[&str]) -> Result<Option<Vec<u64>>, AllocError>
    ensures { IfOk result (λ found. IfSome found
        (λ numbers. AreNumbers (map (λ n. n.now) numerals.now) numbers.items)) }
{
    let mut numbers = Vec::with_capacity(alloc, numerals.len())?;
    for numeral in numerals {
        match number_of(numeral) {
            Some(number) => numbers.push(number)?,
            None => return Ok(None),
        }
    }
    Ok(Some(numbers))
}
