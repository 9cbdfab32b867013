//! The lines of the commands that are given neither keys nor a list of numbers.

ghost use Rattle.std.specs.Prelude.{◌≡◌, IfOk};
ghost use Rattle.clap.specs.Words.{found_of, rows_of};
ghost use Rattle.usage.specs.Lines.{HasClean, HasDump, HasFiles, HasForm, HasJob, HasManifest};
ghost use Rattle.usage.specs.Lines.{HasStats, HasTable, HasVerify, gives_folder};

use crate::requests::{
    CleanLine, DumpLine, FilesLine, JobLine, ManifestLine, StatsLine, TableLine, VerdictForm,
    VerifyLine,
};
use crate::values::{
    Unread, is_flagged, is_given, memory_of, needed_text, number_given, spelling_given,
};
use clap::ArgMatches;

/// What is given to `dump`.
pub(crate) fn dump_line<'a>(values: &ArgMatches<'a>) -> Result<DumpLine<'a>, Unread>
    ensures { IfOk result (λ line. HasDump line (rows_of (found_of values.now))) }
{
    Ok(DumpLine {
        table: needed_text(values, "TABLE")?,
        spelling: spelling_given(values),
    })
}

/// What is given to `manifest`.
pub(crate) fn manifest_line<'a>(values: &ArgMatches<'a>) -> Result<ManifestLine<'a>, Unread>
    ensures { IfOk result (λ line. HasManifest line (rows_of (found_of values.now))) }
{
    Ok(ManifestLine {
        folder: needed_text(values, "DIR")?,
        spelling: spelling_given(values),
        is_json: is_flagged(values, "json"),
    })
}

/// What is given to `stats`.
pub(crate) fn stats_line<'a>(values: &ArgMatches<'a>) -> Result<StatsLine<'a>, Unread>
    ensures { IfOk result (λ line. HasStats line (rows_of (found_of values.now))) }
{
    Ok(StatsLine {
        folder: needed_text(values, "DIR")?,
        spelling: spelling_given(values),
        is_json: is_flagged(values, "json"),
        memory: memory_of(values)?,
    })
}

/// What is given to `verify` of a folder.
pub(crate) fn verify_line<'a>(values: &ArgMatches<'a>) -> Result<VerifyLine<'a>, Unread>
    ensures { IfOk result (λ line. HasVerify line (rows_of (found_of values.now))) }
{
    if is_given(values, "table") {
        return Err(Unread::Rules);
    }
    Ok(VerifyLine {
        folder: needed_text(values, "DIR")?,
        form: form_of(values)?,
        memory: memory_of(values)?,
    })
}

/// What `verify` prints of a folder.
fn form_of(values: &ArgMatches<'_>) -> Result<VerdictForm, Unread>
    ensures { IfOk result (λ form. HasForm form (rows_of (found_of values.now))) }
{
    match (is_flagged(values, "json"), is_flagged(values, "all-faults")) {
        (false, false) => Ok(VerdictForm::Line),
        (true, false) => Ok(VerdictForm::Json),
        (false, true) => Ok(VerdictForm::AllFaults),
        (true, true) => Err(Unread::Rules),
    }
}

/// What is given to `verify` of a table.
pub(crate) fn table_line<'a>(values: &ArgMatches<'a>) -> Result<TableLine<'a>, Unread>
    ensures { IfOk result (λ line. HasTable line (rows_of (found_of values.now))) }
{
    if gives_folder(values) {
        return Err(Unread::Rules);
    }
    Ok(TableLine {
        table: needed_text(values, "table")?,
        is_json: is_flagged(values, "json"),
    })
}

/// Whether something of a folder, its test or its lock is given.
fn gives_folder(values: &ArgMatches<'_>) -> bool
    ensures { result ≡ gives_folder (rows_of (found_of values.now)) }
{
    is_given(values, "DIR")
        || is_flagged(values, "all-faults")
        || is_given(values, "memory")
        || is_flagged(values, "fail-on-logs")
        || is_flagged(values, "no-lock")
}

/// What is given to `files`.
pub(crate) fn files_line<'a>(values: &ArgMatches<'a>) -> Result<FilesLine<'a>, Unread>
    ensures { IfOk result (λ line. HasFiles line (rows_of (found_of values.now))) }
{
    Ok(FilesLine {
        folder: needed_text(values, "DIR")?,
        is_json: is_flagged(values, "json"),
    })
}

/// What is given to `job`.
pub(crate) fn job_line<'a>(values: &ArgMatches<'a>) -> Result<JobLine<'a>, Unread>
    ensures { IfOk result (λ line. HasJob line (rows_of (found_of values.now))) }
{
    Ok(JobLine {
        folder: needed_text(values, "DIR")?,
        level: number_given(values, "level")?.ok_or(Unread::Rules)?,
        by_parts: is_flagged(values, "parts"),
    })
}

/// What is given to `clean`.
pub(crate) fn clean_line<'a>(values: &ArgMatches<'a>) -> Result<CleanLine<'a>, Unread>
    ensures { IfOk result (λ line. HasClean line (rows_of (found_of values.now))) }
{
    Ok(CleanLine {
        folder: needed_text(values, "DIR")?,
        is_dry_run: is_flagged(values, "dry-run"),
    })
}
