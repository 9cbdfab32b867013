//! The lines of the commands that are given keys, which are read from texts in either spelling.

ghost use Rattle.std.specs.Prelude.{◌≡◌, IfOk, Some, map, option_map};
ghost use Rattle.clap.specs.Words.{found_of, rows_of};
ghost use Rattle.texts.specs.Spelling.{bytes_of};
ghost use Rattle.texts.specs.Text.{bytes_of_text};
ghost use Rattle.usage.specs.KeyLines.{HasBlocks, HasGet, HasHistory, HasKeys, HasRowOptions};
ghost use Rattle.usage.specs.KeyLines.{HasRowOutput, HasScan, gives_bound};

use crate::requests::{
    BlocksLine, GetLine, HistoryLine, KeySource, RowOptions, RowOutput, ScanLine,
};
use crate::usage_fault::Usage;
use crate::values::{
    Unread, first_text, is_flagged, is_given, needed_text, number_given, spelling_given, testing_of,
};
use clap::ArgMatches;
use std::alloc::{AllocError, Global};
use texts::{Spelling, key_of};

/// What is given to `blocks`. Key if the text of its key is invalid.
pub(crate) fn blocks_line<'a>(
    alloc: Global,
    values: &ArgMatches<'a>,
) -> Result<BlocksLine<'a>, Unread>
    ensures { IfOk result (λ line. HasBlocks line (rows_of (found_of values.now))) }
{
    Ok(BlocksLine {
        a: needed_text(values, "A")?,
        b: needed_text(values, "B")?,
        at: block_key(alloc, needed_text(values, "at")?)?,
        out: needed_text(values, "OUT")?,
    })
}

/// The user key of a text of `blocks`. Key if the text is invalid.
fn block_key(alloc: Global, text: &str) -> Result<Vec<u8>, Unread>
    ensures { IfOk result (λ key. bytes_of_text text.now ≡ Some key.items) }
{
    match key_of(alloc, text) {
        Ok(Some(key)) => Ok(key),
        Ok(None) => Err(Unread::Usage(Usage::Key)),
        // The only fault of reading a key is out of memory.
        Err(_) => Err(Unread::Usage(Usage::Memory)),
    }
}

/// What is given to `get`. Hexadecimal or Text if the text of a key stands for no bytes.
pub(crate) fn get_line<'a>(alloc: Global, values: &ArgMatches<'a>) -> Result<GetLine<'a>, Unread>
    ensures { IfOk result (λ line. HasGet line (rows_of (found_of values.now))) }
{
    let spelling = spelling_given(values);
    let is_raw = is_flagged(values, "raw");
    let is_json = is_flagged(values, "json");
    if is_raw && is_json {
        return Err(Unread::Rules);
    }
    Ok(GetLine {
        folder: needed_text(values, "DIR")?,
        keys: key_source(alloc, spelling, values)?,
        at: number_given(values, "at")?,
        spelling,
        is_raw,
        is_json,
        testing: testing_of(values)?,
    })
}

/// Where the keys of `get` are. Rules unless either keys are given or `--stdin`.
fn key_source(
    alloc: Global,
    spelling: Spelling,
    values: &ArgMatches<'_>,
) -> Result<KeySource, Unread>
    ensures { IfOk result (λ keys. HasKeys spelling keys (rows_of (found_of values.now))) }
{
    match (values.get_strs("KEY"), is_flagged(values, "stdin")) {
        (Some(texts), false) => Ok(KeySource::Given(keys_in(alloc, spelling, texts)?)),
        (None, true) => Ok(KeySource::Input),
        _ => Err(Unread::Rules),
    }
}

/// What is given to `history`. Hexadecimal or Text if the text of its key stands for no bytes.
pub(crate) fn history_line<'a>(
    alloc: Global,
    values: &ArgMatches<'a>,
) -> Result<HistoryLine<'a>, Unread>
    ensures { IfOk result (λ line. HasHistory line (rows_of (found_of values.now))) }
{
    let spelling = spelling_given(values);
    Ok(HistoryLine {
        folder: needed_text(values, "DIR")?,
        key: key_in(alloc, spelling, needed_text(values, "KEY")?)?,
        spelling,
        is_json: is_flagged(values, "json"),
        testing: testing_of(values)?,
    })
}

/// What is given to `scan`. Hexadecimal or Text if the text of a key stands for no bytes.
pub(crate) fn scan_line<'a>(alloc: Global, values: &ArgMatches<'a>) -> Result<ScanLine<'a>, Unread>
    ensures { IfOk result (λ line. HasScan line (rows_of (found_of values.now))) }
{
    let spelling = spelling_given(values);
    Ok(ScanLine {
        folder: needed_text(values, "DIR")?,
        rows: row_options(alloc, spelling, values)?,
        output: row_output(values)?,
        spelling,
        is_json: is_flagged(values, "json"),
        testing: testing_of(values)?,
    })
}

/// What a scan prints of its rows.
fn row_output(values: &ArgMatches<'_>) -> Result<RowOutput, Unread>
    ensures { IfOk result (λ output. HasRowOutput output (rows_of (found_of values.now))) }
{
    match (is_flagged(values, "keys"), is_flagged(values, "count")) {
        (false, false) => Ok(RowOutput::Pairs),
        (true, false) => Ok(RowOutput::Keys),
        (false, true) => Ok(RowOutput::Count),
        (true, true) => Err(Unread::Rules),
    }
}

/// Whether a bound of a scan is given.
fn gives_bound(values: &ArgMatches<'_>) -> bool
    ensures { result ≡ gives_bound (rows_of (found_of values.now)) }
{
    is_given(values, "from") || is_given(values, "to")
}

/// Which rows a scan prints. Rules if a prefix is given, and a bound too.
fn row_options(
    alloc: Global,
    spelling: Spelling,
    values: &ArgMatches<'_>,
) -> Result<RowOptions, Unread>
    ensures { IfOk result
        (λ options. HasRowOptions spelling options (rows_of (found_of values.now))) }
{
    if is_given(values, "prefix") && gives_bound(values) {
        return Err(Unread::Rules);
    }
    Ok(RowOptions {
        from: bound_in(alloc, spelling, first_text(values, "from"))?,
        to: bound_in(alloc, spelling, first_text(values, "to"))?,
        prefix: bound_in(alloc, spelling, first_text(values, "prefix"))?,
        at: number_given(values, "at")?,
        limit: number_given(values, "limit")?,
    })
}

/// The key of a text. Hexadecimal or Text, after its spelling, if it stands for no bytes.
fn key_in(alloc: Global, spelling: Spelling, text: &str) -> Result<Vec<u8>, Unread>
    ensures { IfOk result (λ key. bytes_of spelling text.now ≡ Some key.items) }
{
    match spelling.bytes_of(alloc, text) {
        Ok(Some(key)) => Ok(key),
        Ok(None) => match spelling {
            Spelling::Hexadecimal => Err(Unread::Usage(Usage::Hexadecimal)),
            Spelling::Text | Spelling::Utf8 => Err(Unread::Usage(Usage::Text)),
        },
        // The only fault of reading a key is out of memory.
        Err(_) => Err(Unread::Usage(Usage::Memory)),
    }
}

/// The keys of these texts, in their order.
fn keys_in(alloc: Global, spelling: Spelling, texts: &[&str]) -> Result<Vec<Vec<u8>>, Unread>
    ensures { IfOk result (λ keys. map (λ text. bytes_of spelling text.now) texts.now
        ≡ map (λ key. Some key.items) keys.items) }
{
    let mut keys = Vec::with_capacity(alloc, texts.len())?;
    for text in texts {
        let key = key_in(alloc, spelling, text)?;
        if let Err(error) = keys.push(key) {
            return Err(AllocError::from(error).into());
        }
    }
    Ok(keys)
}

/// The key of a text, if there is a text.
fn bound_in(
    alloc: Global,
    spelling: Spelling,
    text: Option<&str>,
) -> Result<Option<Vec<u8>>, Unread>
    ensures { IfOk result (λ key. option_map (λ text. bytes_of spelling text.now) text.entry
        ≡ option_map (λ key. Some key.items) key) }
{
    match text {
        Some(text) => Ok(Some(key_in(alloc, spelling, text)?)),
        None => Ok(None),
    }
}
