//! What is given to a command's arguments, as `clap` read it.

ghost use Rattle.std.specs.Prelude.{◌≡◌, IfOk, MatchOption, codes};
ghost use Rattle.clap.specs.Words.{first_of, found_of, one_of, rows_of};
ghost use Rattle.usage.specs.Values.{HasTesting, IsNumberOf, IsNumberOr, is_flagged, is_given};
ghost use Rattle.usage.specs.Values.{spelling_of};

use crate::requests::Testing;
use crate::usage_fault::Usage;
use clap::ArgMatches;
use std::alloc::AllocError;
use texts::Spelling;

/// How many MiB of tables a test may hold if no number is given.
const MEMORY: u64 = 128;

/// Why what is given to a command makes no line.
#[derive(Drop)]
pub(crate) enum Unread {
    /// Arguments are given that exclude each other, or one that is needed isn't given.
    Rules,
    /// A text stands for nothing, or memory ran out.
    Usage(Usage),
}

impl From<AllocError> for Unread {
    fn from(_e: AllocError) -> Unread {
        Unread::Usage(Usage::Memory)
    }
}

/// The text given to an argument.
pub(crate) fn first_text<'a>(values: &ArgMatches<'a>, id: &str) -> Option<&'a str>
    ensures { let first = first_of id.now (rows_of (found_of values.now)) in
        MatchOption result (first ≡ None) (λ text. first ≡ Some text.now) }
{
    values.get_str(id)
}

/// The text given to an argument that is needed.
pub(crate) fn needed_text<'a>(values: &ArgMatches<'a>, id: &str) -> Result<&'a str, Unread>
    ensures { IfOk result
        (λ text. first_of id.now (rows_of (found_of values.now)) ≡ Some text.now) }
{
    first_text(values, id).ok_or(Unread::Rules)
}

/// Whether an argument with a text is given.
pub(crate) fn is_given(values: &ArgMatches<'_>, id: &str) -> bool
    ensures { result ≡ is_given id.now (rows_of (found_of values.now)) }
{
    first_text(values, id).is_some()
}

/// Whether a flag is given.
pub(crate) fn is_flagged(values: &ArgMatches<'_>, id: &str) -> bool
    ensures { result ≡ is_flagged id.now (rows_of (found_of values.now)) }
{
    match first_text(values, id) {
        Some(text) => text == "true",
        None => false,
    }
}

/// The number given to an option, if one is given.
pub(crate) fn number_given(values: &ArgMatches<'_>, id: &str) -> Result<Option<u64>, Unread>
    ensures { IfOk result (IsNumberOf (one_of id.now (rows_of (found_of values.now)))) }
{
    match values.try_get_one::<u64>(id) {
        Ok(number) => Ok(number),
        // `clap` has read the text as a number before.
        Err(_) => Err(Unread::Rules),
    }
}

/// The number given to an option, or this one.
pub(crate) fn number_or(values: &ArgMatches<'_>, id: &str, default: u64) -> Result<u64, Unread>
    ensures { IfOk result (IsNumberOr default (one_of id.now (rows_of (found_of values.now)))) }
{
    match number_given(values, id)? {
        Some(number) => Ok(number),
        None => Ok(default),
    }
}

/// The number given to `--memory`, or 128.
pub(crate) fn memory_of(values: &ArgMatches<'_>) -> Result<u64, Unread>
    ensures { IfOk result
        (IsNumberOr 128 (one_of (codes "memory") (rows_of (found_of values.now)))) }
{
    number_or(values, "memory", MEMORY)
}

/// What is given to `--no-verify` and to `--memory`.
pub(crate) fn testing_of(values: &ArgMatches<'_>) -> Result<Testing, Unread>
    ensures { IfOk result (λ testing. HasTesting testing (rows_of (found_of values.now))) }
{
    Ok(Testing {
        is_skipped: is_flagged(values, "no-verify"),
        memory: memory_of(values)?,
    })
}

/// How keys and values are written: as UTF-8 if `--utf8` is given, else as text if `--text` is.
pub(crate) fn spelling_given(values: &ArgMatches<'_>) -> Spelling
    ensures { result ≡ spelling_of (rows_of (found_of values.now)) }
{
    if is_flagged(values, "utf8") {
        Spelling::Utf8
    } else if is_flagged(values, "text") {
        Spelling::Text
    } else {
        Spelling::Hexadecimal
    }
}
