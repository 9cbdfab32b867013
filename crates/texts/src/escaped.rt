//! Keys and values as text for people: printable ASCII, and `\xHH` for every other byte.
//!
//! 1. A character from `!` to `~`, but for the backslash, stands for itself. So does a space in a
//!    value. In a key it is `\x20`, so that a key ends at the first space of its line.
//! 2. Every other byte is `\x` and two lower-case hexadecimal digits.
//! 3. No bytes are `""`. The two bytes `""` are `\x22\x22`.
//!
//! With `is_wide`, bytes outside ASCII stand for themselves too, as those of UTF-8.
//!
//! A text is read by the same rules, with digits of either case. In a key too a space is read, and
//! any byte may be given as `\xHH`. A character outside ASCII is read as its bytes in UTF-8. No
//! other text is read: not the empty one, nor one with a lone backslash or a control character.

ghost use Rattle.std.specs.Prelude.{◌≡◌, ◌++◌, ◌<◌, length, slice_index, take, IsOkUnless, IfSome};
ghost use Rattle.std.specs.Prelude.{None, Ok, Some, MatchOption, OnErr, OnOk, option_map};
ghost use Rattle.std.specs.List.{flat_map};
ghost use Rattle.coding.specs.Answers.{EqualOrMemory, fault};
ghost use Rattle.coding.specs.declared.fault.FaultName.TheVariants.{Memory};
ghost use Rattle.hex.specs.Hex.{hex_digit_value};
ghost use Rattle.texts.specs.Escaped.{backslash, bytes_of_escaped, escaped, escaped_byte};
ghost use Rattle.texts.specs.Escaped.{is_own, is_plain, joined, unescaped};

use crate::digits::digit_of;
use coding::Fault;
use std::alloc::Global;

/// The text of no bytes.
const NOTHING: &str = "\"\"";

/// The text of the bytes that look like the text of no bytes.
const QUOTATION_MARKS: &str = "\\x22\\x22";

/// The first character that stands for itself in a key.
pub(crate) const FIRST_IN_KEY: u8 = b'!';

/// The first character that stands for itself in a value.
pub(crate) const FIRST_IN_VALUE: u8 = b' ';

/// The bytes of a text without control characters, in which a backslash begins `\xHH`, with digits
/// of either case; no bytes for `""`. A character outside ASCII is its bytes in UTF-8.
///
/// None for every other text, as the empty one.
pub fn bytes_of_escaped(alloc: Global, text: &str) -> Result<Option<Vec<u8>>, Fault>
    ensures { EqualOrMemory (option_map (λ bytes. bytes.items)) result
        (Ok (bytes_of_escaped text.now)) }
{
    if text == NOTHING {
        return Ok(Some(Vec::new(alloc)));
    }
    if text.is_empty() {
        return Ok(None);
    }
    unescaped(alloc, text.as_bytes())
}

/// Which bytes stand for themselves.
#[derive(Clone, Copy)]
pub(crate) struct OwnBytes {
    /// The first character of ASCII that does. The last one is `~`, and the backslash doesn't.
    pub first: u8,
    /// Whether those outside ASCII do.
    pub is_wide: bool,
}

/// Appends the text of `bytes`, of which these stand for themselves.
///
/// It reads back ([`texts_law`](crate::texts_law)). Memory may leave a part of the text after what
/// was there.
pub(crate) fn push_escaped(out: &mut Vec<u8>, bytes: &[u8], own: OwnBytes) -> Result<(), Fault>
    ensures ok { OnOk result (out.new.items
        ≡ out.old.items ++ escaped own.is_wide own.first bytes.now) }
    ensures err { OnErr result (take (length out.old.items) out.new.items ≡ out.old.items) }
    ensures memory { IsOkUnless result (fault Memory) }
{
    if bytes.is_empty() {
        out.extend_from_slice(NOTHING.as_bytes())?;
        return Ok(());
    }
    if bytes == NOTHING.as_bytes() {
        out.extend_from_slice(QUOTATION_MARKS.as_bytes())?;
        return Ok(());
    }
    push_bytes(out, bytes, own)
}

/// Appends bytes, each itself or its escape.
fn push_bytes(out: &mut Vec<u8>, bytes: &[u8], own: OwnBytes) -> Result<(), Fault>
    ensures ok { OnOk result (out.new.items
        ≡ out.old.items ++ flat_map (escaped_byte own.is_wide own.first) bytes.now) }
    ensures err { OnErr result (take (length out.old.items) out.new.items ≡ out.old.items) }
    ensures memory { IsOkUnless result (fault Memory) }
{
    for byte in bytes {
        push_byte(out, *byte, own)?;
    }
    Ok(())
}

/// Appends a byte itself, or its escape.
#[inline]
fn push_byte(out: &mut Vec<u8>, byte: u8, own: OwnBytes) -> Result<(), Fault>
    ensures ok { OnOk result (out.new.items
        ≡ out.old.items ++ escaped_byte own.is_wide own.first byte) }
    ensures err { OnErr result (out.new.items ≡ out.old.items) }
    ensures memory { IsOkUnless result (fault Memory) }
{
    if is_plain(byte, own.first) || (own.is_wide && byte >= 128) {
        out.push(byte)?;
        return Ok(());
    }
    let (high, low) = (digit_of(byte / 16), digit_of(byte % 16));
    out.extend_from_slice(&[b'\\', b'x', high, low])?;
    Ok(())
}

/// Whether a byte stands for itself, if characters from `first` on do.
#[inline]
fn is_plain(byte: u8, first: u8) -> bool
    ensures { result ≡ is_plain first byte }
{
    first <= byte && byte <= b'~' && byte != b'\\'
}

/// Whether a byte of a text is read as itself: it stands for itself in a value, or it is part of a
/// character outside ASCII.
#[inline]
fn is_own(byte: u8) -> bool
    ensures { result ≡ is_own byte }
{
    is_plain(byte, FIRST_IN_VALUE) || !byte.is_ascii()
}

/// The bytes that characters stand for; None if one stands for none.
fn unescaped(alloc: Global, text: &[u8]) -> Result<Option<Vec<u8>>, Fault>
    ensures { EqualOrMemory (option_map (λ bytes. bytes.items)) result (Ok (unescaped text.now)) }
{
    let mut bytes = Vec::with_capacity(alloc, text.len())?;
    let mut rest = text;
    while !rest.is_empty() {
        let Some(first) = first_byte(rest) else {
            return Ok(None);
        };
        bytes.push(first.byte)?;
        rest = first.rest;
    }
    Ok(Some(bytes))
}

/// The first byte of a text, and the characters after those that stand for it.
#[derive(Clone, Copy)]
struct FirstByte<'a> {
    byte: u8,
    rest: &'a [u8],
}

/// The first byte of a text, None if its first character stands for none.
#[inline]
fn first_byte(text: &[u8]) -> Option<FirstByte<'_>>
    requires { 0 < length text.now }
    ensures first { MatchOption result (unescaped text.now ≡ None) (λ first.
        unescaped text.now ≡ joined (Some first.byte) (unescaped first.rest.now)) }
    ensures shorter { IfSome result (λ first. length first.rest.now < length text.now) }
{
    let (&character, rest) = text.split_first()?;
    if character == b'\\' {
        return escape_at_front(text);
    }
    if !is_own(character) {
        return None;
    }
    Some(FirstByte {
        byte: character,
        rest,
    })
}

/// The byte of the escape at the front of a text that begins with a backslash.
fn escape_at_front(text: &[u8]) -> Option<FirstByte<'_>>
    requires some { 0 < length text.now }
    requires begins { slice_index text.now 0 ≡ backslash }
    ensures first { MatchOption result (unescaped text.now ≡ None) (λ first.
        unescaped text.now ≡ joined (Some first.byte) (unescaped first.rest.now)) }
    ensures shorter { IfSome result (λ first. length first.rest.now < length text.now) }
{
    let [_, b'x', high, low, rest @ ..] = text else {
        return None;
    };
    let high = digit(*high)?;
    let low = digit(*low)?;
    Some(FirstByte {
        byte: 16 * high + low,
        rest,
    })
}

/// The value of a hexadecimal digit of either case.
#[inline]
fn digit(character: u8) -> Option<u8>
    ensures value { result ≡ hex_digit_value character }
    ensures small { IfSome result (λ value. value < 16) }
{
    match character {
        b'A'..=b'F' => Some(character - b'A' + 10),
        b'a'..=b'f' => Some(character - b'a' + 10),
        b'0'..=b'9' => Some(character - b'0'),
        _ => None,
    }
}
