//! The three ways in which keys and values are written.

ghost use Rattle.std.specs.Prelude.{◌≡◌, ◌++◌, length, take, IsOkUnless, Ok, OnErr, OnOk};
ghost use Rattle.std.specs.Prelude.{option_map, string_bytes};
ghost use Rattle.std.specs.Str.{is_utf8};
ghost use Rattle.coding.specs.Answers.{EqualOrMemory, fault};
ghost use Rattle.coding.specs.declared.fault.FaultName.TheVariants.{Memory};
ghost use Rattle.texts.specs.Escaped.{first_in_key, first_in_value};
ghost use Rattle.texts.specs.Spelling.{ArePrintable, ReadBack, bytes_of, key_text, value_text};

use crate::escaped::{FIRST_IN_KEY, FIRST_IN_VALUE, OwnBytes, bytes_of_escaped, push_escaped};
use crate::hex_text::{key_of, push_text_of};
use coding::Fault;
use std::alloc::Global;
use std::str;

/// How keys and values are written.
#[derive(Clone, Copy, PartialEq, Eq)]
pub enum Spelling {
    /// Two hexadecimal digits a byte; `-` for no bytes.
    Hexadecimal,
    /// Printable ASCII, and `\xHH` for every other byte; `""` for no bytes. A character outside
    /// ASCII is read as its bytes in UTF-8.
    Text,
    /// The same, but bytes that are UTF-8 have their characters outside ASCII as themselves.
    Utf8,
}

impl Spelling {
    /// Appends the text of a key, which has no space.
    ///
    /// Memory may leave a part of the text after what was there.
    pub fn push_key(self, out: &mut Vec<u8>, key: &[u8]) -> Result<(), Fault>
        ensures ok { OnOk result (out.new.items ≡ out.old.items ++ key_text self key.now) }
        ensures err { OnErr result (take (length out.old.items) out.new.items ≡ out.old.items) }
        ensures memory { IsOkUnless result (fault Memory) }
    {
        match self {
            Spelling::Hexadecimal => push_text_of(out, key),
            Spelling::Text => push_escaped(out, key, own_from(FIRST_IN_KEY, false)),
            Spelling::Utf8 => push_escaped(out, key, own_from(FIRST_IN_KEY, is_utf8(key))),
        }
    }

    /// Appends the text of a value.
    ///
    /// Memory may leave a part of the text after what was there.
    pub fn push_value(self, out: &mut Vec<u8>, value: &[u8]) -> Result<(), Fault>
        ensures ok { OnOk result (out.new.items ≡ out.old.items ++ value_text self value.now) }
        ensures err { OnErr result (take (length out.old.items) out.new.items ≡ out.old.items) }
        ensures memory { IsOkUnless result (fault Memory) }
    {
        match self {
            Spelling::Hexadecimal => push_text_of(out, value),
            Spelling::Text => push_escaped(out, value, own_from(FIRST_IN_VALUE, false)),
            Spelling::Utf8 => push_escaped(out, value, own_from(FIRST_IN_VALUE, is_utf8(value))),
        }
    }

    pub fn key_text(self, alloc: Global, key: &[u8]) -> Result<String, Fault>
        ensures { EqualOrMemory string_bytes result (Ok (key_text self key.now)) }
    {
        let mut text = Vec::new(alloc);
        self.push_key(&mut text, key)?;
        // It is ASCII, or UTF-8 whose ASCII may be escaped.
        Ok(String::from_utf8(text).unwrap())
    }

    pub fn value_text(self, alloc: Global, value: &[u8]) -> Result<String, Fault>
        ensures { EqualOrMemory string_bytes result (Ok (value_text self value.now)) }
    {
        let mut text = Vec::new(alloc);
        self.push_value(&mut text, value)?;
        // It is ASCII, or UTF-8 whose ASCII may be escaped.
        Ok(String::from_utf8(text).unwrap())
    }

    /// The bytes that a text of a key or a value stands for; None if it stands for none.
    pub fn bytes_of(self, alloc: Global, text: &str) -> Result<Option<Vec<u8>>, Fault>
        ensures { EqualOrMemory (option_map (λ bytes. bytes.items)) result
            (Ok (bytes_of self text.now)) }
    {
        match self {
            Spelling::Hexadecimal => key_of(alloc, text),
            Spelling::Text => bytes_of_escaped(alloc, text),
            Spelling::Utf8 => bytes_of_escaped(alloc, text),
        }
    }
}

/// The bytes that stand for themselves: characters of ASCII from `first` on, and all others if
/// `is_wide`.
fn own_from(first: u8, is_wide: bool) -> OwnBytes
    ensures { result ≡ record { first = first; is_wide = is_wide } }
{
    OwnBytes { first, is_wide }
}

/// Whether bytes are UTF-8.
pub fn is_utf8(bytes: &[u8]) -> bool
    ensures { result ≡ is_utf8 bytes.now }
{
    str::from_utf8(bytes).is_ok()
}

/// The law of the text of a key or a value, in each spelling. It is read as the same bytes, and
/// it is printable ASCII, or such with characters outside ASCII. That of a key has no space. So a
/// line is a key up to its first space, and what comes after it. A call does nothing.
pub fn texts_law()
    ensures keys { ReadBack key_text }
    ensures values { ReadBack value_text }
    ensures key_characters { ArePrintable first_in_key key_text }
    ensures value_characters { ArePrintable first_in_value value_text }
{}
