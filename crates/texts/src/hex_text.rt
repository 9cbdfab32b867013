//! Keys, values and numbers as text: hexadecimal digits, `-` for no bytes, and decimal digits.

ghost use Rattle.std.specs.Prelude.{◌≡◌, ◌↔◌, ◌++◌, ℕ, List, Some, Ok, MatchOption, option_map};
ghost use Rattle.std.specs.Prelude.{IsOkUnless, OnErr, OnOk, string_bytes};
ghost use Rattle.coding.specs.Answers.{EqualOrMemory, fault};
ghost use Rattle.coding.specs.declared.fault.FaultName.TheVariants.{Memory};
ghost use Rattle.hex.specs.Hex.{IsBytes};
ghost use Rattle.std.specs.Str.Parse.{digits_value};
ghost use Rattle.texts.specs.Text.{IsNumberText, StandsFor, bytes_of_text, text_of_bytes};

use crate::digits::push_digits;
use coding::{Fault, FaultName};
use hex::FromHexError;
use std::alloc::Global;

/// The text of no bytes.
const NOTHING: &str = "-";

/// The text of `bytes`: lower-case hexadecimal digits, two a byte; `-` for no bytes.
///
/// It reads back.
pub fn text_of(alloc: Global, bytes: &[u8]) -> Result<String, Fault>
    ensures digits { EqualOrMemory string_bytes result (Ok (text_of_bytes bytes.now)) }
    ensures read_back { bytes_of_text (text_of_bytes bytes.now) ≡ Some bytes.now }
{
    if bytes.is_empty() {
        return Ok(String::from_str(alloc, NOTHING)?);
    }
    Ok(hex::encode(alloc, bytes)?)
}

/// Appends the text of `bytes`.
pub(crate) fn push_text_of(out: &mut Vec<u8>, bytes: &[u8]) -> Result<(), Fault>
    ensures ok { OnOk result (out.new.items ≡ out.old.items ++ text_of_bytes bytes.now) }
    ensures err { OnErr result (out.new.items ≡ out.old.items) }
    ensures memory { IsOkUnless result (fault Memory) }
{
    if bytes.is_empty() {
        out.extend_from_slice(NOTHING.as_bytes())?;
        return Ok(());
    }
    push_digits(out, bytes)
}

/// The bytes of a text of hexadecimal digits of either case, two a byte; no bytes for `-`.
///
/// None for every other text, as the empty one.
#[tactic(auto, using(crate::proofs::TextLemmas::bytes_of_text_meaning))]
pub fn key_of(alloc: Global, text: &str) -> Result<Option<Vec<u8>>, Fault>
    ensures meaning { (bytes : List ℕ) → IsBytes bytes
        → (bytes_of_text text.now ≡ Some bytes) ↔ StandsFor text.now bytes }
    ensures answer { EqualOrMemory (option_map (λ key. key.items)) result
        (Ok (bytes_of_text text.now)) }
{
    if text == NOTHING {
        return Ok(Some(Vec::new(alloc)));
    }
    if text.is_empty() {
        return Ok(None);
    }
    match hex::decode(alloc, text) {
        Ok(bytes) => Ok(Some(bytes)),
        Err(FromHexError::OutOfMemory) => Err(Fault::of(FaultName::Memory)),
        Err(_) => Ok(None),
    }
}

/// The number of a text of decimal digits, if it is below 2^64; else None.
///
/// A sign, a blank or no digit at all is None too.
pub fn number_of(text: &str) -> Option<u64>
    ensures { MatchOption result (IsNumberText text.now → ⊥)
        (λ number. IsNumberText text.now × (number ≡ digits_value 10 text.now)) }
{
    // `parse` reads a plus sign too.
    if text.as_bytes().first() == Some(&b'+') {
        return None;
    }
    text.parse().ok()
}
