//! An entry that was found, in its own memory.

ghost use Rattle.std.specs.Prelude.{◌≡◌};
ghost use Rattle.std.specs.Option.{option_and_then, option_map};
ghost use Rattle.reads.specs.Gets.{value_in};
ghost use Rattle.reads.specs.Visible.{newer_visible, visible_of};

use reads::Kind;
use std::marker::Model;
use table::KeyBuf;

/// An entry: its internal key, and its value.
#[derive(Drop)]
pub struct OwnedEntry {
    pub key: KeyBuf,
    pub value: Vec<u8>,
}

impl Model for OwnedEntry {
    ghost use Rattle.block.specs.EncodedEntry.{Entry};

    ghost Value = { Entry };

    ghost view = { λ e. record { key = e.key; value = e.value.items } };
}

/// The entry of the greater sequence; the first if they are equal.
pub(crate) fn newer(one: Option<OwnedEntry>, other: Option<OwnedEntry>) -> Option<OwnedEntry>
    ensures { option_map visible_of result
        ≡ newer_visible (option_map visible_of one) (option_map visible_of other) }
{
    let Some(second) = other else {
        return one;
    };
    let Some(first) = one else {
        return Some(second);
    };
    if sequence(&first) < sequence(&second) {
        Some(second)
    } else {
        Some(first)
    }
}

/// The sequence of an entry.
pub(crate) fn sequence(entry: &OwnedEntry) -> u64
    ensures { result ≡ (visible_of entry.now).sequence }
{
    entry.key.as_key().sequence()
}

/// The value of an entry; None if there is none, or if it is a deletion.
pub(crate) fn value_of(found: Option<OwnedEntry>) -> Option<Vec<u8>>
    ensures { option_map (λ value. value.items) result ≡ option_and_then value_in found }
{
    let Some(OwnedEntry { key, value }) = found else {
        return None;
    };
    match key.as_key().kind() {
        Kind::Put => Some(value),
        Kind::Delete => None,
    }
}
