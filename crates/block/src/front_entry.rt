//! One entry as it is stored in a block.

ghost use Rattle.std.specs.Prelude.{◌≡◌, ◌<◌, ◌^◌};
ghost use Rattle.std.specs.Option.{option_map};
ghost use Rattle.block.specs.EntryFormat.{length_at, entry_of_lengths, encoded_entry_at};
ghost use Rattle.block.specs.EntryLengths.{lengths_at};
ghost use Rattle.block.specs.FrontField.{front_field, front_lengths};

use crate::front::{FrontEntry, FrontLength, FrontLengths};
use coding::read_u32_varint;

/// The entry at the front of bytes, if there is one.
#[inline(always)]
pub(crate) fn front_entry_at(bytes: &[u8]) -> Option<FrontEntry<'_>>
    ensures { option_map front_field result ≡ encoded_entry_at bytes.now }
{
    match bytes {
        // Most lengths have one byte.
        [shared, unshared, value, behind @ ..]
            if *shared < 128 && *unshared < 128 && *value < 128 => {
            entry_of_lengths(
                *shared as usize,
                *unshared as usize,
                *value as usize,
                behind,
            )
        }
        // A value's length often has two.
        [shared, unshared, low, high, behind @ ..]
            if *shared < 128 && *unshared < 128 && *low >= 128 && *high > 0 && *high < 128 => {
            entry_of_lengths(
                *shared as usize,
                *unshared as usize,
                (*low - 128) as usize + 128 * *high as usize,
                behind,
            )
        }
        _ => {
            let lengths = lengths_by_varints(bytes)?;
            entry_of_lengths(
                lengths.shared,
                lengths.unshared,
                lengths.value,
                lengths.rest,
            )
        }
    }
}

/// The lengths at the front of bytes, which may have several bytes each, and the bytes after them.
#[cold]
#[inline(never)]
fn lengths_by_varints(bytes: &[u8]) -> Option<FrontLengths<'_>>
    ensures { option_map front_lengths result ≡ lengths_at bytes.now }
{
    let shared = length_at(bytes)?;
    let unshared = length_at(shared.rest)?;
    let value = length_at(unshared.rest)?;
    Some(FrontLengths {
        shared: shared.length,
        unshared: unshared.length,
        value: value.length,
        rest: value.rest,
    })
}

/// The entry of these lengths, if `bytes` begin with the unshared bytes of its key and its value.
#[inline(always)]
fn entry_of_lengths(
    shared: usize,
    unshared: usize,
    value: usize,
    bytes: &[u8],
) -> Option<FrontEntry<'_>>
    requires shared { shared < 2 ^ 32 }
    requires unshared { unshared < 2 ^ 32 }
    requires value { value < 2 ^ 32 }
    ensures { option_map front_field result ≡ entry_of_lengths shared unshared value bytes.now }
{
    if bytes.len() < unshared + value {
        return None;
    }
    let behind = bytes;
    let (unshared, bytes) = bytes.split_at(unshared);
    let (value, rest) = bytes.split_at(value);
    Some(FrontEntry {
        shared,
        unshared,
        behind,
        value,
        rest,
    })
}

/// The length at the front of bytes: a varint below 2^32.
fn length_at(bytes: &[u8]) -> Option<FrontLength<'_>>
    ensures { option_map (λ x. record { field = x.length; rest = x.rest.now }) result
        ≡ length_at bytes.now }
{
    let (number, used) = read_u32_varint(bytes)?;
    let (_, rest) = bytes.split_at(used);
    Some(FrontLength {
        length: number as usize,
        rest,
    })
}
