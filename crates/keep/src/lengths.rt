//! The lengths of entries in a block, before any of its bytes is made.

ghost use Rattle.std.specs.Prelude.{◌≡◌, ◌≤◌, length};
ghost use Rattle.coding.specs.Varint.{varint};
ghost use Rattle.coding.specs.Saturated.{saturated};
ghost use Rattle.keep.specs.Sizes.{encoded_entry_size};

/// The length of a number as a varint: 1 to 10 bytes.
pub fn varint_len(number: u64) -> u64
    ensures value { result ≡ length (varint number) }
    ensures within { result ≤ 10 }
{
    let mut len = 1;
    let mut rest = number;
    while rest >= 128 {
        rest /= 128;
        len += 1;
    }
    len
}

/// The length of an entry in a block: three varints, and the unshared bytes and the value.
/// `shared`, `unshared` and `value` are in bytes. A sum of 2^64 or more is answered as 2^64 - 1.
#[inline(always)]
pub fn encoded_entry_len(shared: usize, unshared: usize, value: usize) -> u64
    ensures { result ≡ saturated (encoded_entry_size shared unshared value) }
{
    if shared < 128 && unshared < 128 && value < 128 {
        // Each of the three varints takes one byte.
        return 3 + unshared as u64 + value as u64;
    }
    let lengths = varint_len(shared as u64)
        + varint_len(unshared as u64)
        + varint_len(value as u64);
    lengths
        .saturating_add(unshared as u64)
        .saturating_add(value as u64)
}
