//! Varints: a number in groups of seven bits, one group a byte, the lowest first.
//!
//!     300 = 0b10_0101100    ac 02    the high bit is set on each byte but the last
//!
//! 1. A number below 2^64 has one spelling of 1 to 10 bytes, the shortest.
//! 2. Bytes that begin with a longer spelling have no reading; its last group is 0. Neither have
//!    bytes whose number exceeds its width, or that end within the spelling.
//! 3. Bytes after the spelling are not looked at.

ghost use Rattle.std.specs.Prelude.{◌≡◌, ℕ, ◌<◌, ◌≤◌, ◌^◌, ◌↔◌, ◌⊎◌, List, ◌∷◌, ◌++◌, length, OnOk};
ghost use Rattle.std.specs.Prelude.{OnErr, IsOkUnless, Some};
ghost use Rattle.coding.specs.Answers.{fault};
ghost use Rattle.coding.specs.Varint.{IsGroups, varint, front_number, varint_reading};
ghost use Rattle.coding.specs.Varint.{length_prefixed};
ghost use Rattle.coding.specs.declared.fault.FaultName.TheVariants.{Memory};

use crate::fault::Fault;

/// The most bytes of a number below 2^64.
const MAX_LEN: usize = 10;

/// The varint32 at the front of `bytes`, and its length, 1 to 5 bytes.
///
/// None if `bytes` don't begin with the shortest spelling of a number below 2^32.
#[inline]
pub fn read_u32_varint(bytes: &[u8]) -> Option<(u32, usize)>
    ensures { result ≡ varint_reading (2 ^ 32) bytes.now }
{
    let (number, used) = read_u64_varint(bytes)?;
    if number > u32::MAX as u64 {
        return None;
    }
    Some((number as u32, used))
}

/// The varint64 at the front of `bytes`, and its length, 1 to 10 bytes.
///
/// None if `bytes` don't begin with the shortest spelling of a number below 2^64.
#[inline]
pub fn read_u64_varint(bytes: &[u8]) -> Option<(u64, usize)>
    ensures { result ≡ varint_reading (2 ^ 64) bytes.now }
{
    match bytes {
        [] => None,
        [only, ..] if *only < 128 => Some((*only as u64, 1)),
        [first, rest @ ..] => read_groups(*first, rest),
    }
}

/// Appends the one spelling of `number`, 1 to 10 bytes.
#[inline]
pub fn push_varint(out: &mut Vec<u8>, number: u64) -> Result<(), Fault>
    ensures ok { OnOk result (out.new.items ≡ out.old.items ++ varint number) }
    ensures err { OnErr result (out.new.items ≡ out.old.items) }
    ensures memory { IsOkUnless result (fault Memory) }
{
    if number < 128 {
        out.push(number as u8)?;
        return Ok(());
    }
    push_groups(out, number)
}

/// Appends the length of `slice` as a varint, and then `slice`, of fewer than 2^32 bytes.
pub fn push_slice(out: &mut Vec<u8>, slice: &[u8]) -> Result<(), Fault>
    requires { length slice.now < 2 ^ 32 }
    ensures ok { OnOk result (out.new.items ≡ out.old.items ++ length_prefixed slice.now) }
    ensures err { OnErr result (out.new.items ≡ out.old.items) }
    ensures memory { IsOkUnless result (fault Memory) }
{
    let len = out.len();
    push_varint(out, slice.len() as u64)?;
    if let Err(refused) = out.extend_from_slice(slice) {
        // The length is taken back too.
        out.truncate(len);
        return Err(refused.into());
    }
    Ok(())
}

/// The law that a number has one spelling, the shortest, and that no spelling begins another. So
/// what was written is read, whatever follows it. A call does nothing.
pub fn one_reading()
    // The spelling is the number's groups.
    ensures groups { (number : ℕ) → number < 2 ^ 64
        → IsGroups (varint number) × (front_number (varint number) ≡ number) }
    // Any other groups for the number are longer.
    ensures shortest { (bytes : List ℕ) → IsGroups bytes → front_number bytes < 2 ^ 64 →
        (bytes ≡ varint (front_number bytes))
        ⊎ (length (varint (front_number bytes)) < length bytes) }
    // A reading finds the spelling at the front, and only that.
    ensures read { (limit : ℕ) (bytes : List ℕ) (number used : ℕ) → limit ≤ 2 ^ 64 →
        (varint_reading limit bytes ≡ Some (number, used)) ↔
        ((number < limit) × (used ≡ length (varint number))
        × ((rest : List ℕ) × (bytes ≡ varint number ++ rest))) }
    // What follows a spelling is not part of it.
    ensures apart { (x y : ℕ) (a b : List ℕ) → x < 2 ^ 64 → y < 2 ^ 64
        → varint x ++ a ≡ varint y ++ b → (x ≡ y) × (a ≡ b) }
{}

/// The reading of `first`, whose high bit is set, and then `rest`.
fn read_groups(first: u8, rest: &[u8]) -> Option<(u64, usize)>
    requires { 128 ≤ first }
    ensures { result ≡ varint_reading (2 ^ 64) (first ∷ rest.now) }
{
    let mut number = (first - 128) as u64;
    for (i, byte) in rest.iter().enumerate() {
        let byte = *byte;
        let shift = 7 * i + 7;
        // Nine groups leave one bit of the 64.
        if i + 2 == MAX_LEN && byte > 1 {
            return None;
        }
        if byte < 128 {
            // A last group of 0 would make a second, longer spelling.
            if byte == 0 {
                return None;
            }
            return Some((number + ((byte as u64) << shift), i + 2));
        }
        number += ((byte - 128) as u64) << shift;
    }
    None
}

/// Appends the one spelling of `number`.
fn push_groups(out: &mut Vec<u8>, number: u64) -> Result<(), Fault>
    ensures ok { OnOk result (out.new.items ≡ out.old.items ++ varint number) }
    ensures err { OnErr result (out.new.items ≡ out.old.items) }
    ensures memory { IsOkUnless result (fault Memory) }
{
    let mut buffer = [0u8; MAX_LEN];
    let mut last = 0;
    let mut rest = number;
    while rest >= 128 {
        buffer[last] = 128 + (rest % 128) as u8;
        rest /= 128;
        last += 1;
    }
    buffer[last] = rest as u8;
    out.extend_from_slice(&buffer[..last + 1])?;
    Ok(())
}
