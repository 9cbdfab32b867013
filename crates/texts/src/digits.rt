//! Hexadecimal digits, appended to bytes.

ghost use Rattle.std.specs.Prelude.{◌≡◌, ◌+◌, ◌*◌, ◌<◌, ◌++◌, ⊤, length, slice_index, MatchOption};
ghost use Rattle.std.specs.Prelude.{◌≤◌, map, take, IsOkUnless, OnErr, OnOk};
ghost use Rattle.std.specs.List.{All};
ghost use Rattle.coding.specs.Answers.{fault};
ghost use Rattle.coding.specs.declared.fault.FaultName.TheVariants.{Memory};
ghost use Rattle.hex.specs.Hex.{encode_lower, lower_digits};

use coding::{Fault, FaultName};
use std::simd::prelude::*;

/// How many bytes have their digits made at once.
const CHUNK_LEN: usize = 16;

/// Appends the lower-case digits of `bytes`, two a byte.
pub(crate) fn push_digits(out: &mut Vec<u8>, bytes: &[u8]) -> Result<(), Fault>
    ensures ok { OnOk result (out.new.items ≡ out.old.items ++ encode_lower bytes.now) }
    ensures err { OnErr result (out.new.items ≡ out.old.items) }
    ensures memory { IsOkUnless result (fault Memory) }
{
    let from = out.len();
    let Some(end) = end_of_digits(from, bytes.len()) else {
        // No memory holds as many.
        return Err(Fault::of(FaultName::Memory));
    };
    out.resize(end, 0)?;
    write_digits(out.slice_mut(from..), bytes);
    Ok(())
}

/// Where the digits of `len` bytes end, if they begin at `from`; None if that is 2^64 or more.
fn end_of_digits(from: usize, len: usize) -> Option<usize>
    ensures { MatchOption result ⊤ (λ end. end ≡ from + 2 * len) }
{
    from.checked_add(len.checked_mul(2)?)
}

/// Writes the digits of `bytes` over `room`.
fn write_digits(room: &mut [u8], bytes: &[u8])
    requires { length room.old ≡ 2 * length bytes.now }
    ensures { room.new ≡ encode_lower bytes.now }
{
    if bytes.len() < CHUNK_LEN {
        write_few(room, bytes);
        return;
    }
    let last = bytes.len() - CHUNK_LEN;
    let mut place = 0;
    while place < last {
        write_chunk(room, bytes, place);
        place += CHUNK_LEN;
    }
    // The last chunk may begin among bytes whose digits were written already.
    write_chunk(room, bytes, last);
}

/// The same, a byte at a time.
fn write_few(room: &mut [u8], bytes: &[u8])
    requires { length room.old ≡ 2 * length bytes.now }
    ensures { room.new ≡ encode_lower bytes.now }
{
    for place in 0..bytes.len() {
        let byte = bytes[place];
        room[2 * place] = digit_of(byte / 16);
        room[2 * place + 1] = digit_of(byte % 16);
    }
}

/// Writes the digits of the sixteen bytes from `place` on.
#[inline(always)]
fn write_chunk(room: &mut [u8], bytes: &[u8], place: usize)
    requires fits { place + 16 ≤ length bytes.now }
    requires room { length room.old ≡ 2 * length bytes.now }
    requires front { take (2 * place) room.old ≡ encode_lower (take place bytes.now) }
    ensures len { length room.new ≡ length room.old }
    ensures front { take (2 * place + 32) room.new ≡ encode_lower (take (place + 16) bytes.now) }
{
    let chunk = u8x16::from_slice(&bytes[place..]);
    let high = digits_of(chunk >> u8x16::splat(4));
    let low = digits_of(chunk & u8x16::splat(15));
    let (front, back) = high.interleave(low);
    front.copy_to_slice(&mut room[2 * place..]);
    back.copy_to_slice(&mut room[2 * place + CHUNK_LEN..]);
}

/// The digits of numbers below 16.
#[inline(always)]
fn digits_of(numbers: u8x16) -> u8x16
    requires { All (λ n. n < 16) numbers }
    ensures { result ≡ map (slice_index lower_digits) numbers }
{
    let are_letters = numbers.simd_gt(u8x16::splat(9));
    are_letters.select(u8x16::splat(b'a' - 10), u8x16::splat(b'0')) + numbers
}

/// The digit of a number below 16. It is computed, not looked up, so that several digits can be
/// made at once.
#[inline]
#[tactic(auto, using(crate::proofs::DigitLemmas::lower_digit))]
pub(crate) fn digit_of(number: u8) -> u8
    requires { number < 16 }
    ensures { result ≡ slice_index lower_digits number }
{
    if number < 10 {
        b'0' + number
    } else {
        b'a' - 10 + number
    }
}
