//! Bytes that are taken out of a message, so that what is left has the same remainder.
//!
//! x^2128 + x^1144 + x^968 + x^704 + x^568 + 1 is a multiple of the divisor, and each of its powers
//! is whole bytes. So a byte may be taken out if it is added to the bytes 123, 145, 178, 195 and
//! 266 places after it. This takes no table, and sixteen bytes at once.
//!
//! A window holds the bytes that were taken out last, which are added to the next ones.

ghost use Rattle.std.specs.Prelude.{◌≡◌, ℕ, ◌+◌, ◌<◌, ◌≤◌, ◌^◌, length, take};
ghost use Rattle.std.specs.List.{concat};
ghost use Rattle.coding.specs.Crc.{bits_of};
ghost use Rattle.coding.specs.CrcRegister.{register_after_bits};
ghost use Rattle.coding.specs.CrcWindow.{IsRegisterOf, chunk_sum, the_lags};

use super::Lanes;
use std::simd::prelude::*;

/// How far after a byte the last of those is to which it is added.
const REACH: usize = 266;

/// How many chunks are taken out before the window is moved to the front.
const ROUND: usize = 64;

/// How many chunks stay: the fewest that have [`REACH`] bytes.
const LEFT: usize = 17;

/// The bytes of a window and of a round.
const LEN: usize = REACH + 16 * ROUND;

/// The register after `chunks`, of which all but the last are taken out.
pub fn advanced_by_window(register: u32, chunks: &[[u8; 16]]) -> u32
    requires { 17 ≤ length chunks.now }
    ensures { result ≡ register_after_bits register (bits_of (concat chunks.now)) }
{
    let mut taken = begun(register);
    let mut rest = chunks;
    while rest.len() > LEFT {
        let (round, behind) = rest.split_at((rest.len() - LEFT).min(ROUND));
        take_out(&mut taken, round);
        rest = behind;
    }
    drained(&mut taken, rest)
}

/// A window to which `register` has come.
fn begun(register: u32) -> [u8; LEN]
    ensures { IsRegisterOf (take 266 result) register }
{
    let mut taken = [0; LEN];
    taken[..4].copy_from_slice(&register.to_le_bytes());
    taken
}

/// Takes out the bytes of at most [`ROUND`] chunks.
fn take_out(taken: &mut [u8; LEN], chunks: &[[u8; 16]])
    requires { length chunks.now ≤ 64 }
    ensures { (register : ℕ) → IsRegisterOf (take 266 taken.old) register →
        IsRegisterOf (take 266 taken.new)
        (register_after_bits register (bits_of (concat chunks.now))) }
{
    let (pairs, last) = chunks.as_chunks::<2>();
    let mut place = REACH;
    for pair in pairs {
        take_pair(taken, pair, place);
        place += 32;
    }
    if let Some(chunk) = last.first() {
        take_one(taken, chunk, place);
        place += 16;
    }
    taken.copy_within(place - REACH..place, 0);
}

/// Takes out the bytes of two chunks, which are stored from `place` on.
#[inline(always)]
fn take_pair(taken: &mut [u8; LEN], pair: &[[u8; 16]; 2], place: usize)
    requires from { 266 ≤ place }
    requires to { place ≤ 1258 }
    ensures { (register : ℕ) → IsRegisterOf (take place taken.old) register →
        IsRegisterOf (take (place + 32) taken.new)
        (register_after_bits register (bits_of (concat pair.now))) }
{
    take_one(taken, &pair[0], place);
    take_one(taken, &pair[1], place + 16);
}

/// Takes out the bytes of a chunk, which are stored from `place` on.
#[inline(always)]
fn take_one(taken: &mut [u8; LEN], chunk: &[u8; 16], place: usize)
    requires from { 266 ≤ place }
    requires to { place ≤ 1274 }
    ensures { (register : ℕ) → IsRegisterOf (take place taken.old) register →
        IsRegisterOf (take (place + 16) taken.new)
        (register_after_bits register (bits_of chunk.now)) }
{
    with_taken(chunk, taken, place).copy_to_slice(&mut taken[place..]);
}

/// The register after the [`LEFT`] last chunks.
fn drained(taken: &mut [u8; LEN], chunks: &[[u8; 16]]) -> u32
    requires { length chunks.now ≡ 17 }
    ensures { (register : ℕ) → register < 2 ^ 32 → IsRegisterOf (take 266 taken.old) register →
        result ≡ register_after_bits register (bits_of (concat chunks.now)) }
{
    taken[REACH..REACH + 16 * LEFT].fill(0);
    let mut lanes = Lanes {
        first: 0,
        second: 0,
        third: 0,
        fourth: 0,
    };
    let mut place = REACH;
    for chunk in chunks {
        lanes = lanes.with(&with_taken(chunk, taken, place).to_array());
        place += 16;
    }
    lanes.settled()
}

/// `chunk` with the bytes added that were taken out at the five distances before it.
#[inline(always)]
fn with_taken(chunk: &[u8; 16], taken: &[u8; LEN], place: usize) -> u8x16
    requires from { 266 ≤ place }
    requires to { place ≤ 1290 }
    ensures sum { result ≡ chunk_sum the_lags (take place taken.now) chunk.now }
    ensures len { length chunk.now ≡ 16 }
{
    u8x16::from_array(*chunk)
        ^ u8x16::from_slice(&taken[place - 123..])
        ^ u8x16::from_slice(&taken[place - 145..])
        ^ u8x16::from_slice(&taken[place - 178..])
        ^ u8x16::from_slice(&taken[place - 195..])
        ^ u8x16::from_slice(&taken[place - REACH..])
}
