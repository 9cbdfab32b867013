//! CRC-32C (Castagnoli), and the mask under which formats store it.
//!
//! A register of 32 bits takes in the bits of the bytes, the lowest bit of each byte first. It
//! holds a remainder, with the coefficient of power 31 in its lowest bit.
//!
//! 1. Steps are linear over exclusive or. So a table can hold what n steps make of each byte.
//! 2. Sixteen bytes are taken at a time, as four words. Each word is advanced by itself, so the
//!    four don't wait for each other. All four use the same four tables.
//! 3. Of many bytes, all but the last go without tables: they are added to later ones (`window`).

mod tables;
mod window;

ghost use Rattle.std.specs.Prelude.{◌≡◌, ℕ, ◌+◌, ◌^◌, ◌<◌, ◌++◌, bit_xor};
ghost use Rattle.coding.specs.Crc.{RemainderLaw, bits_of, crc32c, masked};
ghost use Rattle.coding.specs.CrcRegister.{register_after_bits, register_of_lanes};
ghost use Rattle.coding.specs.CrcRegister.{register_after_steps};
ghost use Rattle.std.specs.List.{concat};

use tables::{AFTER_FIFTEEN, AFTER_FOURTEEN, AFTER_ONE, AFTER_SIXTEEN, AFTER_THIRTEEN};
use window::advanced_by_window;

/// The divisor without its leading coefficient; the coefficient of power 31 is the lowest bit.
const CASTAGNOLI: u32 = 0x82f6_3b78;

/// The fewest chunks for which a window is worth its cost.
const FEWEST: usize = 40;

/// What [`mask`] adds.
const MASK_DELTA: u32 = 0xa282_ead8;

/// CRC-32C (Castagnoli) of `bytes`; 0 for no bytes.
///
/// It is the remainder by the polynomial 0x11edc6f41. The lowest bit of each byte comes first, and
/// the first 32 bits and the remainder are inverted.
pub fn crc32c(bytes: &[u8]) -> u32
    ensures { result ≡ crc32c bytes.now }
{
    !advanced(u32::MAX, bytes)
}

/// CRC-32C of the bytes of `first` and then those of `second`, which may lie apart.
pub fn crc32c_pair(first: &[u8], second: &[u8]) -> u32
    ensures { result ≡ crc32c (first.now ++ second.now) }
{
    let register = advanced(u32::MAX, first);
    !advanced(register, second)
}

/// The same as [`crc32c`], bit by bit and without a table: many times slower, to compare it with.
pub fn crc32c_plain(bytes: &[u8]) -> u32
    ensures { result ≡ crc32c bytes.now }
{
    let mut register = u32::MAX;
    for byte in bytes {
        register = eight_steps(register ^ u32::from(*byte));
    }
    !register
}

/// `crc` as formats store it: rotated right by 15 bits, plus 0xa282ead8 modulo 2^32.
///
/// Why: without a mask, all bytes that end with their own CRC would have the same CRC.
pub fn mask(crc: u32) -> u32
    ensures { result ≡ masked crc }
{
    crc.rotate_right(15).wrapping_add(MASK_DELTA)
}

/// The one CRC whose [`mask`] is `masked_crc`. Each number of 32 bits is the mask of one CRC.
pub fn unmask(masked_crc: u32) -> u32
    ensures mask_undone { masked result ≡ masked_crc }
    ensures only { (crc : ℕ) → crc < 2 ^ 32 → masked crc ≡ masked_crc → result ≡ crc }
{
    masked_crc.wrapping_sub(MASK_DELTA).rotate_left(15)
}

/// The law under [`crc32c`]: long division of a polynomial of at least 32 coefficients leaves its
/// remainder, and no other list is its remainder. A call does nothing.
pub fn remainder_law()
    ensures { RemainderLaw }
{}

/// The register after eight steps.
fn eight_steps(mut register: u32) -> u32
    ensures { result ≡ register_after_steps 8 register }
{
    for _taken in 0..8u32 {
        register = register >> 1 ^ register % 2 * CASTAGNOLI;
    }
    register
}

/// The register after `bytes`.
fn advanced(register: u32, bytes: &[u8]) -> u32
    ensures { result ≡ register_after_bits register (bits_of bytes.now) }
{
    let (chunks, rest) = bytes.as_chunks::<16>();
    advanced_by_bytes(advanced_by_chunks(register, chunks), rest)
}

/// The register after `chunks`.
fn advanced_by_chunks(register: u32, chunks: &[[u8; 16]]) -> u32
    ensures { result ≡ register_after_bits register (bits_of (concat chunks.now)) }
{
    if chunks.len() >= FEWEST {
        return advanced_by_window(register, chunks);
    }
    match chunks.split_first() {
        Some((first, chunks)) => Lanes::begun(register, first).over(chunks).settled(),
        None => register,
    }
}

/// The register after `bytes`, taken in one by one.
fn advanced_by_bytes(mut register: u32, bytes: &[u8]) -> u32
    ensures { result ≡ register_after_bits register (bits_of bytes.now) }
{
    for byte in bytes {
        register = past_one(register ^ u32::from(*byte));
    }
    register
}

/// `register`, advanced by one byte.
#[inline(always)]
fn past_one(register: u32) -> u32
    ensures { result ≡ register_after_steps 8 register }
{
    register >> 8 ^ AFTER_ONE[(register % 256) as usize]
}

/// `register`, advanced by four bytes.
fn past_four(register: u32) -> u32
    ensures { result ≡ register_after_steps 32 register }
{
    past_one(past_one(past_one(past_one(register))))
}

/// `register`, advanced by sixteen bytes.
#[inline(always)]
fn past_sixteen(register: u32) -> u32
    ensures { result ≡ register_after_steps 128 register }
{
    let [first, second, third, fourth] = register.to_le_bytes();
    AFTER_SIXTEEN[first as usize]
        ^ AFTER_FIFTEEN[second as usize]
        ^ AFTER_FOURTEEN[third as usize]
        ^ AFTER_THIRTEEN[fourth as usize]
}

/// The four words of a chunk, after the register so far was added to them. Each word has yet to
/// take its own steps for sixteen bytes.
#[derive(Clone, Copy)]
struct Lanes {
    first: u32,
    second: u32,
    third: u32,
    fourth: u32,
}

impl Lanes {
    /// The words of a chunk.
    #[inline(always)]
    fn of(chunk: &[u8; 16]) -> Lanes
        ensures { (register : ℕ) →
            register_after_bits register (bits_of chunk.now)
            ≡ register_of_lanes (record result { first = bit_xor register result.first }) }
    {
        Lanes {
            first: u32::from_le_bytes([chunk[0], chunk[1], chunk[2], chunk[3]]),
            second: u32::from_le_bytes([chunk[4], chunk[5], chunk[6], chunk[7]]),
            third: u32::from_le_bytes([chunk[8], chunk[9], chunk[10], chunk[11]]),
            fourth: u32::from_le_bytes([chunk[12], chunk[13], chunk[14], chunk[15]]),
        }
    }

    /// The words of the first chunk, with `register` added.
    fn begun(register: u32, chunk: &[u8; 16]) -> Lanes
        ensures { register_of_lanes result ≡ register_after_bits register (bits_of chunk.now) }
    {
        let words = Lanes::of(chunk);
        Lanes {
            first: register ^ words.first,
            ..words
        }
    }

    /// The words after one more chunk.
    #[inline(always)]
    fn with(self, chunk: &[u8; 16]) -> Lanes
        ensures { register_of_lanes result
            ≡ register_after_bits (register_of_lanes self) (bits_of chunk.now) }
    {
        let words = Lanes::of(chunk);
        Lanes {
            first: past_sixteen(self.first) ^ words.first,
            second: past_sixteen(self.second) ^ words.second,
            third: past_sixteen(self.third) ^ words.third,
            fourth: past_sixteen(self.fourth) ^ words.fourth,
        }
    }

    /// The words after more chunks.
    fn over(mut self, chunks: &[[u8; 16]]) -> Lanes
        ensures { register_of_lanes result
            ≡ register_after_bits (register_of_lanes self) (bits_of (concat chunks.now)) }
    {
        for chunk in chunks {
            self = self.with(chunk);
        }
        self
    }

    /// The register after all the chunks.
    fn settled(self) -> u32
        ensures { result ≡ register_of_lanes self }
    {
        let register = past_four(self.first);
        let register = past_four(register ^ self.second);
        let register = past_four(register ^ self.third);
        past_four(register ^ self.fourth)
    }
}
