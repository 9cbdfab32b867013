//! Comparing bytes eight at a time.

ghost use Rattle.std.specs.Prelude.{◌≡◌, ◌+◌, ◌/◌, ◌≤◌, nat_eq, length, drop};
ghost use Rattle.std.specs.Int.{trailing_zeros, w64};
ghost use Rattle.std.specs.List.{common_prefix_len};
ghost use Rattle.byteorder.specs.Endian.{little_number};

use byteorder::{ByteOrder, LittleEndian};

/// How many bytes are compared at a time.
const WORD_LEN: usize = 8;

/// How many bits a byte has.
const BYTE_BITS: usize = 8;

/// The length of the longest common beginning of `a` and `b`.
#[inline]
pub fn common_len(a: &[u8], b: &[u8]) -> usize
    ensures value { result ≡ common_prefix_len nat_eq a.now b.now }
    ensures within { (result ≤ length a.now) × (result ≤ length b.now) }
{
    let shorter = a.len().min(b.len());
    if shorter < WORD_LEN {
        return common_bytes(a, b);
    }
    for i in 0..shorter / WORD_LEN {
        let difference = word_at(a, WORD_LEN * i) ^ word_at(b, WORD_LEN * i);
        if difference != 0 {
            return WORD_LEN * i + same_bytes(difference);
        }
    }
    // The last word of the shorter one may begin among bytes that were compared already.
    let last = shorter - WORD_LEN;
    let difference = word_at(a, last) ^ word_at(b, last);
    if difference != 0 {
        return last + same_bytes(difference);
    }
    shorter
}

/// How many bytes at the front of two words are equal, `difference` being their exclusive or.
#[inline]
fn same_bytes(difference: u64) -> usize
    ensures { result ≡ trailing_zeros w64 difference / 8 }
{
    difference.trailing_zeros() as usize / BYTE_BITS
}

/// The number in the eight bytes from `place` on, the lowest byte first.
#[inline]
fn word_at(bytes: &[u8], place: usize) -> u64
    requires { place + 8 ≤ length bytes.now }
    ensures { result ≡ little_number 8 (drop place bytes.now) }
{
    LittleEndian::read_u64(&bytes[place..])
}

/// The length of the longest common beginning of `a` and `b`, byte by byte.
fn common_bytes(a: &[u8], b: &[u8]) -> usize
    ensures { result ≡ common_prefix_len nat_eq a.now b.now }
{
    let shorter = a.len().min(b.len());
    for place in 0..shorter {
        if a[place] != b[place] {
            return place;
        }
    }
    shorter
}
