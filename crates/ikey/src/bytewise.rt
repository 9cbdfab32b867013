//! The order of user keys as unsigned bytes.

ghost use Rattle.std.specs.Prelude.{◌≡◌, ◌+◌, ◌-◌, ◌<◌, ◌≤◌, ◌++◌, Ok, length, drop, replicate};
ghost use Rattle.std.specs.Prelude.{slice_index};
ghost use Rattle.byteorder.specs.Endian.{big_number};
ghost use Rattle.coding.specs.Answers.{EqualOrMemory};
ghost use Rattle.ikey.specs.Bytewise.{bytewise_name, bytewise_cmp, bytewise_separator};
ghost use Rattle.ikey.specs.Bytewise.{bytewise_head, bytewise_short_keys};
ghost use Rattle.ikey.specs.Bytewise.{bytewise_successor, first_raisable, raised_at};
ghost use Rattle.std.proofs.lemmas.Cmp.{nat_list_cmp_total};
ghost use Rattle.ikey.specs.BytewiseLaws.{bytewise_exact, bytewise_rises, bytewise_between};
ghost use Rattle.ikey.specs.BytewiseLaws.{bytewise_above};

use crate::comparator::{Comparator, SharedComparator};
use byteorder::{BigEndian, ByteOrder};
use coding::{Fault, common_len};
use std::alloc::Global;
use std::cmp::Ordering;

/// How many bytes of two keys are compared at a time.
const WORD_LEN: usize = 8;

/// How many bytes of a key its head has.
const HEAD_LEN: usize = 16;

/// User keys as unsigned bytes, a proper prefix first: LevelDB's comparator.
///
/// - The separator raises the first byte at which `start` and `limit` differ by one, and cuts off
///   the rest. It is `start` if that byte is 0xff, or if the raised byte isn't below that of
///   `limit`. It is `start` too if one of the two is a prefix of the other.
/// - The successor raises the first byte that isn't 0xff, and cuts off the rest. It is the key if
///   there is no such byte.
pub struct Bytewise;

impl Comparator for Bytewise {
    ghost name_bytes = { bytewise_name };

    ghost cmp = { bytewise_cmp };

    ghost head_of = { bytewise_head };

    ghost short_keys = { bytewise_short_keys };

    ghost total = { nat_list_cmp_total };

    ghost exact = { bytewise_exact };

    ghost rising = { bytewise_rises };

    ghost between = { bytewise_between };

    ghost above = { bytewise_above };

    fn name() -> &'static str {
        "leveldb.BytewiseComparator"
    }

    fn compare(a: &[u8], b: &[u8]) -> Ordering {
        by_words(a, b)
    }

    #[inline]
    fn head(key: &[u8]) -> u128 {
        leading(key)
    }

    #[tactic(auto, unfolding(crate::specs::Bytewise::bytewise_separator))]
    fn separator(alloc: Global, start: &[u8], limit: &[u8]) -> Result<Vec<u8>, Fault> {
        let place = common_len(start, limit);
        if place < start.len()
            && place < limit.len()
            && start[place] < 0xff
            && start[place] + 1 < limit[place]
        {
            return raised(alloc, start, place);
        }
        Ok(Vec::from_slice(alloc, start)?)
    }

    #[tactic(auto, unfolding(crate::specs::Bytewise::bytewise_successor))]
    fn successor(alloc: Global, key: &[u8]) -> Result<Vec<u8>, Fault> {
        let place = raisable_place(key);
        if place < key.len() {
            return raised(alloc, key, place);
        }
        Ok(Vec::from_slice(alloc, key)?)
    }
}

impl SharedComparator for Bytewise {}

/// The order of `a` and `b`, by words of eight bytes with the most significant byte first.
#[inline]
fn by_words(a: &[u8], b: &[u8]) -> Ordering
    ensures { result ≡ bytewise_cmp a.now b.now }
{
    let shorter = a.len().min(b.len());
    if shorter < WORD_LEN {
        return by_bytes(a, b);
    }
    for i in 0..shorter / WORD_LEN {
        let word = word_at(a, WORD_LEN * i);
        let other = word_at(b, WORD_LEN * i);
        if word != other {
            return word.cmp(&other);
        }
    }
    // The last word of the shorter one may begin among bytes that were compared already.
    let last = word_at(a, shorter - WORD_LEN);
    let other = word_at(b, shorter - WORD_LEN);
    if last != other {
        return last.cmp(&other);
    }
    a.len().cmp(&b.len())
}

/// The order of `a` and `b`, byte by byte.
fn by_bytes(a: &[u8], b: &[u8]) -> Ordering
    ensures { result ≡ bytewise_cmp a.now b.now }
{
    a.cmp(b)
}

/// The number in the eight bytes from `place` on, the most significant byte first.
#[inline]
fn word_at(bytes: &[u8], place: usize) -> u64
    requires { place + 8 ≤ length bytes.now }
    ensures { result ≡ big_number 8 (drop place bytes.now) }
{
    BigEndian::read_u64(&bytes[place..])
}

/// The number in the first sixteen bytes, the most significant byte first, with zeros after a
/// shorter key.
#[inline]
pub(crate) fn leading(key: &[u8]) -> u128
    ensures { result ≡ bytewise_head key.now }
{
    if key.len() < HEAD_LEN {
        return short_leading(key);
    }
    BigEndian::read_u128(key)
}

/// The same of a key of fewer bytes.
fn short_leading(key: &[u8]) -> u128
    requires { length key.now < 16 }
    ensures { result ≡ bytewise_head key.now }
{
    let bytes = with_zeros(key);
    BigEndian::read_u128(&bytes)
}

/// A key of fewer than sixteen bytes, with zeros after it.
fn with_zeros(key: &[u8]) -> [u8; HEAD_LEN]
    requires { length key.now < 16 }
    ensures { result ≡ key.now ++ replicate (16 - length key.now) 0 }
{
    let mut bytes = [0; HEAD_LEN];
    bytes[..key.len()].copy_from_slice(key);
    bytes
}

/// The place of the first byte that isn't 0xff; the length if there is none.
fn raisable_place(key: &[u8]) -> usize
    ensures place { result ≡ first_raisable key.now }
    ensures raisable { result < length key.now → slice_index key.now result < 255 }
{
    for (place, byte) in key.iter().enumerate() {
        if *byte != 0xff {
            return place;
        }
    }
    key.len()
}

/// `key` up to `place`, with the byte there raised by one.
fn raised(alloc: Global, key: &[u8], place: usize) -> Result<Vec<u8>, Fault>
    requires inside { place < length key.now }
    requires fits { slice_index key.now place < 255 }
    ensures { EqualOrMemory (λ v. v.items) result (Ok (raised_at place key.now)) }
{
    let mut bytes = Vec::with_capacity(alloc, place + 1)?;
    bytes.extend_from_slice(&key[..place])?;
    bytes.push(key[place] + 1)?;
    Ok(bytes)
}
