//! Short internal keys between two internal keys, and above one.
//!
//! Why: each key of a table's index only has to lie between two blocks. A shorter one keeps the
//! index small.

ghost use Rattle.std.specs.Prelude.{◌≡◌, ◌≢◌, Ok, IfOk};
ghost use Rattle.std.specs.declared.cmp.Ordering.TheVariants.{Less, Greater};
ghost use Rattle.coding.specs.Answers.{EqualOrMemory};
ghost use Rattle.ikey.specs.Comparator.{IsBetween};
ghost use Rattle.ikey.specs.Order.{internal_cmp};
ghost use Rattle.ikey.specs.ShortenedKeys.{shortened_key, internal_separator_of};
ghost use Rattle.ikey.specs.ShortenedKeys.{internal_successor_of};

use crate::comparator::Comparator;
use crate::key::{InternalKey, MAX_SEQUENCE};
use crate::key_buf::KeyBuf;
use crate::kind::Kind;
use coding::Fault;
use std::alloc::Global;

/// A key at or above `a`; it is below `b` if `a` is.
///
/// 1. If the user keys are equal, it is `a`.
/// 2. Else take the comparator's separator of the user keys. If that is shorter than the user key
///    of `a` and greater, the result is it with sequence 2^56 - 1 and type 1.
/// 3. Else it is `a`.
#[tactic(auto, unfolding(crate::specs::ShortenedKeys::internal_separator_of))]
pub fn internal_separator<C: Comparator>(
    alloc: Global,
    a: InternalKey,
    b: InternalKey,
) -> Result<KeyBuf, Fault>
    ensures separator { EqualOrMemory (λ own. own) result
        (Ok (internal_separator_of C.cmp C.short_keys.separator a.entry.bytes.now
        b.entry.bytes.now)) }
    ensures between { internal_cmp C.cmp a.entry.bytes.now b.entry.bytes.now ≡ Less
        → IfOk result (IsBetween (internal_cmp C.cmp) a.entry.bytes.now b.entry.bytes.now) }
{
    if C::compare(a.user(), b.user()).is_eq() {
        return KeyBuf::of(alloc, a);
    }
    let short = C::separator(alloc, a.user(), b.user())?;
    shorten::<C>(alloc, a, &short)
}

/// A key at or above `key`.
///
/// 1. Take the comparator's successor of the user key. If that is shorter than the user key and
///    greater, the result is it with sequence 2^56 - 1 and type 1.
/// 2. Else it is `key`.
#[tactic(auto, unfolding(crate::specs::ShortenedKeys::internal_successor_of))]
pub fn internal_successor<C: Comparator>(alloc: Global, key: InternalKey) -> Result<KeyBuf, Fault>
    ensures successor { EqualOrMemory (λ own. own) result
        (Ok (internal_successor_of C.cmp C.short_keys.successor key.entry.bytes.now)) }
    ensures above { IfOk result (λ own. internal_cmp C.cmp key.entry.bytes.now own ≢ Greater) }
{
    let short = C::successor(alloc, key.user())?;
    shorten::<C>(alloc, key, &short)
}

/// `short` with sequence 2^56 - 1 and type 1, if `short` is shorter than the key's user key and
/// greater; else `key`.
#[tactic(auto, unfolding(crate::specs::ShortenedKeys::shortened_key))]
fn shorten<C: Comparator>(alloc: Global, key: InternalKey, short: &[u8]) -> Result<KeyBuf, Fault>
    ensures { EqualOrMemory (λ own. own) result
        (Ok (shortened_key C.cmp key.entry.bytes.now short.now)) }
{
    let user = key.user();
    if short.len() < user.len() && C::compare(user, short).is_lt() {
        return KeyBuf::new(alloc, short, MAX_SEQUENCE, Kind::Put);
    }
    KeyBuf::of(alloc, key)
}
