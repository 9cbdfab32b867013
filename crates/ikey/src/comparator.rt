//! What an order of user keys promises.

ghost use Rattle.std.specs.Prelude.{◌≡◌, ℕ, List, Ok};
ghost use Rattle.std.specs.declared.cmp.Ordering.{Ordering};
ghost use Rattle.std.specs.Cmp.{IsTotalOrder};
ghost use Rattle.coding.specs.Answers.{EqualOrMemory};
ghost use Rattle.ikey.specs.Comparator.{HeadsRise, IsExact, Separates, ShortKeys, Succeeds};

use coding::Fault;
use std::alloc::Global;
use std::cmp::Ordering;

/// A total order of user keys, in which only equal bytes are equal. It has a name, and finds short
/// keys between two keys and above one.
pub trait Comparator {
    ghost name_bytes: { List ℕ };

    ghost cmp: { List ℕ → List ℕ → Ordering };

    ghost head_of: { List ℕ → ℕ };

    ghost short_keys: { ShortKeys };

    /// The name that a version edit states.
    fn name() -> &'static str
        ensures { result.now ≡ name_bytes };

    /// The order of `a` and `b`.
    fn compare(a: &[u8], b: &[u8]) -> Ordering
        ensures { result ≡ cmp a.now b.now };

    /// A number that never falls if keys rise. If the heads of two keys differ, they decide;
    /// equal heads say nothing.
    fn head(key: &[u8]) -> u128
        ensures { result ≡ head_of key.now };

    /// A key at or above `start`; it is below `limit` if `start` is.
    fn separator(alloc: Global, start: &[u8], limit: &[u8]) -> Result<Vec<u8>, Fault>
        ensures { EqualOrMemory (λ v. v.items) result
            (Ok (short_keys.separator start.now limit.now)) };

    /// A key at or above `key`.
    fn successor(alloc: Global, key: &[u8]) -> Result<Vec<u8>, Fault>
        ensures { EqualOrMemory (λ v. v.items) result (Ok (short_keys.successor key.now)) };

    ghost total: { IsTotalOrder cmp };

    ghost exact: { IsExact cmp };

    ghost rising: { HeadsRise cmp head_of };

    ghost between: { Separates cmp short_keys.separator };

    ghost above: { Succeeds cmp short_keys.successor };
}

/// A comparator that threads may share, as the calls with workers ask.
pub trait SharedComparator: Comparator + Send + Sync {}
