//! Boundaries, and the ranges between them.

ghost use Rattle.std.specs.Prelude.{◌≡◌, ◌+◌, ◌<◌, ◌↔◌, ◌⊎◌, true, nat_le, if◌then◌else◌, map};
ghost use Rattle.std.specs.Prelude.{length, slice_get, Contains, All, IsOk, IfOk, IfErr};
ghost use Rattle.std.specs.Option.{option_map};
ghost use Rattle.table.specs.Answers.{fault, UnlessMemory};
ghost use Rattle.table.specs.fault.FaultName.TheVariants.{SplitCount, SplitOrder};
ghost use Rattle.split.specs.Boundaries.{KeysRise, IsSplit};
ghost use Rattle.split.specs.SplitChoice.{index_users_of, index_sample_of, IsChoice};
ghost use Rattle.split.specs.Ranges.{range_at, key_range, IsCover};

use crate::range::Range;
use crate::split_choice::{boundaries_from, index_lists, lent_keys, sampled_keys};
use std::alloc::Global;
use std::marker::{Model, PhantomData};
use table::{Comparator, Fault, FaultName, SoundTable};

/// The most boundaries of a split.
pub const MAX_BOUNDARIES: usize = 4_095;

/// The most ranges of a split.
pub const MAX_RANGES: u64 = 4_096;

/// A sample has one of this many index keys of a table.
pub const SAMPLE_STEP: usize = 16;

/// The least number of keys of a sample, for each range that is wanted.
pub const RANGE_SAMPLES: u64 = 4;

/// A cut of all user keys into ranges. Contracts see its boundaries: at most 4,095 user keys that
/// rise strictly.
#[derive(Drop)]
pub struct Split<C: Comparator> {
    boundaries: Vec<Vec<u8>>,
    order: PhantomData<C>,
}

impl<C: Comparator> Model for Split<C> {
    ghost use Rattle.std.specs.Prelude.{ℕ, List, map};
    ghost use Rattle.split.specs.Boundaries.{IsSplit};

    ghost Value = { List (List ℕ) };

    ghost view = { λ s. map (λ key. key.items) s.boundaries.items };

    ghost invariant = { λ s. IsSplit C.cmp (map (λ key. key.items) s.boundaries.items) };
}

impl<C: Comparator> Split<C> {
    /// The split at these boundaries. Takes no memory. The first test that fails names the fault:
    ///
    /// 1. SplitCount: there are more than 4,095.
    /// 2. SplitOrder: they don't rise strictly.
    pub fn from_keys(keys: Vec<Vec<u8>>) -> Result<Split<C>, Fault>
        ensures accepted { IsOk result ↔ IsSplit C.cmp (map (λ key. key.items) keys.items) }
        ensures boundaries { IfOk result (λ split. split ≡ map (λ key. key.items) keys.items) }
        ensures refused { IfErr result
            (λ e. e ≡ fault (if nat_le (length keys.items) 4095 then SplitOrder else SplitCount)) }
    {
        if keys.len() > MAX_BOUNDARIES {
            return Err(Fault::of(FaultName::SplitCount));
        }
        if !is_rising::<C>(&keys) {
            return Err(Fault::of(FaultName::SplitOrder));
        }
        Ok(Split {
            boundaries: keys,
            order: PhantomData,
        })
    }

    /// A split into at most `want` ranges, at user keys of the tables' indexes.
    ///
    /// The goal is ranges of about equal size, and an index has one key for each data block. Take
    /// the user keys of all index entries, each once and in order; there are m. The boundaries are
    /// those at the places `j * m / want`, rounded down, for j from 1 to `want - 1`, each place
    /// once. If m is 0, there is no boundary.
    ///
    /// Example: of a, b, c and d, 2 ranges are cut at c. 8 are cut at all four keys, and 1 at none.
    ///
    /// Faults: SplitCount exactly if `want` is outside 1 to 4,096; otherwise Memory alone.
    pub fn choose(alloc: Global, tables: &[SoundTable<'_, C>], want: u64) -> Result<Split<C>, Fault>
        ensures wanted { (result ≡ Err (fault SplitCount)) ↔ ((want ≡ 0) ⊎ (4096 < want)) }
        ensures chosen { IfOk result
            (λ split. IsChoice C.cmp (index_users_of tables.now) want split) }
        ensures refused { IfErr result (λ e. UnlessMemory e (e ≡ fault SplitCount)) }
    {
        if want == 0 || want > MAX_RANGES {
            return Err(Fault::of(FaultName::SplitCount));
        }
        let lists = index_lists(alloc, tables)?;
        let keys = lent_keys(alloc, &lists, 1)?;
        let boundaries = boundaries_from::<C>(alloc, keys, want)?;
        Ok(Split {
            boundaries,
            order: PhantomData,
        })
    }

    /// The same, with a sample of the index entries: of each table every 16th, the first at place
    /// 8. If these are fewer than 4 for each range, all entries are taken, as `choose` does.
    ///
    /// Example: a table with 1,000 index entries has a sample of 62. That does for 15 ranges, which
    /// need 60; for 16 all entries are taken.
    ///
    /// Faults: SplitCount exactly if `want` is outside 1 to 4,096; otherwise Memory alone.
    pub fn sample(alloc: Global, tables: &[SoundTable<'_, C>], want: u64) -> Result<Split<C>, Fault>
        ensures wanted { (result ≡ Err (fault SplitCount)) ↔ ((want ≡ 0) ⊎ (4096 < want)) }
        ensures few { IfOk result (λ split. length split < want) }
        ensures of_tables { IfOk result (λ split.
            All (Contains (index_users_of tables.now)) split) }
        ensures chosen { IfOk result
            (λ split. IsChoice C.cmp (index_sample_of want tables.now) want split) }
        ensures refused { IfErr result (λ e. UnlessMemory e (e ≡ fault SplitCount)) }
    {
        if want == 0 || want > MAX_RANGES {
            return Err(Fault::of(FaultName::SplitCount));
        }
        let lists = index_lists(alloc, tables)?;
        let keys = sampled_keys(alloc, &lists, want)?;
        let boundaries = boundaries_from::<C>(alloc, keys, want)?;
        Ok(Split {
            boundaries,
            order: PhantomData,
        })
    }

    /// The number of ranges: one more than there are boundaries.
    pub fn len(&self) -> u64
        ensures number { result ≡ length self.now + 1 }
        ensures split { IsSplit C.cmp self.now }
    {
        self.boundaries.len() as u64 + 1
    }

    /// Range `number`, below `len`: from boundary `number - 1` to before boundary `number`. The
    /// first range has no lower bound, and the last no upper one.
    ///
    /// The ranges together hold each user key once, in order.
    pub fn range(&self, number: u64) -> Range<'_>
        requires { number < length self.now + 1 }
        ensures bounds { key_range result ≡ range_at self.now number }
        ensures cover { IsCover C.cmp self.now }
    {
        let number = number as usize;
        Range {
            lower: if number == 0 {
                None
            } else {
                key_at(&self.boundaries, number - 1)
            },
            upper: key_at(&self.boundaries, number),
        }
    }
}

/// Whether the keys rise strictly.
fn is_rising<C: Comparator>(keys: &[Vec<u8>]) -> bool
    ensures { (result ≡ true) ↔ KeysRise C.cmp (map (λ key. key.items) keys.now) }
{
    keys.is_sorted_by(|key, next| C::compare(key, next).is_lt())
}

/// The key at `place`; None if there is none.
fn key_at(keys: &[Vec<u8>], place: usize) -> Option<&[u8]>
    ensures { option_map (λ key. key.now) result
        ≡ slice_get (map (λ key. key.items) keys.now) place }
{
    keys.get(place).map(|key| key.as_slice())
}
