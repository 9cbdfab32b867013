//! Tests of what [`crate::merge_range`] requires.

ghost use Rattle.std.specs.Prelude.{◌≡◌, ◌↔◌, nat_lt, IsTrue};
ghost use Rattle.std.specs.List.Sorted.{IsStrictlyIncreasing};
ghost use Rattle.keep.specs.Marks.{largest_rise};
ghost use Rattle.keep.specs.RisesBy.{rises_by};

use ikey::Comparator;
use reads::FileMeta;

/// Whether the sequences of `listed` rise strictly.
pub fn is_rising(listed: &[u64]) -> bool
    ensures test { result ≡ rises_by nat_lt listed.now }
    ensures rising { IsTrue result ↔ IsStrictlyIncreasing listed.now }
{
    listed.is_sorted_by(|sequence, next| sequence < next)
}

/// Whether the largest keys of `grandparents` rise strictly.
pub fn largest_rise<C: Comparator>(grandparents: &[FileMeta]) -> bool
    ensures { result ≡ largest_rise C.cmp grandparents.now }
{
    grandparents.is_sorted_by(|file, next| {
        file.largest
            .as_key()
            .compare::<C>(&next.largest.as_key())
            .is_lt()
    })
}
