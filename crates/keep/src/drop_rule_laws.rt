//! Laws of the drop rule and of ranges, over the definitions alone.

ghost use Rattle.keep.specs.RangeStart.{RangeStartLaw};
ghost use Rattle.keep.specs.OneKey.{OneKeyLaw};
ghost use Rattle.keep.specs.Runs.{DistinctLaw, KeptInRangeLaw, RangesCompose};

use ikey::Comparator;

/// The law that no readable sequence sees what is dropped of one user key.
///
/// Take the entries of the user key, the newest first. Each dropped one
///
/// - lies under a kept one that hides it from every readable sequence, or
/// - is a dropped deletion with nothing left under it, or
/// - lies under such a deletion.
///
/// So at each readable sequence the kept entries answer what all of them answered, between newer
/// entries above and older ones below. A call does nothing.
pub fn one_key<C: Comparator>()
    ensures { OneKeyLaw C.cmp }
{}

/// The law that ranges compose, however they are cut between user keys:
///
/// - the kept entries of the ranges, one range after the other, are those of the whole union;
/// - their marks are those of the union, but a range's first mark may repeat the number before it;
/// - some range is refused exactly if all inputs together hold one user key and sequence twice.
///
/// A call does nothing.
pub fn ranges_compose<C: Comparator>()
    ensures { RangesCompose C.cmp }
{}

/// The law that what is kept of the entries of a range is what is kept of the whole union there. A
/// call does nothing.
pub fn kept_in_range<C: Comparator>()
    ensures { KeptInRangeLaw C.cmp }
{}

/// The law that inputs have a union exactly if no user key has one sequence twice, and that their
/// sorted merge is it. A call does nothing.
pub fn distinct_law<C: Comparator>()
    ensures { DistinctLaw C.cmp }
{}

/// The law that entries before a range take no part in it. A call does nothing.
pub fn range_start_law<C: Comparator>()
    ensures { RangeStartLaw C.cmp }
{}
