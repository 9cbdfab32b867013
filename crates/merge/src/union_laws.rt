//! Laws of merges and of ranges.

ghost use Rattle.merge.specs.InRange.{HoldsLaw};
ghost use Rattle.merge.specs.MergedLists.{MergeLaw};
ghost use Rattle.merge.specs.Union.{UnionLaw};

use table::Comparator;

/// The law that lists have one sorted merge. It never falls, and has, of each internal key, just
/// the entries that the lists have, in their order. A call does nothing.
pub fn merge_law<C: Comparator>()
    ensures { MergeLaw C.cmp }
{}

/// The law that a list is the union of inputs exactly if it is their sorted merge and rises
/// strictly, by user key and then falling sequence. A call does nothing.
pub fn union_law<C: Comparator>()
    ensures { UnionLaw C.cmp }
{}

/// The law that `is_in_range` holds of just the user keys that a split states of a range. A call
/// does nothing.
pub fn holds_law<C: Comparator>()
    ensures { HoldsLaw C.cmp }
{}
