//! Laws of splits.

ghost use Rattle.split.specs.SplitChoice.{OneChoiceLaw};

use table::Comparator;

/// The law that user keys and a wanted number have at most one choice of boundaries, by every
/// comparator. A call does nothing.
pub fn one_choice<C: Comparator>()
    ensures { OneChoiceLaw C.cmp }
{}
