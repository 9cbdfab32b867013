//! Laws of the rules of cutting, over the definitions alone.

ghost use Rattle.cut.specs.Lengths.{LengthsLaw};
ghost use Rattle.cut.specs.Outputs.{OutputsLaw, RangesCutLaw, WholeLaw};
ghost use Rattle.cut.specs.Segments.{SegmentsLaw};
ghost use Rattle.cut.specs.Stops.{StopsLaw};

use ikey::Comparator;

/// The law of the stops at marks. A call does nothing.
///
/// - Marks have the stops that `stops` finds, and no others.
/// - Each stop is at the first mark at which more than 10 times the maximal file size is passed
///   since the stop before.
/// - A mark that repeats the number of the mark before is never a stop.
/// - Sizes of grandparents add up, so a running sum finds the stops.
pub fn stops_law()
    ensures { StopsLaw }
{}

/// The law that a segment has one cutting into outputs, which `outputs_in` finds: each output is
/// the shortest nonempty beginning that may end, or the whole rest. A call does nothing.
pub fn outputs_law<C: Comparator>()
    ensures { OutputsLaw C.cmp }
{}

/// The law that a union has one cutting into segments at its stops, and that its outputs are those
/// of what is kept of each segment. A call does nothing.
pub fn segments_law<C: Comparator>()
    ensures { SegmentsLaw C.cmp }
{}

/// The law that outputs are the kept entries, cut into parts of which none is empty. The user keys
/// of an output are below those of all later ones. A call does nothing.
pub fn whole_law<C: Comparator>()
    ensures { WholeLaw C.cmp }
{}

/// The law that the runs of the ranges of a split have together the outputs of the union. A call
/// does nothing.
pub fn ranges_cut<C: Comparator>()
    ensures { RangesCutLaw C.cmp }
{}

/// The law of the lengths of blocks and tables, by what each entry and each block adds. A call does
/// nothing.
pub fn lengths_law()
    ensures { LengthsLaw }
{}
