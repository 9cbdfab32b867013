//! Laws of the parts of a level.

ghost use Rattle.levels.specs.ApartParts.{ApartPartsStay, PartsStandApart};

use compact::passed_law;
use edit::Comparator;
use table::table_reads_back;

/// The parts of a level of a lawful version stand apart: each is closed, and shares no user key
/// with a file that stays. No two have a file in common. After one was compacted and installed,
/// each other one still stands apart. So they can be installed in any order. A call does nothing.
pub fn parts_stay<C: Comparator>()
    ensures apart { PartsStandApart C.cmp }
    ensures stay { ApartPartsStay C.cmp C.short_keys }
{
    table_reads_back::<C>();
    passed_law::<C>();
}
