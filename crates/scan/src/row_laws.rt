//! Laws of the rows of a version.

ghost use Rattle.scan.specs.RowsLaw.{RowsLaw};

use table::Comparator;

/// The law that a lawful version has rows in each range of user keys at each sequence, and just one
/// list of them. A call does nothing.
pub fn rows_law<C: Comparator>()
    ensures { RowsLaw C.cmp }
{}
