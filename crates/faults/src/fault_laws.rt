//! Laws of what is wrong with a version.

ghost use Rattle.faults.specs.FaultLaws.{MisplacedLaw, NoFaultLaw};

use table::Comparator;

/// The law that nothing is wrong with a version exactly if it passes the test of
/// `checks::test_version`. A call does nothing.
pub fn no_fault_law<C: Comparator>()
    ensures { NoFaultLaw C.cmp }
{}

/// The law that the user keys which are told are those whose entries are not in their order, each
/// once. A call does nothing.
pub fn misplaced_law<C: Comparator>()
    ensures { MisplacedLaw C.cmp }
{}
