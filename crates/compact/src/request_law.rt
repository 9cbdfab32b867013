//! The law of the tests of a request.

ghost use Rattle.compact.specs.PassedRequest.{PassedLaw};

use ikey::Comparator;

/// The law of what each request has that passes its tests. A call does nothing.
pub fn passed_law<C: Comparator>()
    ensures { PassedLaw C.cmp }
{}
