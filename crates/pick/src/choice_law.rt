//! Laws of the choice of inputs.

ghost use Rattle.pick.specs.PickedInputs.{HasOneChoice};

use edit::Comparator;

/// The law that a level of a version has at most one choice of inputs. A call does nothing.
pub fn one_choice<C: Comparator>()
    ensures { HasOneChoice C.cmp }
{}
