//! The laws of closed inputs.
//!
//! Premises of [`closed_inputs`] and [`inputs_stand_together`]: the version is lawful, its files
//! are at levels up to 6, and the inputs were picked from it. Other inputs are closed, too, if
//! levels, numbers and bounds tell so ([`closed_choice`]); `pick::first_missing` asks them.

ghost use Rattle.compact.specs.ClosedInputs.{AreClosed, ClosedInputs};
ghost use Rattle.compact.specs.InputsOver.{InputsOverClosed, PickedInputsOver};
ghost use Rattle.compact.specs.WorkedRow.{first_alone, two_files, two_tables};
ghost use Rattle.compact.specs.InputsTogether.{InputsStandTogether};

use ikey::Comparator;

/// The law that the inputs of a lawful version are closed. A call does nothing.
///
/// Of the inputs' user keys, these have newer entries only: files of the level that stay, files of
/// the next level that stay, and files of shallower levels. Deeper files have older entries only.
pub fn closed_inputs<C: Comparator>()
    ensures { ClosedInputs C.cmp }
{}

/// The law that inputs over a lawful version are closed, whoever chose them. A call does nothing.
///
/// Inputs are over a version if they are files of it at the level and at the next one, and have
/// with them each file that has to go with them (`pick::first_missing`).
pub fn closed_choice<C: Comparator>()
    ensures { InputsOverClosed C.cmp }
{}

/// The law that the inputs that are picked from a lawful version with files at levels up to 6 are
/// inputs over it. A call does nothing.
pub fn picked_choice<C: Comparator>()
    ensures { PickedInputsOver C.cmp }
{}

/// The law that the entries of a user key in a lawful version are, the newest first, those above
/// the inputs, those of the inputs, and those below. A call does nothing.
pub fn inputs_stand_together<C: Comparator>()
    ensures { InputsStandTogether C.cmp }
{}

/// A check that "closed inputs" rules something out. If a level has one file with `u@10 put` and
/// one with `u@5 put`, the first file alone isn't closed. A call does nothing.
pub fn first_alone_is_not_closed<C: Comparator>()
    ensures { AreClosed C.cmp two_files two_tables first_alone → ⊥ }
{}
