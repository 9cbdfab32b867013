//! The inputs that a caller chose.

ghost use Rattle.std.specs.Prelude.{◌≤◌, map, OnOk};
ghost use Rattle.edit.specs.Answers.{EqualOrMemory};
ghost use Rattle.edit.specs.Version.{IsState};
ghost use Rattle.pick.specs.NumberedInputs.{numbered_answer, these_answer};
ghost use Rattle.pick.specs.PickedInputs.{picked_in};
ghost use Rattle.pick.specs.declared.input_choice.TheConstants.{LAST_INPUT_LEVEL};

use crate::closed_choice::chosen_of;
use crate::input_choice::{LAST_INPUT_LEVEL, files_of, picked};
use crate::picked_inputs::Inputs;
use crate::range::UserRange;
use edit::{CompactPointer, Comparator, Fault, FaultName, FileMeta, KeyBuf, Version};
use std::alloc::Global;

/// The inputs of a compaction of the `pointer`'s level that takes the files of these numbers, at
/// that level and the next one, and sets this compact pointer.
///
/// Whether they are closed isn't asked: [`first_missing`](crate::first_missing) tells. A number
/// that no file of the two levels has chooses nothing.
///
/// Faults: Level if the level is above 5; else NoInput if no file of it has one of the numbers;
/// else Memory alone.
pub fn numbered_inputs<C: Comparator>(
    alloc: Global,
    version: &Version,
    pointer: &CompactPointer,
    numbers: &[u64],
) -> Result<Inputs, Fault>
    ensures answer { EqualOrMemory picked_in result
        (numbered_answer C.cmp version.now pointer.now numbers.now) }
    // Files rise by number, pointers by level, and levels are from 0 to 6.
    ensures state { OnOk result (IsState version.now.pointers version.now.files) }
{
    let level = pointer.level;
    if level > LAST_INPUT_LEVEL {
        return Err(Fault::of(FaultName::Level));
    }
    let files = version.files::<C>(alloc, level)?;
    let next = version.files::<C>(alloc, level + 1)?;
    let upper = chosen_of(alloc, &files, numbers)?;
    let lower = chosen_of(alloc, &next, numbers)?;
    these_inputs::<C>(alloc, version, level, &upper, &lower, &pointer.key)
}

/// The inputs that are these files of `level` and of the next one. NoInput if there is none of
/// `level`; else Memory alone.
fn these_inputs<C: Comparator>(
    alloc: Global,
    version: &Version,
    level: u64,
    upper: &[&FileMeta],
    lower: &[&FileMeta],
    key: &KeyBuf,
) -> Result<Inputs, Fault>
    requires { level ≤ LAST_INPUT_LEVEL }
    ensures { EqualOrMemory picked_in result (these_answer C.cmp version.now level
        (map (λ f. f.now) upper.now) (map (λ f. f.now) lower.now) key.now) }
{
    let Some(first) = upper.first() else {
        return Err(Fault::of(FaultName::NoInput));
    };
    let range = UserRange::of(first).over::<C>(upper).over::<C>(lower);
    let files = files_of(alloc, level, upper, lower)?;
    picked::<C>(alloc, version, level, files, range, key)
}
