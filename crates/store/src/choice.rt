//! Which inputs of a version are compacted.

ghost use Rattle.std.specs.Prelude.{map};
ghost use Rattle.folder.specs.Answers.{EqualOrMemory, HoldsOrMemory};
ghost use Rattle.pick.specs.PickedInputs.{picked_in};
ghost use Rattle.store.specs.Choice.{IsChosen, part_of_number};
ghost use Rattle.store.specs.InputsCompaction.{IsChoiceAnswer};
ghost use Rattle.store.specs.declared.choice.Choice.TheVariants.{Part};

use crate::version_files::test_files;
use folder::{Comparator, Fault, FaultName, Version};
use pick::{Inputs, finest_parts, inputs};
use std::alloc::Global;

/// Inputs of a version, by what chooses them.
#[derive(Clone, Copy)]
pub enum Choice {
    /// What the rules pick of this level.
    Picked(u64),
    /// One of the finest parts of this level, as `pick::finest_parts` tells them, by its number.
    /// The first is 1.
    Part(u64, u64),
}

/// The inputs of a `choice` of a version, whose files are tested first. No table is read.
///
/// The first that applies:
///
/// - Lawless: a file's number isn't below next file, or the files of a level from 1 on don't rise;
/// - what `pick::inputs` or `pick::finest_parts` is refused as; NoInput: there is no part of that
///   number.
pub(crate) fn chosen<C: Comparator>(
    alloc: Global,
    version: &Version,
    choice: Choice,
) -> Result<Inputs, Fault>
    ensures { HoldsOrMemory picked_in result (IsChoiceAnswer C.cmp version.now choice) }
{
    test_files::<C>(alloc, version)?;
    choice_inputs::<C>(alloc, version, choice)
}

/// The inputs of a `choice`.
fn choice_inputs<C: Comparator>(
    alloc: Global,
    version: &Version,
    choice: Choice,
) -> Result<Inputs, Fault>
    ensures { HoldsOrMemory picked_in result (IsChosen C.cmp version.now choice) }
{
    match choice {
        Choice::Picked(level) => inputs::<C>(alloc, version, level),
        Choice::Part(level, number) => part_inputs::<C>(alloc, version, level, number),
    }
}

/// The inputs that are the part of a `number` of a level.
fn part_inputs<C: Comparator>(
    alloc: Global,
    version: &Version,
    level: u64,
    number: u64,
) -> Result<Inputs, Fault>
    ensures { HoldsOrMemory picked_in result (IsChosen C.cmp version.now (Part level number)) }
{
    let parts = finest_parts::<C>(alloc, version, level)?;
    part_at(parts, number)
}

/// The part of a `number`, the first of which is 1. NoInput if there is none of it.
fn part_at(mut parts: Vec<Inputs>, number: u64) -> Result<Inputs, Fault>
    ensures { EqualOrMemory picked_in result
        (part_of_number number (map picked_in parts.items)) }
{
    if number == 0 || number > parts.len() as u64 {
        return Err(Fault::of(FaultName::NoInput));
    }
    Ok(parts.swap_remove((number - 1) as usize))
}
