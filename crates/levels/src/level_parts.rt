//! The parts of a level that are compacted together.

ghost use Rattle.std.specs.Prelude.{◌≡◌, filter, map, nat_le};
ghost use Rattle.std.specs.List.{sum_by};
ghost use Rattle.edit.specs.Answers.{HoldsOrMemory};
ghost use Rattle.folder.specs.Orders.{order_cmp};
ghost use Rattle.pick.specs.PickedInputs.{picked_in};
ghost use Rattle.pick.specs.declared.picked_inputs.InputFile.{InputFile};
ghost use Rattle.levels.specs.LevelTaken.{AreTaken};
ghost use Rattle.levels.specs.WholeAnswer.{AreLevelParts, fits};
ghost use Rattle.levels.specs.declared.selection.Selection.TheVariants.{Fitting};

use crate::selection::Selection;
use compact::MAX_INPUTS;
use edit::{Comparator, Fault, FaultName, Version};
use folder::{Bytewise, Order, Shortlex};
use pick::{InputFile, Inputs, finest_parts};
use std::alloc::Global;
use store::{SyncedVersion, test_files};

/// The parts that a `selection` takes of a `level` of what a folder was `opened` as; None if no
/// part fits, so that it takes what the rules pick.
///
/// The first that applies:
///
/// - for parts that fit, what [`test_files`] is refused as;
/// - what [`finest_parts`] is refused as;
/// - for all parts NoInput, if the level has no file.
pub(crate) fn selected_parts(
    alloc: Global,
    opened: &SyncedVersion,
    level: u64,
    selection: Selection,
) -> Result<Option<Vec<Inputs>>, Fault>
    ensures { AreTaken selection (order_cmp opened.now.order) opened.now.version level result }
{
    match opened.order {
        Order::Bytewise => parts_by::<Bytewise>(alloc, &opened.version, level, selection),
        Order::Shortlex => parts_by::<Shortlex>(alloc, &opened.version, level, selection),
    }
}

/// The same by a comparator.
fn parts_by<C: Comparator>(
    alloc: Global,
    version: &Version,
    level: u64,
    selection: Selection,
) -> Result<Option<Vec<Inputs>>, Fault>
    ensures { AreTaken selection C.cmp version.now level result }
{
    match selection {
        Selection::Whole => Ok(Some(level_parts::<C>(alloc, version, level)?)),
        Selection::Fitting(memory) => fitting_parts::<C>(alloc, version, level, memory),
    }
}

/// The finest parts of a `level`, in the order of their first files.
fn level_parts<C: Comparator>(
    alloc: Global,
    version: &Version,
    level: u64,
) -> Result<Vec<Inputs>, Fault>
    ensures { HoldsOrMemory (λ v. map picked_in v.items) result
        (AreLevelParts C.cmp version.now level) }
{
    let parts = finest_parts::<C>(alloc, version, level)?;
    if parts.is_empty() {
        return Err(Fault::of(FaultName::NoInput));
    }
    Ok(parts)
}

/// Those of a version's finest parts that fit into `memory` bytes; None if none does. Its files are
/// tested first.
fn fitting_parts<C: Comparator>(
    alloc: Global,
    version: &Version,
    level: u64,
    memory: u64,
) -> Result<Option<Vec<Inputs>>, Fault>
    ensures { AreTaken (Fitting memory) C.cmp version.now level result }
{
    test_files::<C>(alloc, version)?;
    let mut parts = finest_parts::<C>(alloc, version, level)?;
    keep_fitting(&mut parts, memory);
    if parts.is_empty() {
        return Ok(None);
    }
    Ok(Some(parts))
}

/// Leaves the parts that fit.
fn keep_fitting(parts: &mut Vec<Inputs>, memory: u64)
    ensures { map picked_in parts.new.items ≡ filter (fits memory) (map picked_in parts.old.items) }
{
    parts.retain(|part| part.files.len() <= MAX_INPUTS && have_at_most(&part.files, memory));
}

/// Whether the files of inputs have at most so many bytes together.
fn have_at_most(inputs: &[InputFile], memory: u64) -> bool
    ensures { result ≡ nat_le (sum_by (λ (i : InputFile). i.meta.size) inputs.now) memory }
{
    let mut left = memory;
    for input in inputs {
        let Some(rest) = left.checked_sub(input.meta.size) else {
            return false;
        };
        left = rest;
    }
    true
}
