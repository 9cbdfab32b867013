//! The choice of the inputs of a compaction.

ghost use Rattle.std.specs.Prelude.{◌≤◌, ◌+◌, ◌-◌, ◌++◌, Ok, [], nat_lt, if◌then◌else◌, map};
ghost use Rattle.std.specs.Prelude.{filter, OnOk};
ghost use Rattle.edit.specs.Answers.{EqualOrMemory, HoldsOrMemory};
ghost use Rattle.edit.specs.Version.{IsState};
ghost use Rattle.edit.specs.VersionOrder.{level_files};
ghost use Rattle.edit.specs.declared.meta.TheConstants.{LAST_LEVEL, LEVELS};
ghost use Rattle.pick.specs.Choices.{is_in};
ghost use Rattle.pick.specs.PickedInputs.{picked_in, input_at, files_from, IsInputsAnswer};
ghost use Rattle.pick.specs.declared.input_choice.TheConstants.{LAST_INPUT_LEVEL};

use crate::boundaries::largest_of;
use crate::file_copies::{deeper_files, grandparents, push_inputs};
use crate::level_files::{lower_files, upper_files};
use crate::picked_inputs::{InputFile, Inputs};
use crate::range::UserRange;
use edit::{CompactPointer, Comparator, Fault, FaultName, FileMeta, KeyBuf, LAST_LEVEL, Version};
use std::alloc::Global;

/// The deepest level that is compacted. Its outputs go to the deepest of all.
pub const LAST_INPUT_LEVEL: u64 = LAST_LEVEL - 1;

/// The inputs of a compaction of `level`.
///
/// 1. The first file in version order whose largest key is greater than the level's compact
///    pointer. It is the first of all if there is no pointer or none is greater.
/// 2. At level 0 also each file whose user keys overlap those of the chosen ones, until there is
///    none more.
/// 3. Boundary files of the level: while some file that isn't chosen begins after the greatest
///    chosen key and with its user key, the first such file.
/// 4. Of level + 1, the files whose user keys overlap those of the inputs so far, and their
///    boundary files.
///
/// Faults: Level if `level` is above 5; else NoInput if it has no file; else Memory alone.
pub fn inputs<C: Comparator>(alloc: Global, version: &Version, level: u64) -> Result<Inputs, Fault>
    ensures picked { HoldsOrMemory picked_in result (IsInputsAnswer C.cmp version.now level) }
    // What holds of each version: files rise by number, pointers by level, and levels are from 0 to
    // 6.
    ensures state { OnOk result (IsState version.now.pointers version.now.files) }
{
    if level > LAST_INPUT_LEVEL {
        return Err(Fault::of(FaultName::Level));
    }
    let upper = upper_files::<C>(alloc, version, level)?;
    let (Some(first), Some(largest)) = (upper.first(), largest_of::<C>(&upper)) else {
        return Err(Fault::of(FaultName::NoInput));
    };
    let range = UserRange::of(first).over::<C>(&upper);
    let lower = lower_files::<C>(alloc, version, level + 1, range)?;
    let files = files_of(alloc, level, &upper, &lower)?;
    picked::<C>(
        alloc,
        version,
        level,
        files,
        range.over::<C>(&lower),
        largest,
    )
}

/// Copies of the inputs of `level` and then those of the next one.
pub(crate) fn files_of(
    alloc: Global,
    level: u64,
    upper: &[&FileMeta],
    lower: &[&FileMeta],
) -> Result<Vec<InputFile>, Fault>
    requires { level ≤ LAST_INPUT_LEVEL }
    ensures { EqualOrMemory (λ v. v.items) result
        (Ok (map (λ f. input_at level f.now) upper.now
        ++ map (λ f. input_at (level + 1) f.now) lower.now)) }
{
    let mut files = Vec::with_capacity(alloc, upper.len() + lower.len())?;
    push_inputs(alloc, &mut files, level, upper)?;
    push_inputs(alloc, &mut files, level + 1, lower)?;
    Ok(files)
}

/// The inputs with grandparents, deeper files and the new compact pointer. `range` is that of all
/// inputs, and `largest` the greatest key of the level's own.
pub(crate) fn picked<C: Comparator>(
    alloc: Global,
    version: &Version,
    level: u64,
    files: Vec<InputFile>,
    range: UserRange<'_>,
    largest: &KeyBuf,
) -> Result<Inputs, Fault>
    requires { level ≤ LAST_INPUT_LEVEL }
    ensures { EqualOrMemory picked_in result (Ok (record {
      level = level;
      files = files.items;
      grandparents = if nat_lt LAST_LEVEL (level + 2) then [] else filter (is_in C.cmp range.entry)
          (level_files C.cmp version.now (level + 2));
      deeper = files_from C.cmp version.now (level + 2) (LEVELS - (level + 2));
      pointer = record { level = level; key = largest.now };
    })) }
{
    Ok(Inputs {
        level,
        files,
        grandparents: grandparents::<C>(alloc, version, level + 2, range)?,
        deeper: deeper_files::<C>(alloc, version, level + 2)?,
        pointer: CompactPointer {
            level,
            key: KeyBuf::of(alloc, largest.as_key())?,
        },
    })
}
