//! Copies of files for the inputs, the grandparents and the deeper files.

ghost use Rattle.std.specs.Prelude.{◌≡◌, ◌≤◌, ◌+◌, ◌-◌, ◌++◌, Ok, [], nat_lt, if◌then◌else◌, map};
ghost use Rattle.std.specs.Prelude.{filter, OnOk, IfErr};
ghost use Rattle.std.specs.Arc.{arc_value};
ghost use Rattle.edit.specs.Answers.{EqualOrMemory, fault};
ghost use Rattle.edit.specs.fault.FaultName.TheVariants.{Memory};
ghost use Rattle.edit.specs.VersionOrder.{level_files};
ghost use Rattle.edit.specs.declared.meta.TheConstants.{LAST_LEVEL, LEVELS};
ghost use Rattle.pick.specs.Choices.{is_in};
ghost use Rattle.pick.specs.FileRanges.{vector_files};
ghost use Rattle.pick.specs.PickedInputs.{files_from, input_at};

use crate::picked_inputs::InputFile;
use crate::range::UserRange;
use edit::{Comparator, Fault, FileMeta, LAST_LEVEL, LEVELS, Version};
use std::alloc::Global;
use std::sync::Arc;

/// Appends copies of `files` as inputs of `level`.
pub(crate) fn push_inputs(
    alloc: Global,
    inputs: &mut Vec<InputFile>,
    level: u64,
    files: &[&FileMeta],
) -> Result<(), Fault>
    ensures ok { OnOk result (inputs.new.items ≡ inputs.old.items
        ++ map (λ f. input_at level f.now) files.now) }
    ensures memory { IfErr result (λ e. e ≡ fault Memory) }
{
    for file in files {
        let meta = file.copy(alloc)?;
        inputs.push(InputFile { level, meta })?;
    }
    Ok(())
}

/// Appends copies of `files`.
pub(crate) fn push_copies(
    alloc: Global,
    copies: &mut Vec<FileMeta>,
    files: &[&FileMeta],
) -> Result<(), Fault>
    ensures ok { OnOk result (copies.new.items ≡ copies.old.items ++ map (λ f. f.now) files.now) }
    ensures memory { IfErr result (λ e. e ≡ fault Memory) }
{
    for file in files {
        copies.push(file.copy(alloc)?)?;
    }
    Ok(())
}

/// Copies of the files of `level` whose user keys overlap `range`, in version order.
fn overlapping<C: Comparator>(
    alloc: Global,
    version: &Version,
    level: u64,
    range: UserRange<'_>,
) -> Result<Vec<FileMeta>, Fault>
    requires { level ≤ LAST_LEVEL }
    ensures { EqualOrMemory (λ v. v.items) result
        (Ok (filter (is_in C.cmp range.entry) (level_files C.cmp version.now level))) }
{
    let files = version.files::<C>(alloc, level)?;
    let mut found = Vec::new(alloc);
    for file in &files {
        if range.overlaps::<C>(*file) {
            found.push(file.copy(alloc)?)?;
        }
    }
    Ok(found)
}

/// Copies of the files of the levels from `from` to 6, by level and in version order, to share.
pub(crate) fn deeper_files<C: Comparator>(
    alloc: Global,
    version: &Version,
    from: u64,
) -> Result<Arc<Vec<FileMeta>>, Fault>
    ensures { EqualOrMemory (λ v. vector_files (arc_value v)) result
        (Ok (files_from C.cmp version.now from (LEVELS - from))) }
{
    let mut deeper = Vec::new(alloc);
    for level in from..LEVELS {
        let files = version.files::<C>(alloc, level)?;
        push_copies(alloc, &mut deeper, &files)?;
    }
    Ok(Arc::new(alloc, deeper)?)
}

/// Copies of the grandparents: the files of `level`, two below the compaction's, whose user keys
/// overlap `range`, that of all inputs. There is none if `level` exceeds 6.
pub(crate) fn grandparents<C: Comparator>(
    alloc: Global,
    version: &Version,
    level: u64,
    range: UserRange<'_>,
) -> Result<Vec<FileMeta>, Fault>
    ensures { EqualOrMemory (λ v. v.items) result
        (Ok (if nat_lt LAST_LEVEL level then [] else filter (is_in C.cmp range.entry)
        (level_files C.cmp version.now level))) }
{
    if level > LAST_LEVEL {
        return Ok(Vec::new(alloc));
    }
    overlapping::<C>(alloc, version, level, range)
}
