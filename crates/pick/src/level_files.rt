//! The inputs of one level.

ghost use Rattle.std.specs.Prelude.{◌≤◌, map, filter, IsOkAnd};
ghost use Rattle.edit.specs.Answers.{HoldsOrMemory};
ghost use Rattle.edit.specs.Version.{IsState};
ghost use Rattle.edit.specs.VersionOrder.{level_files};
ghost use Rattle.edit.specs.declared.meta.TheConstants.{LAST_LEVEL};
ghost use Rattle.pick.specs.Boundaries.{AreWithBoundaries};
ghost use Rattle.pick.specs.Choices.{is_in, IsUpperAnswer};

use crate::boundaries::with_boundaries;
use crate::choice::{Choice, first_file, grown_range};
use crate::range::UserRange;
use edit::{Comparator, Fault, FileMeta, Version};
use std::alloc::Global;

/// The inputs of the compaction's own level; none exactly if it has no file.
pub(crate) fn upper_files<C: Comparator>(
    alloc: Global,
    version: &Version,
    level: u64,
) -> Result<Vec<&FileMeta>, Fault>
    requires { level ≤ LAST_LEVEL }
    ensures { HoldsOrMemory (λ v. map (λ f. f.now) v.items) result
        (IsUpperAnswer C.cmp version.now level) }
{
    let files = version.files::<C>(alloc, level)?;
    let Some(first) = first_file::<C>(&files, version.pointer(level)) else {
        return Ok(files);
    };
    let choice = match level {
        0 => Choice::Around(first.number, grown_range::<C>(&files, first)),
        _ => Choice::First(first.number),
    };
    with_boundaries::<C>(alloc, &files, choice)
}

/// The inputs of `level`, the one after the compaction's own, if `range` is that of the inputs
/// above.
pub(crate) fn lower_files<'a, C: Comparator>(
    alloc: Global,
    version: &'a Version,
    level: u64,
    range: UserRange<'_>,
) -> Result<Vec<&'a FileMeta>, Fault>
    requires { level ≤ LAST_LEVEL }
    ensures lower { HoldsOrMemory (λ v. map (λ f. f.now) v.items) result
        (λ answer. IsOkAnd answer (AreWithBoundaries C.cmp (level_files C.cmp version.now level)
        (filter (is_in C.cmp range.entry) (level_files C.cmp version.now level)))) }
    ensures state { IsState version.now.pointers version.now.files }
{
    let files = version.files::<C>(alloc, level)?;
    with_boundaries::<C>(alloc, &files, Choice::Overlapping(range))
}
