//! The files of a version by level, and those that a range of user keys needs.

ghost use Rattle.std.specs.Prelude.{◌≡◌, [], ◌∷◌, filter, map, Ok, IfOk, IfErr};
ghost use Rattle.std.specs.List.{flat_map};
ghost use Rattle.table.specs.Answers.{EqualOrMemory, fault};
ghost use Rattle.table.specs.fault.FaultName.TheVariants.{Memory};
ghost use Rattle.folder.specs.VersionOrder.{level_files};
ghost use Rattle.folder.specs.Levels.{all_levels};
ghost use Rattle.reads.specs.Ranges.{key_range};
ghost use Rattle.checks.specs.NeededFiles.{is_file_needed};

use checks::{needed_files, numbers_of};
use folder::{FileMeta, LEVELS, Version};
use reads::Range;
use std::alloc::Global;
use table::{Comparator, Fault};

/// The files of each level from 0 to 6, in version order.
pub(crate) fn files_by_level<'v, C: Comparator>(
    alloc: Global,
    version: &'v Version,
) -> Result<Vec<Vec<&'v FileMeta>>, Fault>
    ensures files { IfOk result (λ v. map (λ files. map (λ f. f.now) files.items) v.items
        ≡ all_levels (λ level. level_files C.cmp version.now level ∷ [])) }
    ensures memory { IfErr result (λ e. e ≡ fault Memory) }
{
    let mut levels = Vec::new(alloc);
    for level in 0..LEVELS {
        levels.push(version.files::<C>(alloc, level)?)?;
    }
    Ok(levels)
}

/// Of each level the files that a range needs.
pub(crate) fn needed_by_level<'v, C: Comparator>(
    alloc: Global,
    levels: &[Vec<&'v FileMeta>],
    range: Range<'_>,
) -> Result<Vec<Vec<&'v FileMeta>>, Fault>
    ensures needed { IfOk result (λ v. map (λ files. map (λ f. f.now) files.items) v.items
        ≡ map (filter (is_file_needed C.cmp (key_range range.entry)))
        (map (λ files. map (λ f. f.now) files.items) levels.now)) }
    ensures memory { IfErr result (λ e. e ≡ fault Memory) }
{
    let mut needed = Vec::with_capacity(alloc, levels.len())?;
    for files in levels {
        needed.push(needed_files::<C>(alloc, files, range)?)?;
    }
    Ok(needed)
}

/// The numbers of the files, level by level.
pub(crate) fn numbers_by_level(alloc: Global, levels: &[Vec<&FileMeta>]) -> Result<Vec<u64>, Fault>
    ensures { EqualOrMemory (λ v. v.items) result
        (Ok (flat_map (λ files. map (λ f. f.now.number) files.items) levels.now)) }
{
    let mut numbers = Vec::new(alloc);
    for files in levels {
        numbers.extend_from_slice(&numbers_of(alloc, files)?)?;
    }
    Ok(numbers)
}
