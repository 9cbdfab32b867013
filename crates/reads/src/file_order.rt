//! The order of a version's files, those with newer entries first.

ghost use Rattle.std.specs.Prelude.{◌≡◌, ◌↔◌, map, IsTrue, IfOk, IfErr};
ghost use Rattle.std.specs.List.Sorted.{IsPermutation};
ghost use Rattle.ikey.specs.Answers.{fault};
ghost use Rattle.ikey.specs.fault.FaultName.TheVariants.{Memory};
ghost use Rattle.edit.specs.VersionOrder.{added_from};
ghost use Rattle.edit.specs.declared.meta.TheConstants.{LEVELS};
ghost use Rattle.reads.specs.FileChecks.{stands_before, rank_of};
ghost use Rattle.reads.specs.FileChecks.{newest_first_cmp, AreListed, AreInTurn};
ghost use Rattle.reads.specs.FileList.{level_file_in};

use crate::file_list::all_files;
use crate::level_file::LevelFile;
use edit::Version;
use ikey::{Comparator, Fault};
use std::alloc::Global;
use std::cmp::Ordering;

/// The number of a file of level 0; 0 for the others.
fn rank_of(file: &LevelFile<'_>) -> u64
    ensures { result ≡ rank_of (level_file_in file.now) }
{
    if file.level == 0 { file.meta.number } else { 0 }
}

/// The order of files, newer entries first: by level, at level 0 by falling number, at each other
/// level by smallest key.
fn newest_first_order<C: Comparator>(file: &LevelFile<'_>, other: &LevelFile<'_>) -> Ordering
    ensures { result ≡ newest_first_cmp C.cmp (level_file_in file.now) (level_file_in other.now) }
{
    let levels = file.level.cmp(&other.level);
    let ranks = rank_of(other).cmp(&rank_of(file));
    let smallest = other.meta.smallest.as_key();
    let keys = file.meta.smallest.as_key().compare::<C>(&smallest);
    levels.then(ranks.then(keys))
}

/// All files of a version in that order.
pub(crate) fn listed_files<'v, C: Comparator>(
    alloc: Global,
    version: &'v Version,
) -> Result<Vec<LevelFile<'v>>, Fault>
    ensures listed { IfOk result (λ files. AreListed C.cmp version.now.files files.items) }
    ensures permutation { IfOk result (λ files.
        IsPermutation (added_from C.cmp version.now.files 0 LEVELS)
        (map level_file_in files.items)) }
    ensures memory { IfErr result (λ e. e ≡ fault Memory) }
{
    let mut files = all_files::<C>(alloc, version)?;
    files.sort_unstable_by(|file, other| newest_first_order::<C>(file, other));
    Ok(files)
}

/// Whether `file` comes before `other`, so that its entries of one user key are the newer ones:
///
/// - it is at a shallower level;
/// - or both are at level 0, and it has the higher number;
/// - or both are at one level from 1 on, and its range of internal keys is below that of `other`.
fn stands_before<C: Comparator>(file: &LevelFile<'_>, other: &LevelFile<'_>) -> bool
    ensures { result ≡ stands_before C.cmp (level_file_in file.now) (level_file_in other.now) }
{
    let largest = file.meta.largest.as_key();
    let smallest = other.meta.smallest.as_key();
    file.level < other.level
        || (file.level == other.level
            && if file.level == 0 {
                other.meta.number < file.meta.number
            } else {
                largest.compare::<C>(&smallest).is_lt()
            })
}

/// Whether each file comes before the next one.
pub(crate) fn are_in_turn<C: Comparator>(files: &[LevelFile<'_>]) -> bool
    ensures { IsTrue result ↔ AreInTurn C.cmp files.now }
{
    for place in 1..files.len() {
        if !stands_before::<C>(&files[place - 1], &files[place]) {
            return false;
        }
    }
    true
}
