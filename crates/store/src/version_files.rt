//! What a version's files tell by themselves, without their tables.

ghost use Rattle.std.specs.Prelude.{◌≡◌, ◌↔◌, ◌≤◌, IfErr, IfOk, IsTrue};
ghost use Rattle.std.specs.List.{All};
ghost use Rattle.folder.specs.Answers.{HoldsOrMemory, fault};
ghost use Rattle.folder.specs.fault.FaultName.TheVariants.{Memory};
ghost use Rattle.std.specs.Ordering.{is_lt};
ghost use Rattle.folder.specs.Order.{internal_cmp};
ghost use Rattle.folder.specs.Version.{IsState};
ghost use Rattle.reads.specs.Lawful.{IsBelowNextFile};
ghost use Rattle.store.specs.InputsCompaction.{IsOrderlyAnswer, IsOrderlyLevel};
ghost use Rattle.store.specs.LentFiles.{LentRangesRise};
ghost use Rattle.folder.specs.meta.TheConstants.{LAST_LEVEL};

use folder::{Comparator, Fault, FaultName, FileMeta, LEVELS, Version};
use reads::is_below;
use std::alloc::Global;

/// Tests what the files of a version tell of it by themselves. Their numbers have to be below next
/// file, and the ranges of the files of each level from 1 on have to rise. `Lawless` if one of
/// these fails. The only other fault is Memory.
pub fn test_files<C: Comparator>(alloc: Global, version: &Version) -> Result<(), Fault>
    ensures { HoldsOrMemory (λ u. u) result (IsOrderlyAnswer C.cmp version.now) }
{
    for level in 0..LEVELS {
        if !is_orderly_level::<C>(alloc, version, level)? {
            return Err(Fault::of(FaultName::Lawless));
        }
    }
    Ok(())
}

/// Files of a version rise by number, pointers by level, and levels are from 0 to 6. A call
/// does nothing.
pub fn version_is_state<C: Comparator>(alloc: Global, version: &Version)
    ensures { IsState version.now.pointers version.now.files }
{
    let _files = version.files::<C>(alloc, 0);
}

/// Whether the files of a level are so.
fn is_orderly_level<C: Comparator>(
    alloc: Global,
    version: &Version,
    level: u64,
) -> Result<bool, Fault>
    requires { level ≤ LAST_LEVEL }
    ensures orderly { IfOk result (λ b. IsTrue b ↔ IsOrderlyLevel C.cmp version.now level) }
    ensures memory { IfErr result (λ e. e ≡ fault Memory) }
{
    let files = version.files::<C>(alloc, level)?;
    if !are_below(version.next_file(), &files) {
        return Ok(false);
    }
    if level == 0 {
        return Ok(true);
    }
    Ok(ranges_rise::<C>(&files))
}

/// Whether the numbers of files are below `next`; false if there are files and no `next`.
fn are_below(next: Option<u64>, files: &[&FileMeta]) -> bool
    ensures { IsTrue result ↔ All (λ f. IsBelowNextFile next f.now.number) files.now }
{
    for file in files {
        if !is_below(next, file.number) {
            return false;
        }
    }
    true
}

/// Whether the largest key of each file is below the smallest of the next one.
fn ranges_rise<C: Comparator>(files: &[&FileMeta]) -> bool
    ensures { IsTrue result ↔ LentRangesRise C.cmp files.now }
{
    for place in 1..files.len() {
        if !ends_before::<C>(files[place - 1], files[place]) {
            return false;
        }
    }
    true
}

/// Whether a file's largest key is below the smallest of the `other`.
fn ends_before<C: Comparator>(file: &FileMeta, other: &FileMeta) -> bool
    ensures { result ≡ is_lt (internal_cmp C.cmp file.now.largest other.now.smallest) }
{
    let largest = file.largest.as_key();
    let smallest = other.smallest.as_key();
    largest.compare::<C>(&smallest).is_lt()
}
