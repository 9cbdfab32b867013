//! The finest parts of a level.
//!
//! A part is a set of files of the level and of the next one that shares no user key with a file
//! that stays. So it is closed, and stays closed whatever other parts were compacted meanwhile: all
//! parts of a level can be compacted at the same time, and installed one after the other in any
//! order.
//!
//! Each part is the least such set around one of its files. It sets the compact pointer that the
//! level has. All parts of a lawful level take the time of one sort, and the memory of copies of
//! their files and of one list of all deeper ones, which they share.

ghost use Rattle.std.specs.Prelude.{◌≡◌, ◌≤◌, ◌+◌, ◌++◌, [], true, Ok, IsOkAnd, map, filter};
ghost use Rattle.std.specs.Prelude.{nat_lt, if◌then◌else◌};
ghost use Rattle.std.specs.Arc.{arc_value};
ghost use Rattle.edit.specs.Answers.{EqualOrMemory, HoldsOrMemory};
ghost use Rattle.edit.specs.Version.{IsState};
ghost use Rattle.edit.specs.VersionOrder.{level_files};
ghost use Rattle.edit.specs.declared.meta.TheConstants.{LAST_LEVEL};
ghost use Rattle.pick.specs.ApartChoice.{both_files};
ghost use Rattle.pick.specs.Choices.{is_in};
ghost use Rattle.pick.specs.FileRanges.{AreByStart, ending_from as files_ending_from};
ghost use Rattle.pick.specs.Parts.{AreParts, IsPartsAnswer, have_ranges as all_have_ranges};
ghost use Rattle.pick.specs.PickedInputs.{input_at, picked_in};
ghost use Rattle.pick.specs.declared.input_choice.TheConstants.{LAST_INPUT_LEVEL};

use crate::boundaries::largest_of;
use crate::file_copies::{deeper_files, push_copies};
use crate::file_ranges::{ending_from, file_ranges, files_in};
use crate::input_choice::{LAST_INPUT_LEVEL, files_of};
use crate::picked_inputs::Inputs;
use crate::range::UserRange;
use edit::{CompactPointer, Comparator, Fault, FaultName, FileMeta, KeyBuf, LAST_LEVEL, Version};
use std::alloc::Global;
use std::sync::Arc;

/// The finest parts of `level`, in the order of their first files. None if the level has no file.
///
/// Faults: Level if `level` is above 5; Lawless if a file of it or of the next one ends before it
/// begins, by user keys; else Memory alone.
pub fn finest_parts<C: Comparator>(
    alloc: Global,
    version: &Version,
    level: u64,
) -> Result<Vec<Inputs>, Fault>
    ensures { HoldsOrMemory (λ v. map picked_in v.items) result
        (IsPartsAnswer C.cmp version.now level) }
{
    if level > LAST_INPUT_LEVEL {
        return Err(Fault::of(FaultName::Level));
    }
    let files = version.files::<C>(alloc, level)?;
    let next = version.files::<C>(alloc, level + 1)?;
    if !have_ranges::<C>(&files) || !have_ranges::<C>(&next) {
        return Err(Fault::of(FaultName::Lawless));
    }
    let Some(key) = version.pointer(level).or(largest_of::<C>(&files)) else {
        return Ok(Vec::new(alloc));
    };
    let sides = Sides {
        version,
        level,
        upper: &files,
        lower: &next,
        key,
    };
    parts_of::<C>(alloc, sides)
}

/// A level of a version and its files, those of the next one, and the key of its compact pointer.
#[derive(Clone, Copy)]
struct Sides<'s> {
    version: &'s Version,
    level: u64,
    upper: &'s [&'s FileMeta],
    lower: &'s [&'s FileMeta],
    key: &'s KeyBuf,
}

/// Whether of each file, the smallest user key is at or before the largest.
fn have_ranges<C: Comparator>(files: &[&FileMeta]) -> bool
    ensures { result ≡ all_have_ranges C.cmp (map (λ f. f.now) files.now) }
{
    for file in files {
        if !C::compare(file.smallest.as_key().user(), file.largest.as_key().user()).is_le() {
            return false;
        }
    }
    true
}

/// The parts of a level: the files of each range that both levels fill together, if one of them is
/// of the level.
fn parts_of<C: Comparator>(alloc: Global, sides: Sides<'_>) -> Result<Vec<Inputs>, Fault>
    requires level { sides.level ≤ LAST_INPUT_LEVEL }
    requires upper { map (λ f. f.now) sides.upper.now
        ≡ level_files C.cmp sides.version.now sides.level }
    requires lower { map (λ f. f.now) sides.lower.now
        ≡ level_files C.cmp sides.version.now (sides.level + 1) }
    requires state { IsState sides.version.now.pointers sides.version.now.files }
    requires ranges { all_have_ranges C.cmp (both_files C.cmp sides.version.now sides.level)
        ≡ true }
    ensures { HoldsOrMemory (λ v. map picked_in v.items) result
        (λ answer. IsOkAnd answer (AreParts C.cmp sides.entry.version.now sides.entry.level
        sides.entry.key.now)) }
{
    let near = files_to_last::<C>(alloc, sides.version, sides.level + 2)?;
    let deeper = deeper_files::<C>(alloc, sides.version, sides.level + 2)?;
    let ranges = file_ranges::<C>(alloc, sides.upper, sides.lower)?;
    let mut ahead = Ahead {
        upper: sides.upper,
        lower: sides.lower,
        near: &near,
    };
    let mut parts = Vec::new(alloc);
    for range in &ranges {
        ahead = ahead.reached::<C>(*range);
        let upper = files_in::<C>(alloc, ahead.upper, *range)?;
        if !upper.is_empty() {
            let part = part_in::<C>(alloc, sides, &deeper, &upper, ahead, *range)?;
            parts.push(part)?;
        }
    }
    Ok(parts)
}

/// The files of `level`; none if it is above 6.
fn files_to_last<C: Comparator>(
    alloc: Global,
    version: &Version,
    level: u64,
) -> Result<Vec<&FileMeta>, Fault>
    ensures { EqualOrMemory (λ v. map (λ f. f.now) v.items) result
        (Ok (if nat_lt LAST_LEVEL level then [] else level_files C.cmp version.now level)) }
{
    if level > LAST_LEVEL {
        return Ok(Vec::new(alloc));
    }
    version.files::<C>(alloc, level)
}

/// The files of a level and of the next two that a range, or a later one, can overlap.
#[derive(Clone, Copy)]
struct Ahead<'s> {
    upper: &'s [&'s FileMeta],
    lower: &'s [&'s FileMeta],
    near: &'s [&'s FileMeta],
}

impl<'s> Ahead<'s> {
    /// Without those at the front that end before a range.
    fn reached<C: Comparator>(self, range: UserRange<'_>) -> Ahead<'s>
        ensures upper { map (λ f. f.now) result.upper.now
            ≡ files_ending_from C.cmp range.entry.smallest.now
            (map (λ f. f.now) self.entry.upper.now) }
        ensures lower { map (λ f. f.now) result.lower.now
            ≡ files_ending_from C.cmp range.entry.smallest.now
            (map (λ f. f.now) self.entry.lower.now) }
        ensures near { map (λ f. f.now) result.near.now
            ≡ files_ending_from C.cmp range.entry.smallest.now
            (map (λ f. f.now) self.entry.near.now) }
    {
        Ahead {
            upper: ending_from::<C>(self.upper, range),
            lower: ending_from::<C>(self.lower, range),
            near: ending_from::<C>(self.near, range),
        }
    }
}

/// The part of a range: these files of the level, and those ahead of the next two whose ranges
/// overlap it.
fn part_in<C: Comparator>(
    alloc: Global,
    sides: Sides<'_>,
    deeper: &Arc<Vec<FileMeta>>,
    upper: &[&FileMeta],
    ahead: Ahead<'_>,
    range: UserRange<'_>,
) -> Result<Inputs, Fault>
    requires level { sides.level ≤ LAST_INPUT_LEVEL }
    requires lower { AreByStart C.cmp (map (λ f. f.now) ahead.lower.now) }
    requires near { AreByStart C.cmp (map (λ f. f.now) ahead.near.now) }
    ensures { EqualOrMemory picked_in result (Ok (record {
      level = sides.entry.level;
      files = map (λ f. input_at sides.entry.level f.now) upper.now
          ++ map (input_at (sides.entry.level + 1))
          (filter (is_in C.cmp range.entry) (map (λ f. f.now) ahead.entry.lower.now));
      grandparents = filter (is_in C.cmp range.entry) (map (λ f. f.now) ahead.entry.near.now);
      deeper = (arc_value deeper.now).items;
      pointer = record { level = sides.entry.level; key = sides.entry.key.now };
    })) }
{
    let level = sides.level;
    let lower = files_in::<C>(alloc, ahead.lower, range)?;
    let near = files_in::<C>(alloc, ahead.near, range)?;
    let mut grandparents = Vec::with_capacity(alloc, near.len())?;
    push_copies(alloc, &mut grandparents, &near)?;
    Ok(Inputs {
        level,
        files: files_of(alloc, level, upper, &lower)?,
        grandparents,
        deeper: Arc::try_clone(deeper)?,
        pointer: CompactPointer {
            level,
            key: KeyBuf::of(alloc, sides.key.as_key())?,
        },
    })
}
