//! The ranges of user keys that files fill together, in their order.
//!
//! The range of a file is widened by each file that overlaps it, until no file widens it. Files in
//! the order of their smallest user keys are widened in one walk: a file that begins after the range
//! so far begins the next one. So all ranges take the time of one sort.

ghost use Rattle.std.specs.Prelude.{◌≡◌, ◌++◌, true, Ok, IfOk, IfErr, map, filter};
ghost use Rattle.edit.specs.Answers.{EqualOrMemory, fault};
ghost use Rattle.edit.specs.Key.{user_of};
ghost use Rattle.edit.specs.fault.FaultName.TheVariants.{Memory};
ghost use Rattle.pick.specs.Choices.{is_in};
ghost use Rattle.pick.specs.FileRanges.{AreByStart, AreFileRanges};
ghost use Rattle.pick.specs.FileRanges.{ending_from as files_ending_from};
ghost use Rattle.pick.specs.Parts.{have_ranges};

use crate::range::UserRange;
use edit::{Comparator, Fault, FileMeta};
use std::alloc::Global;
use std::cmp::Ordering;

/// The ranges that the files of two levels fill together. They rise, and no two share a user key.
pub(crate) fn file_ranges<'v, C: Comparator>(
    alloc: Global,
    upper: &[&'v FileMeta],
    lower: &[&'v FileMeta],
) -> Result<Vec<UserRange<'v>>, Fault>
    requires { have_ranges C.cmp (map (λ f. f.now) upper.now ++ map (λ f. f.now) lower.now)
        ≡ true }
    ensures ok { IfOk result (λ v. AreFileRanges C.cmp
        (map (λ f. f.now) upper.now ++ map (λ f. f.now) lower.now) v.items) }
    ensures memory { IfErr result (λ e. e ≡ fault Memory) }
{
    let mut files = Vec::from_slice(alloc, upper)?;
    files.extend_from_slice(lower)?;
    files.sort_unstable_by(|file, other| by_smallest::<C>(file, other));
    widened_ranges::<C>(alloc, &files)
}

/// The order of two files by their smallest user keys.
fn by_smallest<C: Comparator>(file: &FileMeta, other: &FileMeta) -> Ordering
    ensures { result ≡ C.cmp (user_of file.now.smallest) (user_of other.now.smallest) }
{
    C::compare(
        file.smallest.as_key().user(),
        other.smallest.as_key().user(),
    )
}

/// The ranges that these files fill together. They are in the order of their smallest user keys.
fn widened_ranges<'v, C: Comparator>(
    alloc: Global,
    files: &[&'v FileMeta],
) -> Result<Vec<UserRange<'v>>, Fault>
    requires order { AreByStart C.cmp (map (λ f. f.now) files.now) }
    requires ranges { have_ranges C.cmp (map (λ f. f.now) files.now) ≡ true }
    ensures ok { IfOk result (λ v. AreFileRanges C.cmp (map (λ f. f.now) files.now) v.items) }
    ensures memory { IfErr result (λ e. e ≡ fault Memory) }
{
    let mut ranges = Vec::new(alloc);
    let Some(first) = files.first() else {
        return Ok(ranges);
    };
    let mut range = UserRange::of(first);
    for file in files {
        if range.overlaps::<C>(*file) {
            range = range.with::<C>(*file);
        } else {
            ranges.push(range)?;
            range = UserRange::of(*file);
        }
    }
    ranges.push(range)?;
    Ok(ranges)
}

/// The files from the first one on that doesn't end before a range.
pub(crate) fn ending_from<'s, 'v, C: Comparator>(
    files: &'s [&'v FileMeta],
    range: UserRange<'_>,
) -> &'s [&'v FileMeta]
    ensures { map (λ f. f.now) result.now
        ≡ files_ending_from C.cmp range.entry.smallest.now (map (λ f. f.now) files.now) }
{
    for place in 0..files.len() {
        if C::compare(range.smallest, files[place].largest.as_key().user()).is_le() {
            return &files[place..];
        }
    }
    &files[files.len()..]
}

/// The files whose ranges overlap this one. They are in the order of their smallest user keys.
pub(crate) fn files_in<'v, C: Comparator>(
    alloc: Global,
    files: &[&'v FileMeta],
    range: UserRange<'_>,
) -> Result<Vec<&'v FileMeta>, Fault>
    requires { AreByStart C.cmp (map (λ f. f.now) files.now) }
    ensures { EqualOrMemory (λ v. map (λ f. f.now) v.items) result
        (Ok (filter (is_in C.cmp range.entry) (map (λ f. f.now) files.now))) }
{
    let mut found = Vec::new(alloc);
    for file in files {
        if !C::compare(file.smallest.as_key().user(), range.largest).is_le() {
            return Ok(found);
        }
        if range.overlaps::<C>(*file) {
            found.push(*file)?;
        }
    }
    Ok(found)
}
