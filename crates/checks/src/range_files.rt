//! Which files a walk over a range of user keys needs.

ghost use Rattle.std.specs.Prelude.{◌≡◌, filter, map, Ok, IfOk, IfErr};
ghost use Rattle.ikey.specs.Answers.{EqualOrMemory, fault};
ghost use Rattle.ikey.specs.fault.FaultName.TheVariants.{Memory};
ghost use Rattle.split.specs.Ranges.{key_range};
ghost use Rattle.checks.specs.NeededFiles.{is_file_needed};
ghost use Rattle.checks.specs.FileStarts.{starts_in};

use folder::FileMeta;
use ikey::{Comparator, Fault};
use split::{Range, is_before};
use std::alloc::Global;

/// Those of the files that begin in `range`, or begin before it and don't end before it, in the
/// order of `files`. The tables of the others have no entry in `range`, if each table has the
/// bounds that its file states.
///
/// It takes the memory of a reference for each.
pub fn needed_files<'v, C: Comparator>(
    alloc: Global,
    files: &[&'v FileMeta],
    range: Range<'_>,
) -> Result<Vec<&'v FileMeta>, Fault>
    ensures needed { IfOk result (λ v. map (λ f. f.now) v.items
        ≡ filter (is_file_needed C.cmp (key_range range.entry)) (map (λ f. f.now) files.now)) }
    ensures memory { IfErr result (λ e. e ≡ fault Memory) }
{
    let mut needed = Vec::new(alloc);
    for file in files {
        if is_needed::<C>(file, range) {
            needed.push(*file)?;
        }
    }
    Ok(needed)
}

/// The numbers of files, in order.
pub fn numbers_of(alloc: Global, files: &[&FileMeta]) -> Result<Vec<u64>, Fault>
    ensures { EqualOrMemory (λ v. v.items) result (Ok (map (λ f. f.now.number) files.now)) }
{
    let mut numbers = Vec::with_capacity(alloc, files.len())?;
    for file in files {
        numbers.push(file.number)?;
    }
    Ok(numbers)
}

/// Whether the file begins in `range`.
pub(crate) fn starts_in<C: Comparator>(file: &FileMeta, range: Range<'_>) -> bool
    ensures { result ≡ starts_in C.cmp (key_range range.entry) file.now }
{
    let smallest = file.smallest.as_key();
    let begins = is_before::<C>(smallest, range.upper, true);
    begins && !is_before::<C>(smallest, range.lower, false)
}

/// Whether the file begins in `range`, or begins before it and doesn't end before it.
fn is_needed<C: Comparator>(file: &FileMeta, range: Range<'_>) -> bool
    ensures { result ≡ is_file_needed C.cmp (key_range range.entry) file.now }
{
    let begins = is_before::<C>(file.smallest.as_key(), range.upper, true);
    let is_earlier = is_before::<C>(file.smallest.as_key(), range.lower, false);
    let ends = is_before::<C>(file.largest.as_key(), range.lower, false);
    begins && (!is_earlier || !ends)
}
