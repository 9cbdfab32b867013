//! Boundary files: those that go on within the user key with which the chosen files end.
//!
//! Why they are taken: say level 1 has a file that ends with `u` at 10 and one that begins with `u`
//! at 5. If the first moved down alone, a get of `u` would find the older entry above the newer
//! one.

ghost use Rattle.std.specs.Prelude.{◌≡◌, Ok, Some, map, filter};
ghost use Rattle.std.specs.Option.{option_copied};
ghost use Rattle.edit.specs.Answers.{EqualOrMemory};
ghost use Rattle.pick.specs.Boundaries.{greater_key, with_largest, largest_key};
ghost use Rattle.pick.specs.Boundaries.{goes_on as is_going_on};
ghost use Rattle.pick.specs.Choices.{is_chosen, with_boundary_files};

use crate::choice::Choice;
use edit::{Comparator, Fault, FileMeta, KeyBuf};
use std::alloc::Global;

/// The greater of two internal keys.
fn greater_of<'a, C: Comparator>(a: &'a KeyBuf, b: &'a KeyBuf) -> &'a KeyBuf
    ensures { result.now ≡ greater_key C.cmp a.now b.now }
{
    if a.as_key().compare::<C>(&b.as_key()).is_lt() {
        b
    } else {
        a
    }
}

/// The greatest key so far, after one more file with its largest key.
fn largest_with<'a, C: Comparator>(
    key: Option<&'a KeyBuf>,
    file: &'a FileMeta,
) -> Option<&'a KeyBuf>
    ensures { option_copied result ≡ with_largest C.cmp (option_copied key.entry) file.now }
{
    match key {
        Some(key) => Some(greater_of::<C>(key, &file.largest)),
        None => Some(&file.largest),
    }
}

/// The greatest of the files' largest keys; None if there is no file.
pub(crate) fn largest_of<'a, C: Comparator>(files: &[&'a FileMeta]) -> Option<&'a KeyBuf>
    ensures { option_copied result ≡ largest_key C.cmp (map (λ f. f.now) files.now) }
{
    let mut largest = None;
    for file in files {
        largest = largest_with::<C>(largest, *file);
    }
    largest
}

/// The greatest of the largest keys of the files that are chosen; None if none is.
fn largest_chosen<'a, C: Comparator>(
    files: &[&'a FileMeta],
    choice: Choice<'_>,
) -> Option<&'a KeyBuf>
    ensures { option_copied result
        ≡ largest_key C.cmp (filter (is_chosen C.cmp choice.entry) (map (λ f. f.now) files.now)) }
{
    let mut largest = None;
    for file in files {
        if choice.chooses::<C>(*file) {
            largest = largest_with::<C>(largest, *file);
        }
    }
    largest
}

/// Whether `file` goes on within the user key of `key`: its smallest key is greater than `key` and
/// has that user key.
pub(crate) fn goes_on<C: Comparator>(key: Option<&KeyBuf>, file: &FileMeta) -> bool
    ensures { result ≡ is_going_on C.cmp (option_copied key.entry) file.now }
{
    let Some(key) = key else {
        return false;
    };
    let smallest = file.smallest.as_key();
    key.as_key().compare::<C>(&smallest).is_lt()
        && C::compare(key.as_key().user(), smallest.user()).is_eq()
}

/// The chosen files and their boundary files, in the order of `files`.
pub(crate) fn with_boundaries<'a, C: Comparator>(
    alloc: Global,
    files: &[&'a FileMeta],
    choice: Choice<'_>,
) -> Result<Vec<&'a FileMeta>, Fault>
    ensures { EqualOrMemory (λ v. map (λ f. f.now) v.items) result
        (Ok (with_boundary_files C.cmp (is_chosen C.cmp choice.entry)
        (map (λ f. f.now) files.now))) }
{
    let mut largest = largest_chosen::<C>(files, choice);
    let mut all = Vec::new(alloc);
    for file in files {
        if choice.chooses::<C>(*file) {
            all.push(*file)?;
        } else if goes_on::<C>(largest, *file) {
            largest = largest_with::<C>(largest, *file);
            all.push(*file)?;
        }
    }
    Ok(all)
}
