//! The files of a level that are chosen before boundary files are added.

ghost use Rattle.std.specs.Prelude.{◌≡◌, map, find};
ghost use Rattle.std.specs.Option.{option_copied};
ghost use Rattle.std.specs.Ordering.{is_lt};
ghost use Rattle.edit.specs.Order.{internal_cmp};
ghost use Rattle.pick.specs.ChosenFiles.{first_file as first_of};
ghost use Rattle.pick.specs.Choices.{is_chosen, is_widening, IsGrown};

use crate::range::UserRange;
use edit::{Comparator, FileMeta, KeyBuf};

/// Which files of a level are chosen before boundary files are added.
#[derive(Clone, Copy)]
pub(crate) enum Choice<'a> {
    /// The file of this number.
    First(u64),
    /// The file of this number, and those whose range of user keys overlaps this one.
    Around(u64, UserRange<'a>),
    /// The files whose range of user keys overlaps this one.
    Overlapping(UserRange<'a>),
}

impl<'a> Choice<'a> {
    /// Whether `file` is chosen.
    pub fn chooses<C: Comparator>(self, file: &FileMeta) -> bool
        ensures { result ≡ is_chosen C.cmp self.entry file.now }
    {
        match self {
            Choice::First(number) => file.number == number,
            Choice::Around(number, range) => file.number == number || range.overlaps::<C>(file),
            Choice::Overlapping(range) => range.overlaps::<C>(file),
        }
    }
}

/// The first file whose largest key is greater than `pointer`. It is the first of all if there is
/// no pointer or none is greater; None if there is no file.
pub(crate) fn first_file<'a, C: Comparator>(
    files: &[&'a FileMeta],
    pointer: Option<&KeyBuf>,
) -> Option<&'a FileMeta>
    ensures { option_copied result
        ≡ first_of C.cmp (option_copied pointer.entry) (map (λ f. f.now) files.now) }
{
    let first = files.first().copied();
    match pointer {
        Some(key) => first_above::<C>(files, key).or(first),
        None => first,
    }
}

/// The first file whose largest key is greater than `pointer`; None if there is none.
fn first_above<'a, C: Comparator>(files: &[&'a FileMeta], pointer: &KeyBuf) -> Option<&'a FileMeta>
    ensures { option_copied result
        ≡ find (λ f. is_lt (internal_cmp C.cmp pointer.now f.largest))
        (map (λ f. f.now) files.now) }
{
    for file in files {
        if pointer
            .as_key()
            .compare::<C>(&file.largest.as_key())
            .is_lt()
        {
            return Some(*file);
        }
    }
    None
}

/// The first file that overlaps `range` and isn't covered by it; None if there is none.
fn first_widening<'a, C: Comparator>(
    files: &[&'a FileMeta],
    range: UserRange<'_>,
) -> Option<&'a FileMeta>
    ensures { option_copied result
        ≡ find (is_widening C.cmp range.entry) (map (λ f. f.now) files.now) }
{
    for file in files {
        if range.overlaps::<C>(*file) && !range.covers::<C>(*file) {
            return Some(*file);
        }
    }
    None
}

/// The range of user keys of `first`, widened by each file that overlaps it, until no file widens
/// it.
pub(crate) fn grown_range<'a, C: Comparator>(
    files: &[&'a FileMeta],
    first: &'a FileMeta,
) -> UserRange<'a>
    ensures { IsGrown C.cmp (map (λ f. f.now) files.now) first.now result.smallest.now
        result.largest.now }
{
    let mut range = UserRange::of(first);
    while let Some(file) = first_widening::<C>(files, range) {
        range = range.with::<C>(file);
    }
    range
}
