//! Whether a choice of files is closed. It is told by levels, numbers and bounds alone, so it can
//! be asked before any table is read.
//!
//! A compaction of chosen files of a level is safe if what stays beside them is newer. So these
//! files have to go with them:
//!
//! | Level | Files |
//! |---|---|
//! | 0 | those whose range of user keys overlaps that of a chosen one |
//! | another | those that go on within the user key with which a chosen one ends |
//! | the next | those whose range overlaps that of the chosen ones of the level |
//! | the next | those that go on within the user key with which a chosen one of it ends |
//! | the next | those that lie among all chosen ones, by internal keys |

ghost use Rattle.std.specs.Prelude.{◌≡◌, ◌≤◌, ◌+◌, ◌&&◌, ◌++◌, Ok, Some, not, map, filter, find};
ghost use Rattle.std.specs.Prelude.{IfOk};
ghost use Rattle.std.specs.List.{list_any};
ghost use Rattle.std.specs.Option.{option_copied, option_map, option_or};
ghost use Rattle.std.specs.Ordering.{is_le};
ghost use Rattle.edit.specs.Answers.{EqualOrMemory};
ghost use Rattle.edit.specs.Order.{internal_cmp};
ghost use Rattle.pick.specs.Boundaries.{goes_on as is_going_on};
ghost use Rattle.pick.specs.ClosedChoice.{has_number_of as is_numbered, IsToldClosed};
ghost use Rattle.pick.specs.ClosedChoice.{goes_with as is_going_with, lies_among as is_among};
ghost use Rattle.pick.specs.ClosedChoice.{is_needed_above as needed_above};
ghost use Rattle.pick.specs.ClosedChoice.{is_needed_below as needed_below, missing_answer};
ghost use Rattle.pick.specs.ClosedChoice.{missing_among as missing_of};
ghost use Rattle.pick.specs.PickedInputs.{input_at};
ghost use Rattle.pick.specs.declared.input_choice.TheConstants.{LAST_INPUT_LEVEL};
ghost use Rattle.pick.specs.Ranges.{begins_by as is_begun, ends_at_or_after as is_ended};

use crate::boundaries::goes_on;
use crate::input_choice::LAST_INPUT_LEVEL;
use crate::picked_inputs::InputFile;
use crate::range::UserRange;
use edit::{Comparator, Fault, FaultName, FileMeta, KeyBuf, Version};
use std::alloc::Global;

/// The first file that a compaction of `level` has to take, too, if it takes the files of these
/// numbers at `level` and the next one. None exactly if these files are closed.
///
/// It is the first of the level in version order, else the first of the next level. It is asked of
/// the version as it is: with the file that is answered, others may be missing. A number that no
/// file of the two levels has chooses nothing.
///
/// Faults: Level if `level` is above 5; else Memory alone.
pub fn first_missing<C: Comparator>(
    alloc: Global,
    version: &Version,
    level: u64,
    numbers: &[u64],
) -> Result<Option<InputFile>, Fault>
    ensures answer { EqualOrMemory (λ o. o) result
        (missing_answer C.cmp version.now level numbers.now) }
    ensures closed { IfOk result
        (IsToldClosed C.cmp version.now level (is_numbered numbers.now)) }
{
    if level > LAST_INPUT_LEVEL {
        return Err(Fault::of(FaultName::Level));
    }
    let files = version.files::<C>(alloc, level)?;
    let next = version.files::<C>(alloc, level + 1)?;
    missing_among::<C>(alloc, level, &files, &next, numbers)
}

/// The first file that is missing, if `files` are those of the level and `next` those of the next.
fn missing_among<C: Comparator>(
    alloc: Global,
    level: u64,
    files: &[&FileMeta],
    next: &[&FileMeta],
    numbers: &[u64],
) -> Result<Option<InputFile>, Fault>
    requires { level ≤ LAST_INPUT_LEVEL }
    ensures { EqualOrMemory (λ o. o) result (Ok (missing_of C.cmp level (map (λ f. f.now) files.now)
        (map (λ f. f.now) next.now) (is_numbered numbers.now))) }
{
    let upper = chosen_of(alloc, files, numbers)?;
    let lower = chosen_of(alloc, next, numbers)?;
    let above = missing_above::<C>(level, files, numbers, &upper);
    let below = missing_below::<C>(next, numbers, &upper, &lower);
    first_input(alloc, level, above, below)
}

/// The first of two files that is there, as an input: one of `level`, or else one of the next.
fn first_input(
    alloc: Global,
    level: u64,
    above: Option<&FileMeta>,
    below: Option<&FileMeta>,
) -> Result<Option<InputFile>, Fault>
    requires { level ≤ LAST_INPUT_LEVEL }
    ensures { EqualOrMemory (λ o. o) result
        (Ok (option_or (option_map (input_at level) (option_copied above.entry))
        (option_map (input_at (level + 1)) (option_copied below.entry)))) }
{
    match (above, below) {
        (Some(file), _) => Ok(Some(input_of(alloc, level, file)?)),
        (None, Some(file)) => Ok(Some(input_of(alloc, level + 1, file)?)),
        (None, None) => Ok(None),
    }
}

/// A copy of a file as an input of `level`.
fn input_of(alloc: Global, level: u64, file: &FileMeta) -> Result<InputFile, Fault>
    ensures { EqualOrMemory (λ i. i) result (Ok (input_at level file.now)) }
{
    let meta = file.copy(alloc)?;
    Ok(InputFile { level, meta })
}

/// Whether the file's number is one of these.
fn has_number_of(numbers: &[u64], file: &FileMeta) -> bool
    ensures { result ≡ is_numbered numbers.now file.now }
{
    for number in numbers {
        if *number == file.number {
            return true;
        }
    }
    false
}

/// The files whose numbers are among these.
pub(crate) fn chosen_of<'a>(
    alloc: Global,
    files: &[&'a FileMeta],
    numbers: &[u64],
) -> Result<Vec<&'a FileMeta>, Fault>
    ensures { EqualOrMemory (λ v. map (λ f. f.now) v.items) result
        (Ok (filter (is_numbered numbers.now) (map (λ f. f.now) files.now))) }
{
    let mut chosen = Vec::new(alloc);
    for file in files {
        if has_number_of(numbers, *file) {
            chosen.push(*file)?;
        }
    }
    Ok(chosen)
}

/// The first file of the level that isn't chosen and has to go with the chosen ones.
fn missing_above<'a, C: Comparator>(
    level: u64,
    files: &[&'a FileMeta],
    numbers: &[u64],
    upper: &[&FileMeta],
) -> Option<&'a FileMeta>
    ensures { option_copied result ≡ find (λ f. not (is_numbered numbers.now f)
        && needed_above C.cmp level (map (λ g. g.now) upper.now) f) (map (λ f. f.now) files.now) }
{
    for file in files {
        if !has_number_of(numbers, *file) && is_needed_above::<C>(level, upper, *file) {
            return Some(*file);
        }
    }
    None
}

/// The first file of the next level that isn't chosen and has to go with the chosen ones.
fn missing_below<'a, C: Comparator>(
    files: &[&'a FileMeta],
    numbers: &[u64],
    upper: &[&FileMeta],
    lower: &[&FileMeta],
) -> Option<&'a FileMeta>
    ensures { option_copied result ≡ find (λ f. not (is_numbered numbers.now f)
        && needed_below C.cmp (map (λ g. g.now) upper.now) (map (λ g. g.now) lower.now) f)
        (map (λ f. f.now) files.now) }
{
    for file in files {
        if !has_number_of(numbers, *file) && is_needed_below::<C>(upper, lower, *file) {
            return Some(*file);
        }
    }
    None
}

/// Whether a file of the level has to go with a chosen one of it.
fn goes_with<C: Comparator>(level: u64, chosen: &FileMeta, file: &FileMeta) -> bool
    ensures { result ≡ is_going_with C.cmp level chosen.now file.now }
{
    match level {
        0 => UserRange::of(chosen).overlaps::<C>(file),
        _ => goes_on::<C>(Some(&chosen.largest), file),
    }
}

/// Whether a file of the level has to go with the chosen ones of it.
fn is_needed_above<C: Comparator>(level: u64, upper: &[&FileMeta], file: &FileMeta) -> bool
    ensures { result ≡ needed_above C.cmp level (map (λ f. f.now) upper.now) file.now }
{
    for chosen in upper {
        if goes_with::<C>(level, *chosen, file) {
            return true;
        }
    }
    false
}

/// Whether a file of the next level has to go with the chosen ones: `upper` of the level, `lower`
/// of the next.
fn is_needed_below<C: Comparator>(upper: &[&FileMeta], lower: &[&FileMeta], file: &FileMeta) -> bool
    ensures { result
        ≡ needed_below C.cmp (map (λ f. f.now) upper.now) (map (λ f. f.now) lower.now) file.now }
{
    let user_overlap = begins_by::<C>(upper, file.largest.as_key().user())
        && ends_at_or_after::<C>(upper, file.smallest.as_key().user());
    user_overlap || goes_on_some::<C>(lower, file) || lies_among::<C>(upper, lower, file)
}

/// Whether the user keys of some file begin at or before `user`.
fn begins_by<C: Comparator>(files: &[&FileMeta], user: &[u8]) -> bool
    ensures { result ≡ is_begun C.cmp (map (λ f. f.now) files.now) user.now }
{
    for file in files {
        if C::compare(file.smallest.as_key().user(), user).is_le() {
            return true;
        }
    }
    false
}

/// Whether the user keys of some file end at or after `user`.
fn ends_at_or_after<C: Comparator>(files: &[&FileMeta], user: &[u8]) -> bool
    ensures { result ≡ is_ended C.cmp (map (λ f. f.now) files.now) user.now }
{
    for file in files {
        if C::compare(user, file.largest.as_key().user()).is_le() {
            return true;
        }
    }
    false
}

/// Whether a file goes on within the user key with which one of `chosen` ends.
fn goes_on_some<C: Comparator>(chosen: &[&FileMeta], file: &FileMeta) -> bool
    ensures { result ≡ list_any (λ g. is_going_on C.cmp (Some g.largest) file.now)
        (map (λ g. g.now) chosen.now) }
{
    for other in chosen {
        if goes_on::<C>(Some(&other.largest), file) {
            return true;
        }
    }
    false
}

/// Whether the internal keys of a file lie among those of all these.
fn lies_among<C: Comparator>(upper: &[&FileMeta], lower: &[&FileMeta], file: &FileMeta) -> bool
    ensures { result ≡ is_among C.cmp (map (λ f. f.now) upper.now ++ map (λ f. f.now) lower.now)
        file.now }
{
    let begun = key_begun::<C>(upper, &file.largest) || key_begun::<C>(lower, &file.largest);
    let ended = key_ended::<C>(upper, &file.smallest) || key_ended::<C>(lower, &file.smallest);
    begun && ended
}

/// Whether the internal keys of some file begin at or before `key`.
fn key_begun<C: Comparator>(files: &[&FileMeta], key: &KeyBuf) -> bool
    ensures { result ≡ list_any (λ g. is_le (internal_cmp C.cmp g.smallest key.now))
        (map (λ g. g.now) files.now) }
{
    for file in files {
        if file.smallest.as_key().compare::<C>(&key.as_key()).is_le() {
            return true;
        }
    }
    false
}

/// Whether the internal keys of some file end at or after `key`.
fn key_ended<C: Comparator>(files: &[&FileMeta], key: &KeyBuf) -> bool
    ensures { result ≡ list_any (λ g. is_le (internal_cmp C.cmp key.now g.largest))
        (map (λ g. g.now) files.now) }
{
    for file in files {
        if key.as_key().compare::<C>(&file.largest.as_key()).is_le() {
            return true;
        }
    }
    false
}
