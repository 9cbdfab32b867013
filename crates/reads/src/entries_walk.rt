//! A walk over the entries of tables in the order of their keys.

ghost use Rattle.std.specs.Prelude.{◌≡◌, ◌↔◌, true, ◌&&◌, IfOk, IfErr};
ghost use Rattle.ikey.specs.Answers.{fault};
ghost use Rattle.ikey.specs.fault.FaultName.TheVariants.{Memory};
ghost use Rattle.ikey.specs.Key.{user_of};
ghost use Rattle.merge.specs.MergedLists.{entries_of_lists};
ghost use Rattle.split.specs.Ranges.{key_range, IsIn};
ghost use Rattle.reads.specs.FileChecks.{is_from, steps_back};
ghost use Rattle.reads.specs.TableOrder.{AreFallingIn};

use ikey::{Comparator, Fault, InternalKey, KeyBuf, Kind};
use merge::Merging;
use split::{Range, is_before};
use std::alloc::Global;
use table::{Cursor, TableCursor};

/// Whether, of every user key in `range`, the sequences strictly fall when the cursors are read one
/// after the other.
///
/// It walks over all entries once, in the order of their keys, up to the end of the range. An entry
/// is older than the previous one of its user key if its sequence is lower and it comes from the
/// same cursor or a later one.
///
/// It takes the memory of two keys and of the merge. An entry takes a time that grows with the
/// logarithm of the number of cursors. No contract says either.
pub fn falls_in<C: Comparator>(
    alloc: Global,
    cursors: Vec<TableCursor<'_, C>>,
    range: Range<'_>,
) -> Result<bool, Fault>
    ensures falls { IfOk result (λ falls. (falls ≡ true)
        ↔ AreFallingIn (IsIn C.cmp (key_range range.entry))
        (entries_of_lists cursors.entry.items)) }
    ensures memory { IfErr result (λ e. e ≡ fault Memory) }
{
    let mut merging = Merging::<C, TableCursor<'_, C>>::new(alloc, cursors)?;
    let mut last = KeyBuf::new(alloc, &[], 0, Kind::Put)?;
    is_falling(&mut merging, &mut last, range)
}

/// As [`falls_in`], of a merge. `last` is room for keys, and has the last key that was taken off.
fn is_falling<'c, C: Comparator, S: Cursor<'c, C> + Drop>(
    merging: &mut Merging<C, S>,
    last: &mut KeyBuf,
    range: Range<'_>,
) -> Result<bool, Fault>
    ensures falls { IfOk result (λ falls. (falls ≡ true)
        ↔ AreFallingIn (IsIn C.cmp (key_range range.entry)) (entries_of_lists merging.old)) }
    ensures memory { IfErr result (λ e. e ≡ fault Memory) }
{
    while let Some(place) = merging.place() {
        let begun = merging.key();
        if !is_before::<C>(begun, range.upper, true) {
            return Ok(true);
        }
        last.set(begun)?;
        merging.advance()?;
        let Some(next) = merging.place() else {
            return Ok(true);
        };
        let within = is_from::<C>(last.as_key(), range);
        if within && steps_back(last.as_key(), place, merging.key(), next) {
            return Ok(false);
        }
    }
    Ok(true)
}

/// Whether the user key of `key` is at or after the range's lower bound, if it has one.
fn is_from<C: Comparator>(key: InternalKey<'_>, range: Range<'_>) -> bool
    ensures { result ≡ is_from C.cmp (key_range range.entry) (user_of key.entry.bytes.now) }
{
    match range.lower {
        Some(lower) => !C::compare(key.user(), lower).is_lt(),
        None => true,
    }
}

/// Whether `key`, from the cursor at `next`, breaks the order after `last`, from the cursor at
/// `place`. It does if it has the same user key, and comes from an earlier cursor or has no lower
/// sequence.
fn steps_back(last: InternalKey<'_>, place: usize, key: InternalKey<'_>, next: usize) -> bool
    ensures { result ≡ steps_back last.entry.bytes.now place key.entry.bytes.now next }
{
    key.user() == last.user() && (next < place || last.sequence() <= key.sequence())
}
