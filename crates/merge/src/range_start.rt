//! Seeking the beginning of a range.

ghost use Rattle.std.specs.Prelude.{◌≡◌, ◌<◌, ◌^◌, false, OnOk, IsOkUnless};
ghost use Rattle.std.specs.List.{AllByRecursion};
ghost use Rattle.std.specs.Option.{option_map};
ghost use Rattle.table.specs.Answers.{fault};
ghost use Rattle.table.specs.fault.FaultName.TheVariants.{Memory};
ghost use Rattle.table.specs.Key.{sequence_of};
ghost use Rattle.split.specs.Ranges.{key_range};
ghost use Rattle.merge.specs.CursorsLeft.{is_before, LosesOnly};
ghost use Rattle.merge.specs.FirstEntry.{first_is};

use ikey::{Kind, MAX_USER_KEY};
use split::{Range, is_before};
use std::alloc::Global;
use table::{Comparator, Cursor, Fault, KeyBuf, MAX_SEQUENCE};

/// Takes off the entries before `range`.
///
/// It seeks the first internal key that the lower bound may have as a user key. If all sequences
/// are below 2^56, only entries before the range are taken off, also by a refused call. A merge of
/// the range then answers what it would have answered (`keep::range_start_law`).
pub fn seek_range<'a, C: Comparator, S: Cursor<'a, C>>(
    alloc: Global,
    cursor: &mut S,
    range: Range<'_>,
) -> Result<(), Fault>
    ensures left { AllByRecursion (λ e. sequence_of e.key < 2 ^ 56) (S.remaining cursor.old) →
        LosesOnly (is_before C.cmp (key_range range.entry).lower false)
        (S.remaining cursor.old) (S.remaining cursor.new) }
    ensures begun { OnOk result
        (first_is (is_before C.cmp (key_range range.entry).lower false) (S.remaining cursor.new)
        ≡ false) }
    ensures memory { IsOkUnless result (fault Memory) }
{
    seek_user::<C, S>(alloc, cursor, range.lower)?;
    while starts_before::<C, S>(cursor, range.lower, false) {
        cursor.advance()?;
    }
    Ok(())
}

/// Seeks the first internal key that `user` may have. Does nothing if there is none, or if it is
/// longer than a user key may be.
fn seek_user<'a, C: Comparator, S: Cursor<'a, C>>(
    alloc: Global,
    cursor: &mut S,
    user: Option<&[u8]>,
) -> Result<(), Fault>
    ensures left { AllByRecursion (λ e. sequence_of e.key < 2 ^ 56) (S.remaining cursor.old) →
        LosesOnly (is_before C.cmp (option_map (λ key. key.now) user.entry) false)
        (S.remaining cursor.old) (S.remaining cursor.new) }
    ensures memory { IsOkUnless result (fault Memory) }
{
    let Some(user) = user else {
        return Ok(());
    };
    if user.len() > MAX_USER_KEY {
        return Ok(());
    }
    let first = KeyBuf::new(alloc, user, MAX_SEQUENCE, Kind::Put)?;
    cursor.seek(first.as_key())
}

/// Whether there is an entry to come whose user key is before `bound`. If there is no bound,
/// `otherwise` says whether the first entry counts as before it.
#[inline(always)]
pub fn starts_before<'a, C: Comparator, M: Cursor<'a, C>>(
    merging: &M,
    bound: Option<&[u8]>,
    otherwise: bool,
) -> bool
    ensures { result
        ≡ first_is (is_before C.cmp (option_map (λ limit. limit.now) bound.entry) otherwise)
        (M.remaining merging.now) }
{
    if !merging.valid() {
        return false;
    }
    is_before::<C>(merging.key(), bound, otherwise)
}
