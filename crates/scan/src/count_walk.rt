//! The amounts of merged entries in a range.

ghost use Rattle.std.specs.Prelude.{◌≡◌, ◌<◌, List, ◌∷◌, length, map, OnOk, IfErr};
ghost use Rattle.table.specs.Answers.{fault};
ghost use Rattle.table.specs.fault.FaultName.TheVariants.{Memory};
ghost use Rattle.block.specs.EncodedEntry.{Entry};
ghost use Rattle.merge.specs.MergedLists.{merged};
ghost use Rattle.reads.specs.Ranges.{key_range};
ghost use Rattle.merge.specs.InRange.{entries_in};
ghost use Rattle.scan.specs.Counts.{amounts_after, decided_then, AreAmountsCounted};

use crate::amounts::Amounts;
use crate::decided_user::DecidedUser;
use merge::{Merging, starts_before};
use reads::Range;
use std::alloc::Global;
use table::{Comparator, Cursor, Fault};

/// Counts the entries that the cursors of `merging` have in `range`, each among the `amounts` at
/// its cursor's place. Newer entries hide older ones at the sequence `last`.
///
/// The numbers of entries saturate at 2^128 - 1.
pub(crate) fn count_merged<'a, C: Comparator, S: Cursor<'a, C> + Drop>(
    alloc: Global,
    merging: &mut Merging<C, S>,
    range: Range<'_>,
    last: u64,
    amounts: &mut [Amounts],
) -> Result<(), Fault>
    requires { length amounts.old ≡ length merging.old }
    ensures counted { OnOk result (AreAmountsCounted last
        (map (entries_in C.cmp (key_range range.entry)) merging.old) amounts.old amounts.new) }
    ensures memory { IfErr result (λ e. e ≡ fault Memory) }
{
    let mut decided = DecidedUser::none(alloc);
    while let Some(place) = merging.place() {
        let is_within = starts_before::<C, Merging<C, S>>(merging, range.upper, true);
        if !is_within {
            return Ok(());
        }
        count_next::<C, S>(merging, place, range, last, &mut decided, amounts)?;
        merging.advance()?;
    }
    Ok(())
}

/// Counts the next entry, which the cursor at `place` has, if it isn't before `range`.
fn count_next<'a, C: Comparator, S: Cursor<'a, C> + Drop>(
    merging: &Merging<C, S>,
    place: usize,
    range: Range<'_>,
    last: u64,
    decided: &mut DecidedUser,
    amounts: &mut [Amounts],
) -> Result<(), Fault>
    requires some { 0 < length (merged C.cmp merging.now) }
    requires within { place < length amounts.old }
    ensures amounts { OnOk result ((e : Entry) (es : List Entry) →
        merged C.cmp merging.now ≡ e ∷ es → amounts.new
        ≡ amounts_after C.cmp (key_range range.entry).lower place decided.old e amounts.old) }
    ensures decided { OnOk result ((e : Entry) (es : List Entry) →
        merged C.cmp merging.now ≡ e ∷ es → decided.new
        ≡ decided_then C.cmp (key_range range.entry).lower last decided.old e) }
    ensures memory { IfErr result (λ e. e ≡ fault Memory) }
{
    let is_earlier = starts_before::<C, Merging<C, S>>(merging, range.lower, false);
    if is_earlier {
        return Ok(());
    }
    let key = merging.key();
    let is_hidden = decided.take_in(key, last)?;
    amounts[place] = amounts[place].plus(Amounts::of_entry(key.kind(), is_hidden));
    Ok(())
}
