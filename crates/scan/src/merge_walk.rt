//! The rows of merged entries in a range.

ghost use Rattle.std.specs.Prelude.{◌≡◌, false, OnOk, IsOkUnless, IfErr};
ghost use Rattle.table.specs.Answers.{fault};
ghost use Rattle.table.specs.fault.FaultName.TheVariants.{Memory};
ghost use Rattle.merge.specs.MergedLists.{merged};
ghost use Rattle.reads.specs.Ranges.{key_range};
ghost use Rattle.merge.specs.FirstEntry.{first_is};
ghost use Rattle.merge.specs.InRange.{entries_in};
ghost use Rattle.merge.specs.CursorsLeft.{is_before};
ghost use Rattle.scan.specs.EntryRows.{sorted_rows};
ghost use Rattle.scan.specs.RowParts.{AreTelling, AreWanted};

use crate::decided_user::DecidedUser;
use crate::entry_walk::walk_entry;
use crate::row_limit::RowLimit;
use crate::row_taker::RowTaker;
use merge::{Merging, starts_before};
use reads::Range;
use std::alloc::Global;
use table::{Comparator, Cursor, Fault};

/// Tells the rows of the entries that `merging` has in `range`, by the sequence `at`: at most
/// `limit`.
pub(crate) fn tell_merged<'a, C: Comparator, S: Cursor<'a, C> + Drop, T: RowTaker>(
    alloc: Global,
    merging: &mut Merging<C, S>,
    range: Range<'_>,
    at: u64,
    limit: Option<u64>,
    taker: &mut T,
) -> Result<RowLimit, Fault>
    requires { AreWanted limit }
    ensures told { AreTelling T.tells (sorted_rows C.cmp (key_range range.entry) at merging.old)
        taker.old limit taker.new result }
    ensures memory { IfErr result (λ e. e ≡ fault Memory) }
{
    skip_before::<C, S>(merging, range)?;
    let mut decided = DecidedUser::none(alloc);
    let mut left = limit;
    while starts_before::<C, Merging<C, S>>(merging, range.upper, true) {
        let (key, value) = (merging.key(), merging.value());
        let wanted = walk_entry(&mut decided, key, value, at, left, taker)?;
        let RowLimit::More(less) = wanted else {
            return Ok(RowLimit::Enough);
        };
        left = less;
        merging.advance()?;
    }
    Ok(RowLimit::More(left))
}

/// Takes off the entries before `range`.
fn skip_before<'a, C: Comparator, S: Cursor<'a, C> + Drop>(
    merging: &mut Merging<C, S>,
    range: Range<'_>,
) -> Result<(), Fault>
    ensures same { OnOk result (entries_in C.cmp (key_range range.entry) (merged C.cmp merging.new)
        ≡ entries_in C.cmp (key_range range.entry) (merged C.cmp merging.old)) }
    ensures begun { OnOk result
        (first_is (is_before C.cmp (key_range range.entry).lower false) (merged C.cmp merging.new)
        ≡ false) }
    ensures memory { IsOkUnless result (fault Memory) }
{
    while starts_before::<C, Merging<C, S>>(merging, range.lower, false) {
        merging.advance()?;
    }
    Ok(())
}
