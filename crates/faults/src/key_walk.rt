//! The user keys of files whose entries are not in their order.

ghost use Rattle.std.specs.Prelude.{◌≡◌, ◌++◌, [], true, false, map, IfOk, IfErr, OnOk, IsOkUnless};
ghost use Rattle.std.specs.List.{AllByRecursion};
ghost use Rattle.std.specs.Option.{option_map, option_map_or};
ghost use Rattle.std.specs.Ordering.{is_lt};
ghost use Rattle.table.specs.Answers.{fault};
ghost use Rattle.table.specs.fault.FaultName.TheVariants.{Memory};
ghost use Rattle.table.specs.EntriesFrom.{NeverFalls};
ghost use Rattle.reads.specs.Ranges.{IsIn, key_range};
ghost use Rattle.merge.specs.MergedLists.{entries_of_lists};
ghost use Rattle.faults.specs.KeyFaults.{first_break, searched_of};
ghost use Rattle.faults.specs.KeyWalk.{AreAllFrom, AreMisplacedIn, IsNextUser, after_user};
ghost use Rattle.faults.specs.KeyWalk.{break_of, found_keys, misplaced_in, with_user};

use crate::entry_order::EntryOrder;
use crate::file_cursor::FileCursor;
use merge::least_place;
use reads::Range;
use std::alloc::Global;
use table::{Comparator, Cursor, Fault};

/// A user key whose entries are not in their order, and the numbers of two files that hold it.
#[derive(Drop)]
pub(crate) struct KeyFault {
    /// The user key.
    pub user: Vec<u8>,
    /// The file that is searched first.
    pub file: u64,
    /// The file that has an entry which isn't older. It may be the same file.
    pub other: u64,
}

/// The user keys of `range` whose entries in these files are not in their order, in the order of
/// the keys. The files are given in the order of search.
///
/// It takes the memory of these keys and of one more.
pub(crate) fn key_faults<'c, C: Comparator>(
    alloc: Global,
    files: Vec<FileCursor<'c, C>>,
    range: Range<'_>,
) -> Result<Vec<KeyFault>, Fault>
    ensures faults { IfOk result (λ v. AreMisplacedIn C.cmp (IsIn C.cmp (key_range range.entry))
        (searched_of files.entry.items) (map misplaced_in v.items)) }
    ensures memory { IfErr result (λ e. e ≡ fault Memory) }
{
    let mut files = files;
    let mut faults = Vec::new(alloc);
    let mut user = Vec::new(alloc);
    let mut is_there = next_user::<C, FileCursor<'c, C>>(&files, range.upper, &mut user)?;
    while is_there {
        let order = take_user::<C>(&mut files, &user)?;
        push_fault::<C>(alloc, &mut faults, &user, range.lower, order)?;
        is_there = next_user::<C, FileCursor<'c, C>>(&files, range.upper, &mut user)?;
    }
    Ok(faults)
}

/// Makes `user` the least user key that the files have still, if it is before `upper`. Whether
/// there is such a key.
fn next_user<'c, C: Comparator, S: Cursor<'c, C>>(
    files: &[S],
    upper: Option<&[u8]>,
    user: &mut Vec<u8>,
) -> Result<bool, Fault>
    ensures some { IfOk result (λ more. more ≡ true → IsNextUser C.cmp
        (option_map (λ limit. limit.now) upper.entry)
        (entries_of_lists (map S.remaining files.now)) user.new.items) }
    ensures none { IfOk result (λ more. more ≡ false → AreAllFrom C.cmp
        (option_map (λ limit. limit.now) upper.entry)
        (entries_of_lists (map S.remaining files.now))) }
    ensures ordered { IfOk result
        (λ _. AllByRecursion (NeverFalls C.cmp) (map S.remaining files.now)) }
    ensures memory { IfErr result (λ e. e ≡ fault Memory) }
{
    let Some(place) = least_place::<C, S>(files) else {
        return Ok(false);
    };
    let next = files[place].key().user();
    let is_within = is_before::<C>(next, upper, true);
    if is_within {
        user.clear();
        user.extend_from_slice(next)?;
    }
    Ok(is_within)
}

/// Takes off all entries of a user key that is the least of all files. What is known of their order
/// is the answer.
fn take_user<C: Comparator>(
    files: &mut [FileCursor<'_, C>],
    user: &[u8],
) -> Result<EntryOrder, Fault>
    ensures order { IfOk result (λ order. break_of order []
        ≡ first_break (searched_of (map (with_user user.now) files.old))) }
    ensures rest { OnOk result (files.new ≡ map (after_user user.now) files.old) }
    ensures memory { IfErr result (λ e. e ≡ fault Memory) }
{
    let mut order = EntryOrder::Begun;
    for file in files.iter_mut() {
        order = file.take_user(user, order)?;
    }
    Ok(order)
}

/// Appends a user key, if its entries are not in their order and it isn't before `lower`.
fn push_fault<C: Comparator>(
    alloc: Global,
    faults: &mut Vec<KeyFault>,
    user: &[u8],
    lower: Option<&[u8]>,
    order: EntryOrder,
) -> Result<(), Fault>
    ensures ok { OnOk result (map misplaced_in faults.new.items
        ≡ map misplaced_in faults.old.items ++ found_keys C.cmp
        (option_map (λ limit. limit.now) lower.entry) user.now (break_of order [])) }
    ensures memory { IsOkUnless result (fault Memory) }
{
    let EntryOrder::Broken { file, other } = order else {
        return Ok(());
    };
    if is_before::<C>(user, lower, false) {
        return Ok(());
    }
    let user = Vec::from_slice(alloc, user)?;
    faults.push(KeyFault { user, file, other })?;
    Ok(())
}

/// Whether a user key is before `bound`; `otherwise` if there is no bound.
fn is_before<C: Comparator>(user: &[u8], bound: Option<&[u8]>, otherwise: bool) -> bool
    ensures { result ≡ option_map_or (λ limit. is_lt (C.cmp user.now limit))
        (option_map (λ limit. limit.now) bound.entry) otherwise }
{
    match bound {
        Some(limit) => C::compare(user, limit).is_lt(),
        None => otherwise,
    }
}
