//! Merging in a range of user keys.

ghost use Rattle.std.specs.Prelude.{◌≡◌, false, map, OnOk, OnErr, IsOkUnless};
ghost use Rattle.std.specs.List.{AllByRecursion};
ghost use Rattle.std.specs.List.Sorted.{IsStrictlyIncreasing};
ghost use Rattle.std.specs.Option.{option_map};
ghost use Rattle.coding.specs.Answers.{EqualOrMemory, fault};
ghost use Rattle.coding.specs.declared.fault.FaultName.TheVariants.{Memory};
ghost use Rattle.merge.specs.MergedLists.{merged};
ghost use Rattle.split.specs.Ranges.{key_range};
ghost use Rattle.merge.specs.CursorsLeft.{is_before, is_passed, each_past_range, EachLosesFirst};
ghost use Rattle.keep.specs.Marks.{context_of, LargestRise};
ghost use Rattle.keep.specs.Runs.{range_run};
ghost use Rattle.merge.specs.FirstEntry.{first_is};

use crate::range_run::RangeRun;
use crate::rule::Rule;
use crate::walk::Walk;
use coding::Fault;
use ikey::Comparator;
use merge::{Merging, starts_before};
use pick::Inputs;
use reads::Cursor;
use split::Range;
use std::alloc::Global;

/// The kept entries and the marks of `range`, of all entries that `cursors` have still to come.
///
/// Entries come in the order of their internal keys. An entry is dropped if (1) or (2) holds, and
/// else kept:
///
/// (1) The previous entry has its user key and a sequence at or below `floor`. No listed sequence
///     is below the previous entry's and at or above its own.
/// (2) It is a deletion, at or below `floor` and each listed sequence. No deeper file's range holds
///     its user key.
///
/// "Previous" means previous in the merge, kept or not. `listed` and `floor` say which sequences
/// stay readable: each listed one, and all from `floor` on. The marks count the grandparents of
/// `inputs`.
///
/// Faults: Duplicate if the range holds one user key and sequence twice, else only Memory.
///
/// The cursors are lent. Entries before the range are taken off one by one, so seek a cursor first
/// that has many of them. After an Ok each cursor has the entries after the range. After a refusal
/// each has lost some of its first entries at most, and none after the range.
pub fn merge_range<'a, C: Comparator, S: Cursor<'a, C> + Drop>(
    alloc: Global,
    cursors: &mut Vec<S>,
    range: Range<'_>,
    listed: &[u64],
    floor: u64,
    inputs: &Inputs,
) -> Result<RangeRun<'a>, Fault>
    requires listed { IsStrictlyIncreasing listed.now }
    requires grandparents { LargestRise C.cmp inputs.now.grandparents.items }
    ensures run { EqualOrMemory (λ run. run) result
        (range_run C.cmp (context_of listed.now floor inputs.now)
        (map S.remaining cursors.old.items) (key_range range.entry)) }
    ensures behind { OnOk result
        (map S.remaining cursors.new.items
        ≡ each_past_range C.cmp (key_range range.entry) (map S.remaining cursors.old.items)) }
    ensures left { OnErr result (EachLosesFirst (is_passed C.cmp (key_range range.entry))
        (map S.remaining cursors.old.items) (map S.remaining cursors.new.items)) }
{
    let rule = Rule {
        listed,
        floor,
        inputs,
    };
    let mut merging = Merging::<C, S>::take(alloc, cursors)?;
    let run = merge_lent::<C, S>(alloc, &mut merging, range, &rule);
    *cursors = merging.into_cursors();
    run
}

/// The run of a range, merged from `merging`. Faults and what is left as of [`merge_range`].
fn merge_lent<'a, C: Comparator, S: Cursor<'a, C> + Drop>(
    alloc: Global,
    merging: &mut Merging<C, S>,
    range: Range<'_>,
    rule: &Rule<'_>,
) -> Result<RangeRun<'a>, Fault>
    requires { LargestRise C.cmp rule.now.grandparents }
    ensures run { EqualOrMemory (λ run. run) result
        (range_run C.cmp rule.now merging.old (key_range range.entry)) }
    ensures behind { OnOk result (merging.new
        ≡ each_past_range C.cmp (key_range range.entry) merging.old) }
    ensures left { OnErr result
        (EachLosesFirst (is_passed C.cmp (key_range range.entry)) merging.old merging.new) }
{
    begin::<C, S>(merging, range.lower)?;
    walk_range::<C, S>(alloc, merging, range, rule)
}

/// Takes off the entries before the range. The only fault is Memory: some of them may be lost then,
/// and no others.
fn begin<'a, C: Comparator, S: Cursor<'a, C> + Drop>(
    merging: &mut Merging<C, S>,
    lower: Option<&[u8]>,
) -> Result<(), Fault>
    ensures left { EachLosesFirst
        (is_before C.cmp (option_map (λ limit. limit.now) lower.entry) false)
        merging.old merging.new }
    ensures begun { OnOk result
        (first_is (is_before C.cmp (option_map (λ limit. limit.now) lower.entry) false)
        (merged C.cmp merging.new) ≡ false) }
    ensures memory { IsOkUnless result (fault Memory) }
{
    while starts_before::<C, Merging<C, S>>(merging, lower, false) {
        merging.advance()?;
    }
    Ok(())
}

/// The run of a range, from a merge that has no entry before it. Faults and what is left as of
/// [`merge_range`].
fn walk_range<'a, C: Comparator, S: Cursor<'a, C> + Drop>(
    alloc: Global,
    merging: &mut Merging<C, S>,
    range: Range<'_>,
    rule: &Rule<'_>,
) -> Result<RangeRun<'a>, Fault>
    requires begun { first_is (is_before C.cmp (key_range range).lower false)
        (merged C.cmp merging.old) ≡ false }
    requires grandparents { LargestRise C.cmp rule.now.grandparents }
    ensures run { EqualOrMemory (λ run. run) result
        (range_run C.cmp rule.now merging.old (key_range range.entry)) }
    ensures left { EachLosesFirst (is_passed C.cmp (key_range range.entry))
        merging.old merging.new }
    ensures behind { OnOk result
        (AllByRecursion (λ e. is_passed C.cmp (key_range range.entry) e ≡ false)
        (merged C.cmp merging.new)) }
{
    let mut walk = Walk::new(alloc);
    while starts_before::<C, Merging<C, S>>(merging, range.upper, true) {
        walk.step::<C>(rule, merging.key(), merging.value())?;
        merging.advance()?;
    }
    Ok(walk.run)
}
