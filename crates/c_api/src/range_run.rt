//! The run of a range of user keys, over inputs that were checked.

ghost use Rattle.std.specs.Prelude.{◌≡◌, true, map, Ok};
ghost use Rattle.std.specs.List.Sorted.{IsStrictlyIncreasing};
ghost use Rattle.ikey.specs.Answers.{EqualOrMemory};
ghost use Rattle.keep.specs.Marks.{LargestRise};
ghost use Rattle.keep.specs.Readable.{listed_of};
ghost use Rattle.keep.specs.Runs.{range_run};
ghost use Rattle.c_api.specs.InputTables.{AreRead, entries_at};
ghost use Rattle.c_api.specs.Merges.{AreChecked, asked_in, context_at, is_lent};
ghost use Rattle.c_api.specs.Held.{context_with};
ghost use Rattle.c_api.specs.Merges.{merge_reading, request_result, run_reading};
ghost use Rattle.c_api.specs.Orders.{by_order};
ghost use Rattle.c_api.specs.Ranges.{range_in};
ghost use Rattle.c_api.specs.Requests.{files_of as all_files};

use crate::file::File;
use crate::input_tables::cursors_over;
use crate::lent::{Lent, LentFiles};
use crate::order::{BYTEWISE, SHORTLEX};
use crate::picked::{files_of, near_files, picked_with};
use crate::request_calls::tested;
use crate::user_range::range_of;
use compact::passed_law;
use ikey::{Bytewise, Comparator, Fault, FaultName, KeyBuf, Kind, Shortlex};
use keep::{RangeRun, merge_range};
use pick::Inputs;
use std::alloc::Global;

/// The run of a range, in the request's order.
pub(crate) fn run_by<'t>(alloc: Global, lent: &Lent<'_, 't>) -> Result<RangeRun<'t>, Fault>
    requires lent { is_lent (asked_in lent.now) ≡ true }
    requires checked { AreChecked lent.now.request.order lent.now.keys.now lent.now.tables.now
        lent.now.inputs.now }
    ensures { EqualOrMemory (λ run. run) result
        (by_order lent.now.request.order (merge_reading (asked_in lent.now))) }
{
    match lent.request.order {
        BYTEWISE => tested_run::<Bytewise>(alloc, lent),
        SHORTLEX => tested_run::<Shortlex>(alloc, lent),
        _ => Err(Fault::of(FaultName::Comparator)),
    }
}

/// The run of a range, or the first refusal of the request.
fn tested_run<'t, C: Comparator + 't>(
    alloc: Global,
    lent: &Lent<'_, 't>,
) -> Result<RangeRun<'t>, Fault>
    requires lent { is_lent (asked_in lent.now) ≡ true }
    requires read { AreRead C.cmp lent.now.keys.now lent.now.tables.now lent.now.inputs.now }
    ensures { EqualOrMemory (λ run. run) result (merge_reading (asked_in lent.now) C.cmp) }
{
    let files = files_of(alloc, lent.inputs)?;
    let asked = LentFiles {
        lent: &*lent,
        files: &files,
    };
    let near = near_files::<C>(alloc, &asked)?;
    let few = Lent {
        deeper: &near,
        ..*lent
    };
    few_run::<C>(alloc, &few, &files)
}

/// The same, if the files of the inputs are known, and all deeper files that are lent matter.
fn few_run<'t, C: Comparator + 't>(
    alloc: Global,
    lent: &Lent<'_, 't>,
    files: &[File],
) -> Result<RangeRun<'t>, Fault>
    requires lent { is_lent (asked_in lent.now) ≡ true }
    requires files { files.now ≡ all_files lent.now.inputs.now }
    requires read { AreRead C.cmp lent.now.keys.now lent.now.tables.now lent.now.inputs.now }
    ensures { EqualOrMemory (λ run. run) result (merge_reading (asked_in lent.now) C.cmp) }
{
    test::<C>(alloc, lent, files)?;
    passed_run::<C>(alloc, lent, files)
}

/// The tests of the request without its tables.
fn test<C: Comparator>(alloc: Global, lent: &Lent<'_, '_>, files: &[File]) -> Result<(), Fault>
    requires lent { is_lent (asked_in lent.now) ≡ true }
    requires files { files.now ≡ all_files lent.now.inputs.now }
    ensures { EqualOrMemory (λ none. none) result (request_result (asked_in lent.now) C.cmp) }
{
    let asked = LentFiles { lent, files };
    tested::<C>(alloc, &asked)
}

/// The run of a range, if the request passed its tests.
fn passed_run<'t, C: Comparator + 't>(
    alloc: Global,
    lent: &Lent<'_, 't>,
    files: &[File],
) -> Result<RangeRun<'t>, Fault>
    requires lent { is_lent (asked_in lent.now) ≡ true }
    requires files { files.now ≡ all_files lent.now.inputs.now }
    requires read { AreRead C.cmp lent.now.keys.now lent.now.tables.now lent.now.inputs.now }
    requires passed { request_result (asked_in lent.now) C.cmp ≡ Ok tt }
    ensures { EqualOrMemory (λ run. run) result (run_reading (asked_in lent.now) C.cmp) }
{
    passed_law::<C>();
    let picked = inputs_of::<C>(alloc, lent, files)?;
    run_of::<C>(alloc, lent, &picked)
}

/// What is known of the deeper files. No merge asks for its compact pointer, so that is any key.
fn inputs_of<C: Comparator>(
    alloc: Global,
    lent: &Lent<'_, '_>,
    files: &[File],
) -> Result<Inputs, Fault>
    requires lent { is_lent (asked_in lent.now) ≡ true }
    requires files { files.now ≡ all_files lent.now.inputs.now }
    ensures { EqualOrMemory (context_with (asked_in lent.now)) result
        (Ok (context_at C.cmp (asked_in lent.now))) }
{
    let any = KeyBuf::new(alloc, &[], 0, Kind::Put)?;
    let asked = LentFiles { lent, files };
    picked_with::<C>(alloc, &asked, any)
}

/// The run of a range. `picked` says which files are deeper.
fn run_of<'t, C: Comparator + 't>(
    alloc: Global,
    lent: &Lent<'_, 't>,
    picked: &Inputs,
) -> Result<RangeRun<'t>, Fault>
    requires lent { is_lent (asked_in lent.now) ≡ true }
    requires read { AreRead C.cmp lent.now.keys.now lent.now.tables.now lent.now.inputs.now }
    requires listed { IsStrictlyIncreasing (listed_of (asked_in lent.now).snapshots) }
    requires grandparents { LargestRise C.cmp picked.now.grandparents.items }
    ensures { EqualOrMemory (λ run. run) result
        (range_run C.cmp (context_with (asked_in lent.now) picked.now)
        (map (entries_at C.cmp lent.now.keys.now lent.now.tables.now) lent.now.inputs.now)
        (range_in lent.now.keys.now lent.now.range)) }
{
    let range = range_of(lent.keys, &lent.range);
    let snapshots = lent.request.snapshots(lent.snapshots);
    let listed = snapshots.listed();
    let floor = snapshots.floor(lent.request.last_sequence);
    let mut cursors = cursors_over::<C>(alloc, lent.keys, lent.tables, lent.inputs, range)?;
    merge_range::<C, _>(alloc, &mut cursors, range, listed, floor, picked)
}
