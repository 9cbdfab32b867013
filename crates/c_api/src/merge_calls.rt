//! The merge of a range of user keys.

ghost use Rattle.std.specs.Prelude.{◌≡◌};
ghost use Rattle.c_api.specs.Merges.{AreChecked, asked_in, merge_answer};
ghost use Rattle.c_api.specs.Runs.{IsRunWrittenOrMemory, rooms};

use crate::code::{MISUSE, code_of};
use crate::lent::Lent;
use crate::range_run::run_by;
use crate::run_arrays::{EntryLengths, RunMark, RunSize, put_run};
use std::alloc::Global;

/// Merges the inputs in a range of user keys. The kept entries lie one after the other in `bytes`,
/// each as its key and then its value; `lengths` says how long both are. `marks` counts the
/// grandparents. `size` is how much room these take, also if a room is too small.
///
/// Each input has to be as [`crate::proved_check_table`] left it.
#[unsafe(no_mangle)]
pub extern "C" fn proved_merge(
    alloc: Global,
    lent: &Lent<'_, '_>,
    bytes: &mut [u8],
    lengths: &mut [EntryLengths],
    marks: &mut [RunMark],
    size: &mut RunSize,
) -> u32
    requires checked { AreChecked lent.now.request.order lent.now.keys.now lent.now.tables.now
        lent.now.inputs.now }
    ensures answer { IsRunWrittenOrMemory result (rooms bytes.old lengths.old marks.old)
        (rooms bytes.new lengths.new marks.new) size.old size.new
        (merge_answer (asked_in lent.now)) }
{
    if !lent.is_lent() {
        return MISUSE;
    }
    match run_by(alloc, lent) {
        Ok(run) => put_run(alloc, &run, bytes, lengths, marks, size),
        Err(fault) => code_of(fault),
    }
}
