//! Boundaries between ranges.

ghost use Rattle.std.specs.Prelude.{◌≡◌, true, IfOk};
ghost use Rattle.ikey.specs.Answers.{EqualOrMemory};
ghost use Rattle.c_api.specs.Boundaries.{AreBoundariesWrittenOrMemory, boundaries_in};
ghost use Rattle.c_api.specs.Boundaries.{count_test, key_arrays};
ghost use Rattle.c_api.specs.Held.{keys_in, TellBoundaries, TellChosen};
ghost use Rattle.c_api.specs.InputTables.{AreRead};
ghost use Rattle.c_api.specs.Merges.{are_inputs as are_within};
ghost use Rattle.c_api.specs.Merges.{AreChecked};
ghost use Rattle.c_api.specs.Orders.{by_order};

use crate::code::{MISUSE, code_of};
use crate::input_tables::input_tables;
use crate::key_arrays::{KeyArrays, KeysSize};
use crate::lent::{Lent, are_inputs};
use crate::order::{BYTEWISE, SHORTLEX};
use ikey::{Bytewise, Comparator, Fault, FaultName, Shortlex};
use split::Split;
use std::alloc::Global;

/// User keys that part the inputs into at most `want` ranges of about equal size, each key after
/// the one before it. They rise. `lengths` says how long each is. `size` is how much room they
/// take, also if a room is too small.
///
/// Each input has to be as [`crate::proved_check_table`] left it.
#[unsafe(no_mangle)]
pub extern "C" fn proved_boundaries(
    alloc: Global,
    lent: &Lent<'_, '_>,
    want: u64,
    bytes: &mut [u8],
    lengths: &mut [u64],
    size: &mut KeysSize,
) -> u32
    requires checked { AreChecked lent.now.request.order lent.now.keys.now lent.now.tables.now
        lent.now.inputs.now }
    ensures answer { AreBoundariesWrittenOrMemory (boundaries_in lent.now want) result
        (key_arrays bytes.old lengths.old) (key_arrays bytes.new lengths.new) size.old size.new }
{
    if !are_inputs(lent.keys, lent.tables, lent.inputs) {
        return MISUSE;
    }
    match boundaries_by(alloc, lent, want) {
        Ok(boundaries) => boundaries.put(bytes, lengths, size),
        Err(fault) => code_of(fault),
    }
}

/// The boundaries, in the order of its number.
fn boundaries_by(alloc: Global, lent: &Lent<'_, '_>, want: u64) -> Result<KeyArrays, Fault>
    requires lent { are_within lent.now.keys.now lent.now.tables.now lent.now.inputs.now ≡ true }
    requires checked { AreChecked lent.now.request.order lent.now.keys.now lent.now.tables.now
        lent.now.inputs.now }
    ensures tested { EqualOrMemory (λ a. tt) result
        (by_order lent.now.request.order (count_test (boundaries_in lent.now want))) }
    ensures ok { IfOk result (λ a. TellBoundaries (boundaries_in lent.now want) (keys_in a)) }
{
    match lent.request.order {
        BYTEWISE => boundaries::<Bytewise>(alloc, lent, want),
        SHORTLEX => boundaries::<Shortlex>(alloc, lent, want),
        _ => Err(Fault::of(FaultName::Comparator)),
    }
}

/// The boundaries, chosen of the indexes of the tables.
fn boundaries<C: Comparator>(
    alloc: Global,
    lent: &Lent<'_, '_>,
    want: u64,
) -> Result<KeyArrays, Fault>
    requires lent { are_within lent.now.keys.now lent.now.tables.now lent.now.inputs.now ≡ true }
    requires read { AreRead C.cmp lent.now.keys.now lent.now.tables.now lent.now.inputs.now }
    ensures tested { EqualOrMemory (λ a. tt) result
        (count_test (boundaries_in lent.now want) C.cmp) }
    ensures ok { IfOk result
        (λ a. TellChosen C.cmp (boundaries_in lent.now want) (keys_in a)) }
{
    let tables = input_tables::<C>(alloc, lent.keys, lent.tables, lent.inputs)?;
    match Split::<C>::sample(alloc, &tables, want) {
        Ok(split) => KeyArrays::of::<C>(alloc, &split),
        Err(fault) => Err(fault),
    }
}
