//! The tests of a request, one by one.

ghost use Rattle.std.specs.Prelude.{◌≡◌, nat_eq, nat_lt, nat_le, ◌||◌};
ghost use Rattle.std.specs.List.{list_all};
ghost use Rattle.pick.specs.PickedInputs.{picked_in};
ghost use Rattle.pick.specs.declared.picked_inputs.InputFile.{InputFile};
ghost use Rattle.compact.specs.Request.{has_levels, has_options, has_snapshots};
ghost use Rattle.compact.specs.Request.{is_snapshot_list, request_in};

use crate::request::Request;
use ikey::{Comparator, MAX_SEQUENCE};
use keep::{Snapshots, is_rising, largest_rise};
use pick::{InputFile, Inputs, LAST_INPUT_LEVEL};

/// The greatest number of inputs.
pub const MAX_INPUTS: usize = 256;

/// The greatest number of listed snapshots.
pub const MAX_SNAPSHOTS: usize = 4_096;

/// Whether the level is from 0 to 5, and each input is of it or of the next.
pub(crate) fn has_levels(picked: &Inputs) -> bool
    ensures { result ≡ has_levels (picked_in picked.now) }
{
    picked.level <= LAST_INPUT_LEVEL && are_of(&picked.files, picked.level, picked.level + 1)
}

/// Whether the options are in their limits, there are at most 256 inputs with a table each, and the
/// largest keys of the grandparents rise strictly.
pub(crate) fn has_options<C: Comparator>(request: &Request<'_>) -> bool
    ensures { result ≡ has_options C.cmp (request_in request.now) }
{
    request.options.are_in_limits()
        && request.picked.files.len() <= MAX_INPUTS
        && request.tables.len() == request.picked.files.len()
        && largest_rise::<C>(&request.picked.grandparents)
}

/// Whether all snapshots and the last sequence are below 2^56 - 1.
pub(crate) fn has_snapshots(request: &Request<'_>) -> bool
    ensures { result ≡ has_snapshots (request_in request.now) }
{
    request.last_sequence < MAX_SEQUENCE
        && match request.snapshots {
            Snapshots::From(oldest) => oldest < MAX_SEQUENCE,
            Snapshots::Listed(list) => are_below(list, MAX_SEQUENCE),
        }
}

/// Whether listed snapshots are at most 4,096, rise strictly, and none is above the last sequence.
pub(crate) fn is_snapshot_list(snapshots: Snapshots<'_>, last_sequence: u64) -> bool
    ensures { result ≡ is_snapshot_list snapshots.entry last_sequence }
{
    match snapshots {
        Snapshots::From(_) => true,
        Snapshots::Listed(list) => {
            list.len() <= MAX_SNAPSHOTS && is_rising(list) && are_at_most(list, last_sequence)
        }
    }
}

/// Whether each input is of `level` or of `next`.
fn are_of(files: &[InputFile], level: u64, next: u64) -> bool
    ensures { result ≡ list_all (λ (i : InputFile). nat_eq i.level level || nat_eq i.level next)
        files.now }
{
    files
        .iter()
        .all(|input| input.level == level || input.level == next)
}

/// Whether all `numbers` are below `limit`.
fn are_below(numbers: &[u64], limit: u64) -> bool
    ensures { result ≡ list_all (λ n. nat_lt n limit) numbers.now }
{
    numbers.iter().all(|number| *number < limit)
}

/// Whether no number is above `limit`.
fn are_at_most(numbers: &[u64], limit: u64) -> bool
    ensures { result ≡ list_all (λ n. nat_le n limit) numbers.now }
{
    numbers.iter().all(|number| *number <= limit)
}
