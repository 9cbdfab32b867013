//! A run that is told in arrays, read back.

ghost use Rattle.std.specs.Prelude.{◌≡◌, ◌≤◌, true, [], ◌∷◌, ◌++◌, length, take, OnOk, IfOk};
ghost use Rattle.std.specs.Prelude.{IsOkUnless, Ok};
ghost use Rattle.ikey.specs.Answers.{EqualOrMemory, fault};
ghost use Rattle.ikey.specs.fault.FaultName.TheVariants.{Memory};
ghost use Rattle.c_api.specs.Runs.{rooms};
ghost use Rattle.c_api.specs.ToldRuns.{are_entries as lie_in, are_marks as lie_between};
ghost use Rattle.c_api.specs.ToldRuns.{begins_entry as begins, after_entry};
ghost use Rattle.c_api.specs.Held.{entries_passed};
ghost use Rattle.c_api.specs.ToldRuns.{entries_told, first_entry, run_told};
ghost use Rattle.c_api.specs.ToldRuns.{value_place as place_told};

use crate::place::{Place, is_within, part_of};
use crate::run_arrays::{EntryLengths, RunMark};
use coding::common_len;
use ikey::{Fault, InternalKey};
use keep::RangeRun;
use std::alloc::Global;

/// Where the value lies, if bytes begin with an entry of these lengths.
fn value_place(lengths: EntryLengths) -> Place
    ensures { result ≡ place_told lengths }
{
    Place {
        from: lengths.key,
        len: lengths.value,
    }
}

/// The key with which bytes begin.
fn key_in(bytes: &[u8], lengths: EntryLengths) -> &[u8]
    requires { lengths.key ≤ length bytes.now }
    ensures { result.now ≡ take lengths.key bytes.now }
{
    let (key, _) = bytes.split_at(lengths.key as usize);
    key
}

/// Whether bytes begin with an entry of these lengths, and its key is an internal key.
fn begins_entry(bytes: &[u8], lengths: EntryLengths) -> bool
    ensures { result ≡ begins bytes.now lengths }
{
    is_within(bytes, value_place(lengths)) && InternalKey::parse(key_in(bytes, lengths)).is_ok()
}

/// The bytes after an entry.
fn after(bytes: &[u8], lengths: EntryLengths) -> &[u8]
    requires { begins bytes.now lengths ≡ true }
    ensures { result.now ≡ after_entry bytes.now lengths }
{
    let (_, value) = bytes.split_at(lengths.key as usize);
    let (_, rest) = value.split_at(lengths.value as usize);
    rest
}

/// Whether entries of these lengths lie in bytes, one after the other.
pub(crate) fn are_entries(bytes: &[u8], lengths: &[EntryLengths]) -> bool
    ensures { result ≡ lie_in bytes.now lengths.now }
{
    let mut rest = bytes;
    for both in lengths {
        if !begins_entry(rest, *both) {
            return false;
        }
        rest = after(rest, *both);
    }
    true
}

/// Whether marks lie between so many entries, in order.
pub(crate) fn are_marks(count: usize, marks: &[RunMark]) -> bool
    ensures { result ≡ lie_between 0 count marks.now }
{
    let mut kept = 0;
    for mark in marks {
        if mark.kept < kept {
            return false;
        }
        kept = mark.kept;
    }
    kept <= count as u64
}

/// Appends the entry with which bytes begin.
fn push_first<'a>(
    run: &mut RangeRun<'a>,
    bytes: &'a [u8],
    lengths: EntryLengths,
) -> Result<(), Fault>
    requires { begins bytes.now lengths ≡ true }
    ensures ok { OnOk result (run.new ≡ record {
      kept = run.old.kept ++ first_entry bytes.now lengths ∷ [];
      marks = run.old.marks;
    }) }
    ensures memory { IsOkUnless result (fault Memory) }
{
    let Ok(key) = InternalKey::parse(key_in(bytes, lengths)) else {
        unreachable!();
    };
    let value = part_of(bytes, value_place(lengths));
    let shared = common_len(run.last_key(), key.bytes());
    run.push(key, value, shared)
}

/// Appends the entries of these lengths that lie in bytes, and answers the bytes after them.
fn push_entries<'a>(
    run: &mut RangeRun<'a>,
    bytes: &'a [u8],
    lengths: &[EntryLengths],
) -> Result<&'a [u8], Fault>
    requires { lie_in bytes.now lengths.now ≡ true }
    ensures ok { OnOk result (run.new ≡ record {
      kept = run.old.kept ++ entries_told bytes.now lengths.now;
      marks = run.old.marks;
    }) }
    ensures rest { IfOk result (λ rest. rest.now ≡ entries_passed bytes.now lengths.now) }
    ensures memory { IsOkUnless result (fault Memory) }
{
    let mut rest = bytes;
    for both in lengths {
        push_first(run, rest, *both)?;
        rest = after(rest, *both);
    }
    Ok(rest)
}

/// The run that arrays tell.
pub(crate) fn told_run<'a>(
    alloc: Global,
    bytes: &'a [u8],
    lengths: &[EntryLengths],
    marks: &[RunMark],
) -> Result<RangeRun<'a>, Fault>
    requires entries { lie_in bytes.now lengths.now ≡ true }
    requires marks { lie_between 0 (length lengths.now) marks.now ≡ true }
    ensures { EqualOrMemory (λ run. run) result
        (Ok (run_told (rooms bytes.now lengths.now marks.now))) }
{
    let mut run = RangeRun::new(alloc);
    let mut rest = bytes;
    let mut left = lengths;
    for mark in marks {
        let count = mark.kept as usize - run.len();
        let (next, later) = left.split_at(count);
        let passed = push_entries(&mut run, rest, next)?;
        rest = passed;
        left = later;
        run.push_mark(mark.below as usize)?;
    }
    push_entries(&mut run, rest, left)?;
    Ok(run)
}
