//! The run of a range, in arrays.

ghost use Rattle.std.specs.Prelude.{◌≡◌, ◌&&◌, length, map, nat_le, Ok};
ghost use Rattle.ikey.specs.Answers.{EqualOrMemory};
ghost use Rattle.c_api.specs.Runs.{IsRunWrittenOrMemory, mark_of, rooms};

use crate::code::{DONE, MEMORY, ROOM};
use crate::room::fill;
use crate::run_entries::{bytes_len, put_bytes, put_lengths};
use ikey::Fault;
use keep::{Mark, RangeRun};
use std::alloc::Global;

/// How long the key and the value of a kept entry are.
#[repr(C)]
#[derive(Clone, Copy, Drop)]
pub struct EntryLengths {
    /// The bytes of its internal key.
    pub key: u64,
    /// The bytes of its value, which come after the key.
    pub value: u64,
}

/// A mark: how many grandparents lie below a user key.
#[repr(C)]
#[derive(Clone, Copy, Drop)]
pub struct RunMark {
    /// The number of grandparents below.
    pub below: u64,
    /// The number of kept entries before it in its range.
    pub kept: u64,
}

/// How much room a run takes.
#[repr(C)]
#[derive(Clone, Copy, Drop)]
pub struct RunSize {
    /// The bytes of all keys and values.
    pub bytes: u64,
    /// The number of kept entries.
    pub entries: u64,
    /// The number of marks.
    pub marks: u64,
}

/// Puts the arrays of a run at the beginning of the rooms, if all are large enough. `size` is how
/// much they take. Each byte is copied once, from where the run has it.
pub(crate) fn put_run(
    alloc: Global,
    run: &RangeRun<'_>,
    bytes: &mut [u8],
    lengths: &mut [EntryLengths],
    marks: &mut [RunMark],
    size: &mut RunSize,
) -> u32
    ensures { IsRunWrittenOrMemory result (rooms bytes.old lengths.old marks.old)
        (rooms bytes.new lengths.new marks.new) size.old size.new (Ok run.now) }
{
    let Ok(told) = marks_of(alloc, run.marks()) else {
        return MEMORY;
    };
    let Some(len) = bytes_len(run) else {
        return MEMORY;
    };
    *size = RunSize {
        bytes: len,
        entries: run.len() as u64,
        marks: told.len() as u64,
    };
    if !have_room(bytes, lengths, marks, *size) {
        return ROOM;
    }
    put_bytes(run, bytes);
    put_lengths(run, lengths);
    fill(&told, marks);
    DONE
}

/// Whether rooms are large enough for so much.
fn have_room(bytes: &[u8], lengths: &[EntryLengths], marks: &[RunMark], size: RunSize) -> bool
    ensures { result ≡ (nat_le size.bytes (length bytes.now)
        && nat_le size.entries (length lengths.now) && nat_le size.marks (length marks.now)) }
{
    size.bytes <= bytes.len() as u64
        && size.entries <= lengths.len() as u64
        && size.marks <= marks.len() as u64
}

/// The marks of a run.
fn marks_of(alloc: Global, marks: &[Mark]) -> Result<Vec<RunMark>, Fault>
    ensures { EqualOrMemory (λ all. all.items) result (Ok (map mark_of marks.now)) }
{
    let mut all = Vec::with_capacity(alloc, marks.len())?;
    for mark in marks {
        all.push(RunMark {
            below: mark.below as u64,
            kept: mark.kept as u64,
        })?;
    }
    Ok(all)
}
