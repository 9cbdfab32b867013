//! Overlap stops: where outputs end since they would overlap too much of the grandparents.
//!
//! Grandparents are the files two levels below the compaction. Why a stop: a later compaction of an
//! output would have to merge the grandparents that it overlaps.
//!
//!               counted from here                   stop
//!                    |                                |
//!     entries     ---a-----b---------c----------------d-----------
//!     passed          [ 1 ]  [  2  ]       [   3    ]    [ 4 ]
//!                     sizes of 1, 2 and 3 > 10 * file_size
//!
//! There is a stop before an entry of the union if both hold:
//!
//! (1) It is the first of its user key. So all entries of a user key go to one output.
//! (2) More than 10 times the maximal file size of grandparents is passed before it.
//!
//! What is passed counts from the last stop, or from the first entry of all if there was none yet.
//! A grandparent is passed when its largest key is below the entry's. Dropped entries count as kept
//! ones do: the marks of the runs say how many grandparents are below each. Only a stop begins the
//! count anew; the end of an output by its size does not.

ghost use Rattle.std.specs.Prelude.{◌≡◌, ◌+◌, ◌*◌, ◌^◌, ◌≤◌, max, List, ◌∷◌, ◌++◌, map, OnOk};
ghost use Rattle.std.specs.Prelude.{IsOkUnless, Ok};
ghost use Rattle.std.specs.List.{sum_by};
ghost use Rattle.std.specs.Option.{option_map};
ghost use Rattle.coding.specs.Answers.{EqualOrMemory, fault};
ghost use Rattle.coding.specs.declared.fault.FaultName.TheVariants.{Memory};
ghost use Rattle.keep.specs.meta.FileMeta.{FileMeta};
ghost use Rattle.table.specs.declared.table_check.TheConstants.{MAX_TABLE_LEN};
ghost use Rattle.keep.specs.declared.mark.Mark.{Mark};
ghost use Rattle.keep.specs.Runs.{joined_marks, moved_mark};
ghost use Rattle.cut.specs.Stops.{size_between, stops};
ghost use Rattle.cut.specs.OverlapStops.{all_stops, room_left, AreCounted};

use coding::Fault;
use keep::{FileMeta, Mark, RangeRun};
use std::alloc::Global;

/// There is a stop if more than this many times the maximal file size of grandparents is passed.
pub const MAX_OVERLAP: u64 = 10;

/// What is passed of the grandparents since a stop, or since the first mark.
#[derive(Clone, Copy)]
pub(crate) struct Overlap {
    /// The number of grandparents below the stop.
    pub since: usize,
    /// The number below the furthest mark after it. Those between the two are counted.
    pub counted: usize,
    /// How many bytes more may be passed without a stop.
    pub room: u64,
}

/// The stops found at the marks so far.
#[derive(Drop)]
pub(crate) struct Stopping {
    /// What is passed since the last stop, or since the first mark if there is no stop yet; None
    /// before the first mark.
    pub overlap: Option<Overlap>,
    /// The number of kept entries before each stop.
    pub places: Vec<u128>,
}

/// What is left of `room` after the sizes of `files`; None if they exceed it.
fn room_after(files: &[FileMeta], room: u64) -> Option<u64>
    ensures { result ≡ room_left room (sum_by (λ (f : FileMeta). f.size) files.now) }
{
    let mut left = room;
    for file in files {
        if file.size > left {
            return None;
        }
        left -= file.size;
    }
    Some(left)
}

/// What is left of `room` after the sizes of the grandparents at places `from` to before `to`; None
/// if they exceed it.
fn room_past(grandparents: &[FileMeta], from: usize, to: usize, room: u64) -> Option<u64>
    ensures { result ≡ room_left room (size_between grandparents.now from to) }
{
    let end = to.min(grandparents.len());
    let start = from.min(end);
    room_after(&grandparents[start..end], room)
}

impl Overlap {
    /// Nothing is passed yet since a stop with `below` grandparents below it. `limit` bytes may be
    /// passed.
    fn new(below: usize, limit: u64) -> Overlap
        ensures { result ≡ record { since = below; counted = below; room = limit } }
    {
        Overlap {
            since: below,
            counted: below,
            room: limit,
        }
    }

    /// What is passed at a mark with `below` grandparents below it; None if there is a stop.
    fn at(self, grandparents: &[FileMeta], below: usize) -> Option<Overlap>
        ensures { result
            ≡ option_map
            (λ room. record {
              since = self.since;
              counted = max self.counted below;
              room =
                  room;
            })
            (room_left self.room (size_between grandparents.now self.counted below)) }
    {
        let room = room_past(grandparents, self.counted, below, self.room)?;
        Some(Overlap {
            since: self.since,
            counted: self.counted.max(below),
            room,
        })
    }
}

impl Stopping {
    /// Passes the next mark, which is one of a run that has `passed` kept entries before it.
    fn pass(
        &mut self,
        mark: Mark,
        passed: u128,
        grandparents: &[FileMeta],
        file_size: u64,
    ) -> Result<(), Fault>
        requires fits { passed + 2 ^ 64 ≤ 2 ^ 128 }
        requires limited { file_size ≤ MAX_TABLE_LEN }
        requires counted { AreCounted grandparents.now file_size self.old }
        ensures ok { OnOk result ((rest : List Mark) →
            all_stops grandparents.now file_size self.new rest
            ≡ all_stops grandparents.now file_size self.old (moved_mark passed mark ∷ rest)) }
        ensures counted { OnOk result (AreCounted grandparents.now file_size self.new) }
        ensures memory { IsOkUnless result (fault Memory) }
    {
        let limit = MAX_OVERLAP * file_size;
        let Some(overlap) = self.overlap else {
            self.overlap = Some(Overlap::new(mark.below, limit));
            return Ok(());
        };
        let Some(further) = overlap.at(grandparents, mark.below) else {
            self.places.push(passed + mark.kept as u128)?;
            self.overlap = Some(Overlap::new(mark.below, limit));
            return Ok(());
        };
        self.overlap = Some(further);
        Ok(())
    }

    /// Passes the marks of the next run, which has `passed` kept entries before it.
    fn pass_all(
        &mut self,
        marks: &[Mark],
        passed: u128,
        grandparents: &[FileMeta],
        file_size: u64,
    ) -> Result<(), Fault>
        requires fits { passed + 2 ^ 64 ≤ 2 ^ 128 }
        requires limited { file_size ≤ MAX_TABLE_LEN }
        requires counted { AreCounted grandparents.now file_size self.old }
        ensures ok { OnOk result ((rest : List Mark) →
            all_stops grandparents.now file_size self.new rest
            ≡ all_stops grandparents.now file_size self.old (map (moved_mark passed) marks.now
            ++ rest)) }
        ensures counted { OnOk result (AreCounted grandparents.now file_size self.new) }
        ensures memory { IsOkUnless result (fault Memory) }
    {
        for mark in marks {
            self.pass(*mark, passed, grandparents, file_size)?;
        }
        Ok(())
    }
}

/// The stops of `runs`, one run after the other: each is the number of kept entries before it.
pub(crate) fn stops(
    alloc: Global,
    runs: &[RangeRun<'_>],
    grandparents: &[FileMeta],
    file_size: u64,
) -> Result<Vec<u128>, Fault>
    requires { file_size ≤ MAX_TABLE_LEN }
    ensures { EqualOrMemory (λ places. places.items) result
        (Ok (stops grandparents.now file_size (joined_marks 0 runs.now))) }
{
    let mut found = Stopping {
        overlap: None,
        places: Vec::new(alloc),
    };
    let mut passed: u128 = 0;
    for run in runs {
        found.pass_all(run.marks(), passed, grandparents, file_size)?;
        passed += run.len() as u128;
    }
    Ok(found.places)
}
