//! A place among the kept entries of runs.

ghost use Rattle.std.specs.Prelude.{◌≡◌, ◌<◌, ◌≤◌, ◌↔◌, length, take, drop, flat_map, slice_get};
ghost use Rattle.std.specs.Prelude.{IsTrue, Some};
ghost use Rattle.std.specs.Option.{option_map};
ghost use Rattle.cut.specs.RunPlace.{kept_of_runs, IsPlaceInRuns};

use ikey::InternalKey;
use keep::{ChunkSlice, RangeRun};
use std::marker::Model;

/// A place among the kept entries of runs, one run after the other: the entries from there on.
#[derive(Drop)]
pub struct EntryCursor<'r, 'a> {
    /// The run of the next entry, and those after it.
    runs: &'r [RangeRun<'a>],
    /// The number of entries of that run before the place.
    entry: usize,
}

impl<'r, 'a> Model for EntryCursor<'r, 'a> {
    ghost use Rattle.std.specs.Prelude.{List, drop};
    ghost use Rattle.block.specs.EncodedEntry.{Entry};

    ghost Value = { List Entry };

    ghost use Rattle.cut.specs.RunPlace.{kept_of_runs, IsPlaceInRuns};

    ghost view = { λ c. drop c.entry (kept_of_runs c.runs.now) };

    ghost invariant = { λ c. IsPlaceInRuns c.runs.now c.entry };
}

impl<'r, 'a> EntryCursor<'r, 'a> {
    /// All kept entries of the runs.
    pub fn new(runs: &'r [RangeRun<'a>]) -> EntryCursor<'r, 'a>
        ensures { result ≡ flat_map (λ r. r.kept) runs.now }
    {
        EntryCursor {
            runs: from_entry(runs),
            entry: 0,
        }
    }

    /// The same place.
    pub fn copy(&self) -> EntryCursor<'r, 'a>
        ensures { result ≡ self.now }
    {
        EntryCursor {
            runs: self.runs,
            entry: self.entry,
        }
    }

    /// Whether an entry is still to come.
    pub fn valid(&self) -> bool
        ensures { IsTrue result ↔ (0 < length self.now) }
    {
        !self.runs.is_empty()
    }

    /// The internal key of the next entry, which stays in its run.
    pub fn key(&self) -> InternalKey<'r>
        requires { 0 < length self.now }
        ensures { option_map (λ e. e.key) (slice_get self.now 0) ≡ Some result.bytes.now }
    {
        self.runs[0].key(self.entry)
    }

    /// The value of the next entry, a slice of an input's bytes.
    pub fn value(&self) -> &'a [u8]
        requires { 0 < length self.now }
        ensures { option_map (λ e. e.value) (slice_get self.now 0) ≡ Some result.now }
    {
        self.runs[0].value(self.entry)
    }

    /// The next entries that lie in one chunk of a run, at least one.
    #[inline(always)]
    pub(crate) fn slice(&self) -> ChunkSlice<'r, 'a>
        requires { 0 < length self.now }
        ensures some { 0 < length result }
        ensures front { take (length result) self.now ≡ result }
    {
        self.runs[0].slice_from(self.entry)
    }

    /// Takes off the next entry.
    pub fn advance(&mut self)
        requires { 0 < length self.old }
        ensures { self.new ≡ drop 1 self.old }
    {
        let len = self.runs[0].len();
        let next = self.entry + 1;
        if next < len {
            self.entry = next;
        } else {
            let (_, later) = self.runs.split_at(1);
            self.runs = from_entry(later);
            self.entry = 0;
        }
    }

    /// The place `count` entries further, found run by run.
    pub(crate) fn skip(&self, count: u64) -> EntryCursor<'r, 'a>
        requires { count ≤ length self.now }
        ensures { result ≡ drop count self.now }
    {
        let runs = self.runs;
        let mut left = self.entry as u128 + count as u128;
        let mut passed = 0;
        while passed < runs.len() && runs[passed].len() as u128 <= left {
            left -= runs[passed].len() as u128;
            passed += 1;
        }
        let (_, rest) = runs.split_at(passed);
        EntryCursor {
            runs: rest,
            entry: left as usize,
        }
    }
}

/// The runs from the first one that has a kept entry.
fn from_entry<'r, 'a>(runs: &'r [RangeRun<'a>]) -> &'r [RangeRun<'a>]
    ensures entries { kept_of_runs result.now ≡ kept_of_runs runs.now }
    ensures stands { IsPlaceInRuns result.now 0 }
{
    let mut passed = 0;
    while passed < runs.len() && runs[passed].len() == 0 {
        passed += 1;
    }
    let (_, rest) = runs.split_at(passed);
    rest
}
