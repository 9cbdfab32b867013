//! Runs that a host hands back, each in its places of three arrays.

ghost use Rattle.std.specs.Prelude.{◌≡◌, true, map, Ok};
ghost use Rattle.std.specs.List.{list_all};
ghost use Rattle.ikey.specs.Answers.{EqualOrMemory};
ghost use Rattle.c_api.specs.ToldRuns.{arrays_at, arrays_lent, has_parts as have_parts};
ghost use Rattle.c_api.specs.ToldRuns.{is_run as lies_lent, is_told as are_told, run_at, run_told};

use crate::place::{Place, is_within, part_of};
use crate::run_arrays::{EntryLengths, RunMark};
use crate::told_run::{are_entries, are_marks, told_run};
use ikey::Fault;
use keep::RangeRun;
use std::alloc::Global;

/// Where the arrays of a run lie.
#[repr(C)]
#[derive(Clone, Copy, Drop)]
pub struct RunPlaces {
    /// The bytes of its entries, in the bytes that are lent.
    pub bytes: Place,
    /// How long they are, in the lengths that are lent.
    pub lengths: Place,
    /// Its marks, in the marks that are lent.
    pub marks: Place,
}

/// Arrays that are lent.
#[repr(C)]
#[derive(Clone, Copy)]
pub struct LentArrays<'a> {
    pub bytes: &'a [u8],
    pub lengths: &'a [EntryLengths],
    pub marks: &'a [RunMark],
}

impl<'a> LentArrays<'a> {
    /// Whether all places of a run lie in them.
    fn has_parts(&self, places: &RunPlaces) -> bool
        ensures { result ≡ have_parts (arrays_lent self.now) places.now }
    {
        is_within(self.bytes, places.bytes)
            && is_within(self.lengths, places.lengths)
            && is_within(self.marks, places.marks)
    }

    /// The arrays of a run.
    fn at(&self, places: &RunPlaces) -> LentArrays<'a>
        requires { have_parts (arrays_lent self.now) places.now ≡ true }
        ensures { arrays_lent result ≡ arrays_at (arrays_lent self.now) places.now }
    {
        LentArrays {
            bytes: part_of(self.bytes, places.bytes),
            lengths: part_of(self.lengths, places.lengths),
            marks: part_of(self.marks, places.marks),
        }
    }

    /// Whether they tell a run.
    fn are_told(&self) -> bool
        ensures { result ≡ are_told (arrays_lent self.now) }
    {
        are_entries(self.bytes, self.lengths) && are_marks(self.lengths.len(), self.marks)
    }

    /// The run that they tell.
    fn run(&self, alloc: Global) -> Result<RangeRun<'a>, Fault>
        requires { are_told (arrays_lent self.now) ≡ true }
        ensures { EqualOrMemory (λ run. run) result (Ok (run_told (arrays_lent self.now))) }
    {
        told_run(alloc, self.bytes, self.lengths, self.marks)
    }

    /// Whether a run is told at its places.
    fn is_run(&self, places: &RunPlaces) -> bool
        ensures { result ≡ lies_lent (arrays_lent self.now) places.now }
    {
        self.has_parts(places) && self.at(places).are_told()
    }

    /// Whether each run is told at its places.
    pub(crate) fn are_runs(&self, runs: &[RunPlaces]) -> bool
        ensures { result ≡ list_all (lies_lent (arrays_lent self.now)) runs.now }
    {
        runs.iter().all(|places| self.is_run(places))
    }

    /// The run at its places.
    fn run_at(&self, alloc: Global, places: &RunPlaces) -> Result<RangeRun<'a>, Fault>
        requires { lies_lent (arrays_lent self.now) places.now ≡ true }
        ensures { EqualOrMemory (λ run. run) result
            (Ok (run_at (arrays_lent self.now) places.now)) }
    {
        let arrays = self.at(places);
        arrays.run(alloc)
    }

    /// The runs at their places.
    pub(crate) fn runs(&self, alloc: Global, runs: &[RunPlaces]) -> Result<Vec<RangeRun<'a>>, Fault>
        requires { list_all (lies_lent (arrays_lent self.now)) runs.now ≡ true }
        ensures { EqualOrMemory (λ all. all.items) result
            (Ok (map (run_at (arrays_lent self.now)) runs.now)) }
    {
        let mut all = Vec::with_capacity(alloc, runs.len())?;
        for places in runs {
            all.push(self.run_at(alloc, places)?)?;
        }
        Ok(all)
    }
}
