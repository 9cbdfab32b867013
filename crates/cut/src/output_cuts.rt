//! Cutting the kept entries of runs into outputs.
//!
//! An output ends
//! (1) at a stop, so that it doesn't overlap too many grandparents;
//! (2) between stops, before the first entry of another user key once its flushed data blocks have
//!     reached the maximal file size;
//! (3) after the last entry.
//! So all kept entries of a user key go to one output, however many they are, and no two outputs
//! share a user key.

ghost use Rattle.std.specs.Prelude.{◌≡◌, ◌<◌, ◌≤◌, ◌↔◌, List, [], ◌++◌, length, take, drop, map};
ghost use Rattle.std.specs.Prelude.{flat_map, IsTrue, OnOk, IfOk, IfErr, IsOkUnless};
ghost use Rattle.std.specs.List.{AllByRecursion};
ghost use Rattle.coding.specs.Answers.{fault};
ghost use Rattle.coding.specs.declared.fault.FaultName.TheVariants.{Memory};
ghost use Rattle.block.specs.EncodedEntry.{Entry};
ghost use Rattle.table.specs.Options.{AreInLimits};
ghost use Rattle.keep.specs.Runs.{joined_run};
ghost use Rattle.cut.specs.OutputCuts.{outputs_left};
ghost use Rattle.cut.specs.OutputInProgress.{ArePlanned, entries_in_blocks};
ghost use Rattle.cut.specs.Outputs.{segments, outputs_in, outputs_of};

use crate::cursor::EntryCursor;
use crate::open_output::OpenOutput;
use crate::planned_block::PlannedBlock;
use crate::stops::stops;
use coding::Fault;
use keep::{FileMeta, RangeRun};
use std::alloc::Global;
use std::marker::Model;
use table::Options;

/// Outputs that are being cut: the options, the entries of each output that has ended, those of the
/// open output, and the entries still to come.
#[derive(Drop)]
struct Cutting<'r, 'a> {
    alloc: Global,
    /// The data blocks of each output that has ended.
    ended: Vec<Vec<PlannedBlock<'r, 'a>>>,
    latest: OpenOutput<'r, 'a>,
}

impl<'r, 'a> Model for Cutting<'r, 'a> {
    ghost use Rattle.std.specs.Prelude.{map};
    ghost use Rattle.std.specs.List.{AllByRecursion};
    ghost use Rattle.cut.specs.OutputInProgress.{ArePlanned, entries_in_blocks};
    ghost use Rattle.cut.specs.OutputCuts.{OutputsInProgress};

    ghost Value = { OutputsInProgress };

    ghost view = { λ c. record {
      options = c.latest.options;
      outputs = map (λ blocks. entries_in_blocks blocks.items) c.ended.items;
      latest = c.latest.entries;
      behind = c.latest.behind;
    } };

    ghost invariant = { λ c. AllByRecursion (λ blocks. ArePlanned c.latest.options blocks.items)
        c.ended.items };
}

impl<'r, 'a> Cutting<'r, 'a> {
    /// No outputs yet, before the entries from `place` on. Takes no memory.
    fn new(alloc: Global, options: Options, place: EntryCursor<'r, 'a>) -> Cutting<'r, 'a>
        requires { AreInLimits options }
        ensures { result
            ≡ record { options = options; outputs = []; latest = []; behind = place.entry } }
    {
        Cutting {
            alloc,
            ended: Vec::new(alloc),
            latest: OpenOutput::new(alloc, options, place),
        }
    }

    /// Whether an entry is still to come.
    fn has_next(&self) -> bool
        ensures { IsTrue result ↔ (0 < length self.now.behind) }
    {
        self.latest.has_next()
    }

    /// Ends the open output, if it has an entry.
    fn end_output(&mut self) -> Result<(), Fault>
        ensures ended { OnOk result (self.new ≡ record {
          options = self.old.options;
          outputs = outputs_left self.old [];
          latest = [];
          behind = self.old.behind;
        }) }
        ensures memory { IsOkUnless result (fault Memory) }
    {
        let blocks = self.latest.end(self.alloc)?;
        if !blocks.is_empty() {
            self.ended.push(blocks)?;
        }
        Ok(())
    }

    /// Takes in the next entries, at least one and at most `most`, and answers how many.
    fn step(&mut self, most: u64) -> Result<u64, Fault>
        requires any { 0 < length self.old.behind }
        requires most { 0 < most }
        ensures left { IfOk result (λ taken. (rest : List Entry) →
            outputs_left self.new rest
            ≡ outputs_left self.old (take taken self.old.behind ++ rest)) }
        ensures behind { IfOk result (λ taken. self.new.behind ≡ drop taken self.old.behind) }
        ensures some { IfOk result (λ taken. 0 < taken) }
        ensures most { IfOk result (λ taken. taken ≤ most) }
        ensures options { OnOk result (self.new.options ≡ self.old.options) }
        ensures memory { IfErr result (λ e. e ≡ fault Memory) }
    {
        if self.latest.ends_before_next() {
            self.end_output()?;
        }
        self.latest.take_in(most)
    }

    /// Takes in `count` entries, or all if there are fewer, and ends the last output.
    fn take_in(&mut self, count: u128) -> Result<(), Fault>
        ensures ok { OnOk result (self.new ≡ record {
          options = self.old.options;
          outputs = outputs_left self.old (take count self.old.behind);
          latest = [];
          behind = drop count self.old.behind;
        }) }
        ensures memory { IsOkUnless result (fault Memory) }
    {
        let mut left = count;
        while left > 0 && self.has_next() {
            let most = left.min(u64::MAX as u128) as u64;
            left -= self.step(most)? as u128;
        }
        self.end_output()
    }

    /// Takes in all entries, and ends the last output.
    fn take_all(&mut self) -> Result<(), Fault>
        ensures ok { OnOk result (self.new ≡ record {
          options = self.old.options;
          outputs = outputs_left self.old self.old.behind;
          latest = [];
          behind = [];
        }) }
        ensures memory { IsOkUnless result (fault Memory) }
    {
        while self.has_next() {
            self.step(u64::MAX)?;
        }
        self.end_output()
    }

    /// Takes in all entries, and ends an output at each stop.
    fn cut(&mut self, stops: &[u128]) -> Result<(), Fault>
        requires { self.old.latest ≡ [] }
        ensures outputs { OnOk result (self.new.outputs
            ≡ self.old.outputs
            ++ flat_map (outputs_in self.old.options) (segments 0 stops.now self.old.behind)) }
        ensures options { OnOk result (self.new.options ≡ self.old.options) }
        ensures memory { IsOkUnless result (fault Memory) }
    {
        let mut from = 0;
        for stop in stops {
            self.take_in(stop.saturating_sub(from))?;
            from = *stop;
        }
        self.take_all()
    }

    /// The data blocks of the outputs that have ended.
    fn into_ended(self) -> Vec<Vec<PlannedBlock<'r, 'a>>>
        ensures entries { map (λ blocks. entries_in_blocks blocks.items) result.items
            ≡ self.entry.outputs }
        ensures planned { AllByRecursion (λ blocks. ArePlanned self.entry.options blocks.items)
            result.items }
    {
        self.ended
    }
}

/// The data blocks of each output of `runs`, one run after the other.
pub(crate) fn outputs<'r, 'a>(
    alloc: Global,
    runs: &'r [RangeRun<'a>],
    grandparents: &[FileMeta],
    options: Options,
) -> Result<Vec<Vec<PlannedBlock<'r, 'a>>>, Fault>
    requires { AreInLimits options }
    ensures entries { IfOk result (λ outputs.
        map (λ blocks. entries_in_blocks blocks.items) outputs.items
        ≡ outputs_of grandparents.now options (joined_run runs.now)) }
    ensures planned { IfOk result
        (λ outputs. AllByRecursion (λ blocks. ArePlanned options blocks.items) outputs.items) }
    ensures memory { IfErr result (λ e. e ≡ fault Memory) }
{
    let stops = stops(alloc, runs, grandparents, options.file_size)?;
    let mut cutting = Cutting::new(alloc, options, EntryCursor::new(runs));
    cutting.cut(&stops)?;
    Ok(cutting.into_ended())
}
