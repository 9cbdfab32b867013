//! The second phase: the ranges are merged.

ghost use Rattle.std.specs.Prelude.{◌≡◌, map, IfOk, IfErr};
ghost use Rattle.std.specs.List.Sorted.{IsStrictlyIncreasing};
ghost use Rattle.ikey.specs.Answers.{EqualOrMemory, fault};
ghost use Rattle.ikey.specs.fault.FaultName.TheVariants.{Memory};
ghost use Rattle.split.specs.Ranges.{key_range};
ghost use Rattle.keep.specs.Marks.{context_of, LargestRise};
ghost use Rattle.keep.specs.Runs.{range_run};
ghost use Rattle.compact.specs.RangeMerges.{by_workers, runs_reading};

use board::{Gate, Labour, run};
use ikey::{Comparator, Fault, SharedComparator};
use keep::{RangeRun, merge_range, ranges_compose};
use merge::cursors_from;
use pick::Inputs;
use split::{Range, Split};
use std::alloc::Global;
use std::marker::Model;
use std::thread::Threads;
use table::SoundTable;

/// The ranges of a split over tables, each a job.
#[derive(Drop)]
struct Merges<'r, 't, C: Comparator + 'static> {
    alloc: Global,
    tables: &'r [&'r SoundTable<'t, C>],
    split: &'r Split<C>,
    listed: &'r [u64],
    floor: u64,
    inputs: &'r Inputs,
}

impl<'r, 't, C: Comparator + 'static> Model for Merges<'r, 't, C> {
    ghost use Rattle.std.specs.Prelude.{map};
    ghost use Rattle.std.specs.List.Sorted.{IsStrictlyIncreasing};
    ghost use Rattle.keep.specs.Marks.{context_of, LargestRise};
    ghost use Rattle.compact.specs.JobAnswers.{RangeMerge};

    ghost Value = { RangeMerge };

    ghost view = { λ s. record {
      below = context_of s.listed.now s.floor s.inputs.now;
      boundaries = s.split.now;
      inputs = map (λ t. t.now.entries) s.tables.now;
    } };

    ghost invariant = { λ s. IsStrictlyIncreasing s.listed.now
        × LargestRise C.cmp s.inputs.now.grandparents.items };
}

impl<'r, 't, C: Comparator + 't + 'static> Labour for Merges<'r, 't, C> {
    type Out = RangeRun<'t>;

    ghost use Rattle.std.specs.Prelude.{◌+◌, length};
    ghost use Rattle.board.specs.CollectedResults.{refusal_at, HasValue};
    ghost use Rattle.compact.specs.JobAnswers.{range_answers};

    ghost jobs = { λ s. length s.boundaries + 1 };

    ghost refusal = { λ s job. refusal_at (range_answers C.cmp s.below s.boundaries s.inputs) job };

    ghost gives = { λ s job out. HasValue (range_answers C.cmp s.below s.boundaries s.inputs) job
        out };

    fn work(&self, job: u64) -> Result<RangeRun<'t>, Fault> {
        let range = self.split.range(job);
        merge_tables(
            self.alloc,
            self.tables,
            range,
            self.listed,
            self.floor,
            self.inputs,
        )
    }
}

/// Merges tables in the ranges of a split by 1 to 64 workers, a range a job, and answers the runs
/// of the ranges in order.
///
/// `listed` and `floor` say which sequences stay readable, as in `keep::merge_range`. For each
/// range a worker makes its own cursors over the tables that reach into it; all workers share the
/// tables.
///
/// - `Workers`: `workers` is outside 1 to 64.
/// - `Duplicate`: the tables have one user key and sequence twice, in whichever range.
///
/// The only other fault is `Memory`.
pub fn merge_ranges<'t, C: SharedComparator + 'static, G: Gate + Sync, R: Threads + Sync>(
    rt: &R,
    alloc: Global,
    tables: &[SoundTable<'t, C>],
    split: &Split<C>,
    listed: &[u64],
    floor: u64,
    inputs: &Inputs,
    workers: u64,
    gate: &G,
) -> Result<Vec<RangeRun<'t>>, Fault>
    requires listed { IsStrictlyIncreasing listed.now }
    requires grandparents { LargestRise C.cmp inputs.now.grandparents.items }
    ensures { EqualOrMemory (λ v. v.items) result
        (by_workers workers (runs_reading C.cmp (context_of listed.now floor inputs.now) split.now
        (map (λ t. t.entries) tables.now))) }
{
    let tables = lent_tables(alloc, tables)?;
    let merges = Merges {
        alloc,
        tables: &tables,
        split,
        listed,
        floor,
        inputs,
    };
    ranges_compose::<C>();
    Ok(run(rt, alloc, &merges, split.len(), workers, gate)?)
}

/// A reference to each table.
fn lent_tables<'r, 't, C: Comparator>(
    alloc: Global,
    tables: &'r [SoundTable<'t, C>],
) -> Result<Vec<&'r SoundTable<'t, C>>, Fault>
    ensures tables { IfOk result (λ v.
        map (λ t. t.now.entries) v.items ≡ map (λ t. t.entries) tables.now) }
    ensures memory { IfErr result (λ e. e ≡ fault Memory) }
{
    let mut lent = Vec::with_capacity(alloc, tables.len())?;
    for table in tables {
        lent.push(table)?;
    }
    Ok(lent)
}

/// Merges tables in a range.
fn merge_tables<'t, C: Comparator + 't>(
    alloc: Global,
    tables: &[&SoundTable<'t, C>],
    range: Range<'_>,
    listed: &[u64],
    floor: u64,
    inputs: &Inputs,
) -> Result<RangeRun<'t>, Fault>
    requires listed { IsStrictlyIncreasing listed.now }
    requires grandparents { LargestRise C.cmp inputs.now.grandparents.items }
    ensures { EqualOrMemory (λ run. run) result
        (range_run C.cmp (context_of listed.now floor inputs.now)
        (map (λ t. t.now.entries) tables.now) (key_range range.entry)) }
{
    let mut cursors = cursors_from(alloc, tables, range)?;
    merge_range::<C, _>(alloc, &mut cursors, range, listed, floor, inputs)
}
