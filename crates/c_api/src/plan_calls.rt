//! The plan of the outputs.

ghost use Rattle.std.specs.Prelude.{◌≡◌, true, Ok};
ghost use Rattle.ikey.specs.Answers.{EqualOrMemory};
ghost use Rattle.keep.specs.Runs.{joined_run};
ghost use Rattle.cut.specs.Outputs.{outputs_of as cut_in};
ghost use Rattle.cut.specs.Plan.{plan_of};
ghost use Rattle.table.specs.Options.{AreInLimits};
ghost use Rattle.table.specs.Table.{table};
ghost use Rattle.c_api.specs.Orders.{by_orders};
ghost use Rattle.c_api.specs.Plans.{answer_told, is_plan_lent, outputs_told, plan_answer};
ghost use Rattle.c_api.specs.Plans.{plan_over, plan_reading};
ghost use Rattle.c_api.specs.Held.{plan_in};
ghost use Rattle.c_api.specs.Requests.{files_of as all_files};
ghost use Rattle.c_api.specs.Rooms.{IsWrittenOrMemory};

use crate::code::{MEMORY, MISUSE, code_of};
use crate::file::File;
use crate::lent::{Lent, LentFiles};
use crate::order::{BYTEWISE, SHORTLEX};
use crate::picked::{files_of, grandparents_of, have_keys};
use crate::room::put;
use crate::run_places::{LentArrays, RunPlaces};
use cut::{Plan, plan};
use ikey::{Bytewise, Comparator, Fault, FaultName, Shortlex};
use keep::{FileMeta, RangeRun};
use std::alloc::Global;
use table::Options;

/// An output of a plan. Its entries are those after the ones of the output before it.
#[repr(C)]
#[derive(Clone, Copy, Drop)]
pub struct PlannedOutput {
    /// How many entries of the runs lie before it; 2^64 - 1 if they are more.
    pub first: u64,
    /// How many entries it has.
    pub entries: u64,
    /// The length of its table, at most 2^30.
    pub len: u64,
}

/// The runs of all ranges, in the order of their ranges, and where they lie.
#[repr(C)]
#[derive(Clone, Copy)]
pub struct LentRuns<'a> {
    /// The length of what the host knows of it. No call reads that.
    pub size: usize,
    pub arrays: LentArrays<'a>,
    pub runs: &'a [RunPlaces],
}

/// What a plan is asked for, and where that lies.
#[derive(Clone, Copy)]
pub(crate) struct LentPlan<'a> {
    pub lent: &'a Lent<'a, 'a>,
    /// The files of the inputs.
    pub files: &'a [File],
    pub runs: &'a LentRuns<'a>,
}

impl<'a> LentPlan<'a> {
    /// Whether each place lies in what is lent, and a run is told at each.
    fn is_lent(&self) -> bool
        ensures { result ≡ is_plan_lent (plan_in self.now) }
    {
        have_keys(self.lent.keys, self.files)
            && have_keys(self.lent.keys, self.lent.deeper)
            && self.runs.arrays.are_runs(self.runs.runs)
    }
}

/// Plans the outputs of the runs of all ranges. A run lies in its places of `bytes`, `lengths` and
/// `marks`, as [`crate::proved_merge`] wrote it. `room` begins with the outputs then; `len`
/// is how many they are, also if `room` is too small.
///
/// It doesn't depend on how the entries were dealt out to ranges.
#[unsafe(no_mangle)]
pub extern "C" fn proved_plan(
    alloc: Global,
    lent: &Lent<'_, '_>,
    runs: &LentRuns<'_>,
    room: &mut [PlannedOutput],
    len: &mut u64,
) -> u32
    ensures answer { IsWrittenOrMemory result room.old room.new len.old len.new
        (plan_answer (plan_over lent.now (all_files lent.now.inputs.now) runs.now)) }
{
    let Ok(files) = files_of(alloc, lent.inputs) else {
        return MEMORY;
    };
    let asked = LentPlan {
        lent,
        files: &files,
        runs,
    };
    if !asked.is_lent() {
        return MISUSE;
    }
    match planned_by(alloc, &asked) {
        Ok(outputs) => put(&outputs, room, len),
        Err(fault) => code_of(fault),
    }
}

/// The outputs of a plan, in the request's order.
fn planned_by(alloc: Global, asked: &LentPlan<'_>) -> Result<Vec<PlannedOutput>, Fault>
    requires { is_plan_lent (plan_in asked.now) ≡ true }
    ensures { EqualOrMemory (λ outputs. outputs.items) result
        (by_orders asked.now.lent.now.request.order (plan_reading (plan_in asked.now))) }
{
    match asked.lent.request.order {
        BYTEWISE => planned::<Bytewise>(alloc, asked),
        SHORTLEX => planned::<Shortlex>(alloc, asked),
        _ => Err(Fault::of(FaultName::Comparator)),
    }
}

/// The outputs of a plan.
fn planned<C: Comparator>(alloc: Global, asked: &LentPlan<'_>) -> Result<Vec<PlannedOutput>, Fault>
    requires { is_plan_lent (plan_in asked.now) ≡ true }
    ensures { EqualOrMemory (λ outputs. outputs.items) result
        (plan_reading (plan_in asked.now) C.cmp C.short_keys) }
{
    let lent = asked.lent;
    let options = lent.request.options();
    if !options.are_in_limits() {
        return Err(Fault::of(FaultName::Options));
    }
    let files = LentFiles {
        lent,
        files: asked.files,
    };
    let grandparents = grandparents_of::<C>(alloc, &files)?;
    let runs = asked.runs.arrays.runs(alloc, asked.runs.runs)?;
    outputs_of::<C>(
        alloc,
        &runs,
        &grandparents,
        options,
        lent.request.first_number,
    )
}

/// The outputs of runs, numbered from this number on.
fn outputs_of<C: Comparator>(
    alloc: Global,
    runs: &[RangeRun<'_>],
    grandparents: &[FileMeta],
    options: Options,
    first_number: u64,
) -> Result<Vec<PlannedOutput>, Fault>
    requires { AreInLimits options }
    ensures { EqualOrMemory (λ outputs. outputs.items) result
        (answer_told (plan_of (table C.cmp C.short_keys options) options first_number
        (cut_in grandparents.now options (joined_run runs.now)))) }
{
    let plan = plan::<C>(alloc, runs, grandparents, options, first_number)?;
    told_of::<C>(alloc, &plan)
}

/// What is told of the outputs of a plan.
fn told_of<C: Comparator>(
    alloc: Global,
    plan: &Plan<'_, '_, C>,
) -> Result<Vec<PlannedOutput>, Fault>
    ensures { EqualOrMemory (λ outputs. outputs.items) result
        (Ok (outputs_told 0 plan.now.outputs)) }
{
    let mut outputs = Vec::with_capacity(alloc, plan.len())?;
    let mut first: u64 = 0;
    for place in 0..plan.len() {
        let output = plan.output(place);
        outputs.push(PlannedOutput {
            first,
            entries: output.entries,
            len: output.len,
        })?;
        first = first.saturating_add(output.entries);
    }
    Ok(outputs)
}
