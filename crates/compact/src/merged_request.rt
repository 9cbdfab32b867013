//! A request whose inputs are merged: its runs, before its outputs are planned.

ghost use Rattle.std.specs.Prelude.{◌≡◌, ◌+◌, ◌<◌, ◌^◌, IfOk, length};
ghost use Rattle.ikey.specs.Answers.{EqualOrMemory};
ghost use Rattle.table.specs.Options.{AreInLimits};
ghost use Rattle.table.specs.Table.{table};
ghost use Rattle.keep.specs.Runs.{joined_run};
ghost use Rattle.cut.specs.Groups.{groups_of};
ghost use Rattle.cut.specs.Outputs.{outputs_of};
ghost use Rattle.cut.specs.Plan.{plan_of};
ghost use Rattle.compact.specs.AnswerIn.{answer_in};
ghost use Rattle.compact.specs.GroupedAnswer.{joined_answer};
ghost use Rattle.compact.specs.declared.grouped_plan.TheConstants.{MAX_TABLES};

use crate::edit_bytes::edit_bytes;
use crate::grouped_plan::{MAX_TABLES, Planned};
use crate::plan_encoder::{Job, encode_tables};
use crate::request::Request;
use board::Gate;
use cut::{Plan, plan};
use edit::Outcome;
use ikey::{Comparator, Fault, SharedComparator};
use keep::RangeRun;
use std::alloc::Global;
use std::marker::{Model, PhantomData};
use std::thread::Threads;

/// The runs of a request that passed its tests, and its number of workers. Contracts see what the
/// compaction answers.
#[derive(Drop)]
pub struct Merged<'q, 't, C: Comparator> {
    pub(crate) request: &'q Request<'q>,
    pub(crate) runs: Vec<RangeRun<'t>>,
    pub(crate) workers: u64,
    pub(crate) order: PhantomData<C>,
}

impl<'q, 't, C: Comparator> Model for Merged<'q, 't, C> {
    ghost use Rattle.std.specs.Prelude.{Result};
    ghost use Rattle.ikey.specs.fault.Fault.{Fault};
    ghost use Rattle.compact.specs.Request.{request_in};
    ghost use Rattle.compact.specs.OneThread.{Answer};
    ghost use Rattle.compact.specs.MergedRequest.{IsMerged, runs_answer};

    ghost Value = { Result Answer Fault };

    ghost view = { λ m. runs_answer C.cmp C.short_keys (request_in m.request.now) m.runs.items };

    ghost invariant = { λ m. IsMerged (request_in m.request.now) m.workers };
}

impl<'q, 't, C: Comparator> Merged<'q, 't, C> {
    /// Plans the outputs, deals them out in groups of `MAX_TABLES`, and makes the edit. No table
    /// is encoded yet, and the runs are read until all are.
    ///
    /// `Numbers` or `TooLarge` of the outputs, as [`crate::compact_tables`] says. The only other
    /// fault is `Memory`.
    pub fn planned<'m>(&'m self, alloc: Global) -> Result<Planned<'m, 't, C>, Fault>
        ensures answer { EqualOrMemory joined_answer result self.now }
        ensures groups { IfOk result (λ p.
            p.groups ≡ groups_of MAX_TABLES (joined_answer p).tables) }
    {
        let request = self.request;
        let plan = planned_outputs::<C>(alloc, request, &self.runs)?;
        let edit = edit_bytes(alloc, request, &plan)?;
        let groups = plan.groups(alloc, MAX_TABLES)?;
        Ok(Planned {
            groups,
            edit,
            workers: self.workers,
        })
    }
}

impl<'q, 't, C: SharedComparator + 'static> Merged<'q, 't, C> {
    /// All tables, encoded by workers, and the edit.
    ///
    /// `Numbers` or `TooLarge` of the outputs. The only other fault is `Memory`.
    pub(crate) fn written<G: Gate + Sync, R: Threads + Sync>(
        &self,
        rt: &R,
        alloc: Global,
        job: Job,
        gate: &G,
    ) -> Result<Outcome, Fault>
        ensures { EqualOrMemory answer_in result self.now }
    {
        let request = self.request;
        let plan = planned_outputs::<C>(alloc, request, &self.runs)?;
        let tables = encode_tables(rt, alloc, &plan, job, self.workers, gate)?;
        let edit = edit_bytes(alloc, request, &plan)?;
        Ok(Outcome { tables, edit })
    }
}

/// The plan of the outputs of a request's runs. The only faults are `Numbers`, `TooLarge` and
/// `Memory`.
fn planned_outputs<'r, 'a, C: Comparator>(
    alloc: Global,
    request: &Request<'_>,
    runs: &'r [RangeRun<'a>],
) -> Result<Plan<'r, 'a, C>, Fault>
    requires { AreInLimits request.now.options }
    ensures outputs { EqualOrMemory (λ p. p.outputs) result
        (plan_of (table C.cmp C.short_keys request.now.options) request.now.options
        request.now.first_number
        (outputs_of request.now.picked.now.grandparents.items request.now.options
        (joined_run runs.now))) }
    ensures options { IfOk result (λ p. p.options ≡ request.now.options) }
    ensures fits { IfOk result (λ p. request.now.first_number + length p.outputs < 2 ^ 64) }
{
    let grandparents = &request.picked.grandparents;
    let first = request.first_number;
    plan::<C>(alloc, runs, grandparents, request.options, first)
}
