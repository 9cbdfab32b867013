//! The tables of a plan, each encoded whole.

ghost use Rattle.std.specs.Prelude.{length, map, Ok};
ghost use Rattle.ikey.specs.Answers.{EqualOrMemory};
ghost use Rattle.table.specs.Table.{table};
ghost use Rattle.cut.specs.Plan.{plan_tables};
ghost use Rattle.compact.specs.RangeMerges.{by_workers};

use board::{Gate, Labour, run};
use cut::Plan;
use ikey::{Comparator, Fault, SharedComparator};
use std::alloc::Global;
use std::thread::Threads;

/// The outputs of a plan, each a job.
#[derive(Drop)]
struct Outputs<'p, C: Comparator + 'static> {
    alloc: Global,
    plan: &'p Plan<'p, 'p, C>,
}

impl<'p, C: Comparator + 'static> Labour for Outputs<'p, C> {
    type Out = (u64, Vec<u8>);

    ghost use Rattle.std.specs.Prelude.{length};
    ghost use Rattle.table.specs.Table.{table};
    ghost use Rattle.board.specs.CollectedResults.{refusal_at, HasValue};
    ghost use Rattle.compact.specs.JobAnswers.{output_answers};

    ghost jobs = { λ s. length s.plan.now.outputs };

    ghost refusal = { λ s job. refusal_at
        (output_answers (table C.cmp C.short_keys s.plan.now.options) s.plan.now.outputs) job };

    ghost gives = { λ s job out. HasValue
        (output_answers (table C.cmp C.short_keys s.plan.now.options) s.plan.now.outputs) job
        (out.0, out.1.items) };

    fn work(&self, job: u64) -> Result<(u64, Vec<u8>), Fault> {
        self.plan.table(self.alloc, job as usize)
    }
}

/// Encodes the tables of a plan by 1 to 64 workers, a table a job, and answers them in order, each
/// with its number. There are at most 2^40 tables.
///
/// `Workers` if `workers` is outside 1 to 64. The only other fault is `Memory`.
pub(crate) fn encode_outputs<'p, C: SharedComparator + 'static, G: Gate + Sync, R: Threads + Sync>(
    rt: &R,
    alloc: Global,
    plan: &'p Plan<'p, 'p, C>,
    workers: u64,
    gate: &G,
) -> Result<Vec<(u64, Vec<u8>)>, Fault>
    ensures { EqualOrMemory (λ tables. map (λ t. (t.0, t.1.items)) tables.items) result
        (by_workers workers
        (Ok (plan_tables (table C.cmp C.short_keys plan.now.options) plan.now.outputs))) }
{
    let outputs = Outputs { alloc, plan };
    Ok(run(rt, alloc, &outputs, plan.len() as u64, workers, gate)?)
}
