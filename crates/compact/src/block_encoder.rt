//! The third phase of the call: the data blocks of a plan are encoded.

ghost use Rattle.std.specs.Prelude.{length, map, Ok};
ghost use Rattle.ikey.specs.Answers.{EqualOrMemory};
ghost use Rattle.cut.specs.Plan.{encoded_blocks};
ghost use Rattle.cut.specs.OutputPlan.{lists_in};
ghost use Rattle.compact.specs.RangeMerges.{by_workers};

use board::{Gate, Labour, run};
use cut::Plan;
use ikey::{Comparator, Fault, SharedComparator};
use std::alloc::Global;
use std::thread::Threads;

/// The data blocks of a plan, each a job.
#[derive(Drop)]
struct Blocks<'p, C: Comparator + 'static> {
    alloc: Global,
    plan: &'p Plan<'p, 'p, C>,
}

impl<'p, C: Comparator + 'static> Labour for Blocks<'p, C> {
    type Out = Vec<u8>;

    ghost use Rattle.std.specs.Prelude.{length};
    ghost use Rattle.board.specs.CollectedResults.{refusal_at, HasValue};
    ghost use Rattle.compact.specs.JobAnswers.{block_answers};

    ghost jobs = { λ s. length (block_answers s.plan.now) };

    ghost refusal = { λ s job. refusal_at (block_answers s.plan.now) job };

    ghost gives = { λ s job out. HasValue (block_answers s.plan.now) job out.items };

    fn work(&self, job: u64) -> Result<Vec<u8>, Fault> {
        self.plan.encode(self.alloc, job)
    }
}

/// Encodes the data blocks of a plan by 1 to 64 workers, a block a job, and answers their bytes
/// with trailers, in order. There are at most 2^40 blocks.
///
/// `Workers` if `workers` is outside 1 to 64. The only other fault is `Memory`.
pub(crate) fn encode_blocks<'p, C: SharedComparator + 'static, G: Gate + Sync, R: Threads + Sync>(
    rt: &R,
    alloc: Global,
    plan: &'p Plan<'p, 'p, C>,
    workers: u64,
    gate: &G,
) -> Result<Vec<Vec<u8>>, Fault>
    ensures { EqualOrMemory (λ v. map (λ p. p.items) v.items) result
        (by_workers workers (Ok (encoded_blocks plan.now.options (lists_in plan.now.outputs)))) }
{
    let blocks = Blocks { alloc, plan };
    Ok(run(rt, alloc, &blocks, plan.jobs(), workers, gate)?)
}
