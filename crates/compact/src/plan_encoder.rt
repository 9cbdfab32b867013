//! The tables of a plan, encoded by workers.

ghost use Rattle.std.specs.Prelude.{◌≤◌, map, Ok};
ghost use Rattle.ikey.specs.Answers.{EqualOrMemory};
ghost use Rattle.table.specs.Table.{table};
ghost use Rattle.cut.specs.Plan.{plan_tables};
ghost use Rattle.board.specs.declared.limits.TheConstants.{MAX_WORKERS};

use crate::block_encoder::encode_blocks;
use crate::table_encoder::encode_outputs;
use board::Gate;
use cut::Plan;
use ikey::{Fault, SharedComparator};
use std::alloc::Global;
use std::thread::Threads;

/// What a job encodes.
#[derive(Clone, Copy)]
pub(crate) enum Job {
    /// A data block. The tables are joined of all, by one thread.
    Block,
    /// A whole table. Its worker makes its index too, and no byte of it is copied.
    Table,
}

/// Encodes the tables of the outputs of a plan by 1 to 64 workers, each with its number.
pub(crate) fn encode_tables<'p, C: SharedComparator + 'static, G: Gate + Sync, R: Threads + Sync>(
    rt: &R,
    alloc: Global,
    plan: &'p Plan<'p, 'p, C>,
    job: Job,
    workers: u64,
    gate: &G,
) -> Result<Vec<(u64, Vec<u8>)>, Fault>
    requires some { 1 ≤ workers }
    requires limited { workers ≤ MAX_WORKERS }
    ensures { EqualOrMemory (λ tables. map (λ t. (t.0, t.1.items)) tables.items) result
        (Ok (plan_tables (table C.cmp C.short_keys plan.now.options) plan.now.outputs)) }
{
    match job {
        Job::Block => {
            let blocks = encode_blocks(rt, alloc, plan, workers, gate)?;
            plan.assemble(alloc, blocks)
        }
        Job::Table => encode_outputs(rt, alloc, plan, workers, gate),
    }
}
