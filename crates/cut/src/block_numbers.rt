//! The numbers of data blocks, through all outputs of a plan in order.

ghost use Rattle.std.specs.Prelude.{◌≡◌, ◌<◌, ◌≤◌, length, slice_get, Some, IfOk, IfErr};
ghost use Rattle.coding.specs.Answers.{fault};
ghost use Rattle.coding.specs.declared.fault.FaultName.TheVariants.{Memory};
ghost use Rattle.cut.specs.BlockNumbers.{output_ends, planned_blocks};
ghost use Rattle.cut.specs.PlanInvariant.{block_count};
ghost use Rattle.cut.specs.declared.output_plan.TheConstants.{MAX_BLOCKS};

use crate::planned_block::PlannedBlock;
use crate::planned_output::PlannedOutput;
use coding::Fault;
use std::alloc::Global;

/// After how many data blocks of all outputs each output ends.
pub(crate) fn ends_of(alloc: Global, outputs: &[PlannedOutput<'_, '_>]) -> Result<Vec<u64>, Fault>
    requires { block_count outputs.now ≤ MAX_BLOCKS }
    ensures ok { IfOk result (λ ends. ends.items ≡ output_ends 0 outputs.now) }
    ensures memory { IfErr result (λ e. e ≡ fault Memory) }
{
    let mut ends = Vec::with_capacity(alloc, outputs.len())?;
    let mut end: u64 = 0;
    for output in outputs {
        end += output.blocks.len() as u64;
        ends.push(end)?;
    }
    Ok(ends)
}

/// The data block of number `job`. `ends` says after how many data blocks each output ends.
pub(crate) fn block_of<'p, 'r, 'a>(
    outputs: &'p [PlannedOutput<'r, 'a>],
    ends: &[u64],
    job: u64,
) -> &'p PlannedBlock<'r, 'a>
    requires ends { ends.now ≡ output_ends 0 outputs.now }
    requires within { job < length (planned_blocks outputs.now) }
    ensures { slice_get (planned_blocks outputs.now) job ≡ Some result.now }
{
    let place = ends.partition_point(|end| *end <= job);
    let output = &outputs[place];
    let end = ends[place];
    let left = (end - job) as usize;
    let block = output.blocks.len() - left;
    &output.blocks[block]
}
