//! Planning the outputs of a compaction.

ghost use Rattle.std.specs.Prelude.{◌≡◌, ◌+◌, ◌^◌, ◌<◌, ◌≤◌, ◌&&◌, nat_le, length, IfOk};
ghost use Rattle.std.specs.Prelude.{IfErr, map, Ok};
ghost use Rattle.std.specs.List.{AllByRecursion, list_all};
ghost use Rattle.coding.specs.Answers.{EqualOrMemory, fault};
ghost use Rattle.coding.specs.declared.fault.FaultName.TheVariants.{Memory};
ghost use Rattle.coding.specs.Saturated.{saturated};
ghost use Rattle.table.specs.Options.{AreInLimits};
ghost use Rattle.table.specs.Table.{index_keys, table};
ghost use Rattle.table.specs.declared.table_check.TheConstants.{MAX_TABLE_LEN};
ghost use Rattle.keep.specs.Runs.{joined_run};
ghost use Rattle.cut.specs.Outputs.{outputs_of};
ghost use Rattle.cut.specs.Plan.{plan_of};
ghost use Rattle.cut.specs.PlanInvariant.{HaveEntries, IsPlannedOutput, block_count};
ghost use Rattle.cut.specs.PlanInvariant.{numbered_from, planned_of};
ghost use Rattle.cut.specs.TableLength.{table_size};
ghost use Rattle.cut.specs.declared.output_plan.TheConstants.{MAX_BLOCKS};

use crate::block_numbers::ends_of;
use crate::output_cuts::outputs;
use crate::planned_block::PlannedBlock;
use crate::planned_output::PlannedOutput;
use crate::table_len::table_len;
use crate::whole_plan::Plan;
use coding::{Fault, FaultName};
use ikey::Comparator;
use keep::{FileMeta, RangeRun};
use std::alloc::Global;
use std::marker::PhantomData;
use table::{MAX_TABLE_LEN, Options};

/// The most data blocks in all outputs of a plan: 2^40, as many as a board has jobs.
pub const MAX_BLOCKS: u64 = 1 << 40;

/// The plan of the outputs of a compaction, of the runs of all its ranges in order. It doesn't
/// depend on how the entries were dealt out to ranges. `grandparents` are the files that the marks
/// of the runs count. Outputs are numbered from `first_number` on.
///
/// Faults: the first of these, or Memory.
///
/// 1. Numbers: the number after the last output's exceeds 2^64 - 1.
/// 2. TooLarge: a table would have more than 2^30 bytes, or all outputs together more than 2^40
///    data blocks.
pub fn plan<'r, 'a, C: Comparator>(
    alloc: Global,
    runs: &'r [RangeRun<'a>],
    grandparents: &[FileMeta],
    options: Options,
    first_number: u64,
) -> Result<Plan<'r, 'a, C>, Fault>
    requires { AreInLimits options }
    ensures outputs { EqualOrMemory (λ p. p.outputs) result
        (plan_of (table C.cmp C.short_keys options) options first_number
        (outputs_of grandparents.now options (joined_run runs.now))) }
    ensures options { IfOk result (λ p. p.options ≡ options) }
{
    let ended = outputs(alloc, runs, grandparents, options)?;
    if ended.len() as u64 > u64::MAX - first_number {
        return Err(Fault::of(FaultName::Numbers));
    }
    let outputs = numbered::<C>(alloc, ended, first_number)?;
    if !are_small(&outputs) {
        return Err(Fault::of(FaultName::TooLarge));
    }
    plan_with(alloc, options, outputs)
}

/// The plan with these outputs.
pub(crate) fn plan_with<'r, 'a, C: Comparator>(
    alloc: Global,
    options: Options,
    outputs: Vec<PlannedOutput<'r, 'a>>,
) -> Result<Plan<'r, 'a, C>, Fault>
    requires limits { AreInLimits options }
    requires each { AllByRecursion
        (IsPlannedOutput (table C.cmp C.short_keys options) options) outputs.items }
    requires few { block_count outputs.items ≤ MAX_BLOCKS }
    ensures { EqualOrMemory (λ p. p) result
        (Ok (record { options = options; outputs = map planned_of outputs.entry.items })) }
{
    let ends = ends_of(alloc, &outputs)?;
    Ok(Plan {
        options,
        outputs,
        ends,
        order: PhantomData,
    })
}

/// The outputs of these data blocks, numbered from `first_number` on. A length of more than 2^30
/// bytes is given as 2^30 + 1.
fn numbered<'r, 'a, C: Comparator>(
    alloc: Global,
    ended: Vec<Vec<PlannedBlock<'r, 'a>>>,
    first_number: u64,
) -> Result<Vec<PlannedOutput<'r, 'a>>, Fault>
    requires fits { first_number + length ended.items < 2 ^ 64 }
    requires some { AllByRecursion (λ blocks. HaveEntries blocks.items) ended.items }
    ensures ok { IfOk result (λ outputs. outputs.items
        ≡ numbered_from (table_size (index_keys C.cmp C.short_keys)) first_number
        ended.entry.items) }
    ensures memory { IfErr result (λ e. e ≡ fault Memory) }
{
    let mut outputs = Vec::with_capacity(alloc, ended.len())?;
    let mut number = first_number;
    for blocks in ended {
        let len = table_len::<C>(alloc, &blocks)?;
        outputs.push(PlannedOutput {
            number,
            blocks,
            len,
        })?;
        number += 1;
    }
    Ok(outputs)
}

/// Whether each output has at most 2^30 bytes, and all have at most 2^40 data blocks together.
fn are_small(outputs: &[PlannedOutput<'_, '_>]) -> bool
    ensures { result
        ≡ (list_all (λ p. nat_le p.len MAX_TABLE_LEN) outputs.now
        && nat_le (block_count outputs.now) MAX_BLOCKS) }
{
    are_short(outputs) && count_blocks(outputs) <= MAX_BLOCKS
}

/// Whether each output has at most 2^30 bytes.
fn are_short(outputs: &[PlannedOutput<'_, '_>]) -> bool
    ensures { result ≡ list_all (λ p. nat_le p.len MAX_TABLE_LEN) outputs.now }
{
    let limit = MAX_TABLE_LEN as u64;
    outputs.iter().all(|output| output.len <= limit)
}

/// The number of data blocks of all outputs; 2^64 - 1 if there are more.
fn count_blocks(outputs: &[PlannedOutput<'_, '_>]) -> u64
    ensures { result ≡ saturated (block_count outputs.now) }
{
    let mut count: u64 = 0;
    for output in outputs {
        count = count.saturating_add(output.blocks.len() as u64);
    }
    count
}
