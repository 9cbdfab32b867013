//! A plan, dealt out to plans of a few outputs each.
//!
//! The tables of such a plan are encoded and joined as those of any plan. So they may be written
//! and dropped before those of the next one are encoded.

ghost use Rattle.std.specs.Prelude.{◌≡◌, ◌<◌, ◌≤◌, [], ◌∷◌, ◌++◌, Ok, OnOk, IfErr, map};
ghost use Rattle.std.specs.List.{AllByRecursion};
ghost use Rattle.coding.specs.Answers.{EqualOrMemory, fault};
ghost use Rattle.coding.specs.declared.fault.FaultName.TheVariants.{Memory};
ghost use Rattle.table.specs.Options.{AreInLimits};
ghost use Rattle.table.specs.Table.{table};
ghost use Rattle.cut.specs.Groups.{plan_groups};
ghost use Rattle.cut.specs.PlanInvariant.{IsPlannedOutput, block_count, planned_of};
ghost use Rattle.cut.specs.declared.output_plan.TheConstants.{MAX_BLOCKS};

use crate::output_plan::plan_with;
use crate::planned_output::PlannedOutput;
use crate::whole_plan::Plan;
use coding::Fault;
use ikey::Comparator;
use std::alloc::Global;
use std::mem;
use table::Options;

impl<'r, 'a, C: Comparator> Plan<'r, 'a, C> {
    /// The outputs in order, dealt out to plans of `most` outputs each; the last has those that are
    /// left. No plan if there are no outputs.
    ///
    /// Each numbers the data blocks of its own outputs from 0.
    pub fn groups(self, alloc: Global, most: usize) -> Result<Vec<Plan<'r, 'a, C>>, Fault>
        requires { 0 < most }
        ensures { EqualOrMemory (λ groups. groups.items) result
            (Ok (plan_groups most self.entry)) }
    {
        dealt_out(alloc, self.options, self.outputs, most)
    }
}

/// The plans of outputs, dealt out in order to `most` each.
fn dealt_out<'r, 'a, C: Comparator>(
    alloc: Global,
    options: Options,
    outputs: Vec<PlannedOutput<'r, 'a>>,
    most: usize,
) -> Result<Vec<Plan<'r, 'a, C>>, Fault>
    requires some { 0 < most }
    requires limits { AreInLimits options }
    requires each { AllByRecursion
        (IsPlannedOutput (table C.cmp C.short_keys options) options) outputs.items }
    requires few { block_count outputs.items ≤ MAX_BLOCKS }
    ensures { EqualOrMemory (λ groups. groups.items) result
        (Ok (plan_groups most
        (record { options = options; outputs = map planned_of outputs.entry.items }))) }
{
    let mut groups = Vec::new(alloc);
    let mut latest = Vec::new(alloc);
    for output in outputs {
        latest.push(output)?;
        if latest.len() >= most {
            let full = mem::replace(&mut latest, Vec::new(alloc));
            push_group(alloc, options, full, &mut groups)?;
        }
    }
    if !latest.is_empty() {
        push_group(alloc, options, latest, &mut groups)?;
    }
    Ok(groups)
}

/// Appends the plan with these outputs.
fn push_group<'r, 'a, C: Comparator>(
    alloc: Global,
    options: Options,
    outputs: Vec<PlannedOutput<'r, 'a>>,
    groups: &mut Vec<Plan<'r, 'a, C>>,
) -> Result<(), Fault>
    requires limits { AreInLimits options }
    requires each { AllByRecursion
        (IsPlannedOutput (table C.cmp C.short_keys options) options) outputs.items }
    requires few { block_count outputs.items ≤ MAX_BLOCKS }
    ensures ok { OnOk result (groups.new.items ≡ groups.old.items
        ++ record { options = options; outputs = map planned_of outputs.entry.items } ∷ []) }
    ensures memory { IfErr result (λ e. e ≡ fault Memory) }
{
    groups.push(plan_with(alloc, options, outputs)?)?;
    Ok(())
}
