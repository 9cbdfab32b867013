//! The outputs of a compaction in groups, none of which is encoded.

ghost use Rattle.std.specs.Prelude.{◌≡◌, ◌<◌, ◌≤◌, ◌++◌, length, slice_get, Some, Ok, OnOk};
ghost use Rattle.std.specs.Prelude.{IfErr, flat_map};
ghost use Rattle.ikey.specs.Answers.{EqualOrMemory, fault};
ghost use Rattle.ikey.specs.fault.FaultName.TheVariants.{Memory};
ghost use Rattle.table.specs.Table.{table};
ghost use Rattle.cut.specs.Plan.{plan_tables};
ghost use Rattle.compact.specs.GroupedAnswer.{joined_answer, table_sizes};
ghost use Rattle.board.specs.declared.limits.TheConstants.{MAX_WORKERS};

use cut::Plan;
use ikey::{Comparator, Fault};
use std::alloc::Global;
use std::marker::Model;

/// The most tables of a group. Why not all: a folder may keep the files of a group open until it
/// syncs them.
pub const MAX_TABLES: usize = 256;

/// The planned outputs of a compaction in groups, and the bytes of its edit. Contracts see the
/// tables of each group.
#[derive(Drop)]
pub struct Planned<'m, 't, C: Comparator> {
    pub(crate) groups: Vec<Plan<'m, 't, C>>,
    pub(crate) edit: Vec<u8>,
    pub(crate) workers: u64,
}

impl<'m, 't, C: Comparator> Model for Planned<'m, 't, C> {
    ghost use Rattle.compact.specs.GroupedAnswer.{GroupedAnswer};
    ghost use Rattle.compact.specs.MergedRequest.{AreWorkers, group_tables};

    ghost Value = { GroupedAnswer };

    ghost view = { λ p. record {
      groups = group_tables C.cmp C.short_keys p.groups.items;
      edit = p.edit.items;
    } };

    ghost invariant = { λ p. AreWorkers p.workers };
}

impl<'m, 't, C: Comparator> Planned<'m, 't, C> {
    /// The number of groups.
    pub fn len(&self) -> usize
        ensures { result ≡ length self.now.groups }
    {
        self.groups.len()
    }

    /// The bytes of the edit.
    pub fn edit(&self) -> &[u8]
        ensures { result.now ≡ self.now.edit }
    {
        &self.edit
    }

    /// The plan of the group at `place`.
    pub fn group(&self, place: usize) -> &Plan<'m, 't, C>
        requires { place < length self.now.groups }
        ensures { slice_get self.now.groups place
            ≡ Some (plan_tables (table C.cmp C.short_keys result.now.options) result.now.outputs) }
    {
        &self.groups[place]
    }

    /// How many workers the request was merged by, 1 to 64.
    pub fn workers(&self) -> u64
        ensures some { 1 ≤ result }
        ensures limited { result ≤ MAX_WORKERS }
    {
        self.workers
    }

    /// The number and the length of each table, in order. None is encoded.
    pub fn sizes(&self, alloc: Global) -> Result<Vec<(u64, u64)>, Fault>
        ensures { EqualOrMemory (λ sizes. sizes.items) result
            (Ok (table_sizes (joined_answer self.now).tables)) }
    {
        let mut sizes = Vec::new(alloc);
        for place in 0..self.groups.len() {
            let plan = &self.groups[place];
            push_sizes(plan, &mut sizes)?;
        }
        Ok(sizes)
    }
}

/// Appends the number and the length of each table of a plan.
fn push_sizes<C: Comparator>(
    plan: &Plan<'_, '_, C>,
    sizes: &mut Vec<(u64, u64)>,
) -> Result<(), Fault>
    ensures ok { OnOk result (sizes.new.items ≡ sizes.old.items
        ++ table_sizes (plan_tables (table C.cmp C.short_keys plan.now.options)
        plan.now.outputs)) }
    ensures memory { IfErr result (λ e. e ≡ fault Memory) }
{
    for place in 0..plan.len() {
        let output = plan.output(place);
        sizes.push((output.number, output.len))?;
    }
    Ok(())
}
