//! The tables of a plan, each encoded when it is asked for.

use checks::SharedComparator;
use compact::Plan;
use folder::{Comparator, Fault, TableSource};
use std::alloc::Global;

/// The tables of a plan as a source.
#[derive(Drop)]
pub(crate) struct GroupTables<'p, C: Comparator + 'static> {
    pub plan: &'p Plan<'p, 'p, C>,
}

impl<'p, C: SharedComparator + 'static> TableSource for GroupTables<'p, C> {
    ghost use Rattle.reads.specs.Table.{table};
    ghost use Rattle.compact.specs.Plan.{plan_tables};

    ghost tables = { λ s. plan_tables (table C.cmp C.short_keys s.plan.now.options)
        s.plan.now.outputs };

    fn len(&self) -> usize {
        self.plan.len()
    }

    fn number(&self, place: usize) -> u64 {
        self.plan.output(place).number
    }

    fn table(&self, alloc: Global, place: usize) -> Result<(u64, Vec<u8>), Fault> {
        self.plan.table(alloc, place)
    }
}
