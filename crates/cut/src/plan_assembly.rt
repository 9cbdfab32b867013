//! The tables of a plan, joined of its encoded data blocks.
//!
//! They are in the order of their numbers, whatever the order in which workers encoded them. So the
//! first output has the first ones, as many as it has data blocks, and so on.

ghost use Rattle.std.specs.Prelude.{◌≡◌, take, drop, map, flat_map, IfOk, IfErr, Ok, OnOk};
ghost use Rattle.std.specs.List.{AllByRecursion};
ghost use Rattle.std.specs.Vec.Iter.{into_iter_items};
ghost use Rattle.coding.specs.Answers.{EqualOrMemory, fault};
ghost use Rattle.coding.specs.declared.fault.FaultName.TheVariants.{Memory};
ghost use Rattle.table.specs.Table.{index_keys};
ghost use Rattle.cut.specs.PlanTables.{IsReady, stored_each, tables_of};

use crate::planned_output::PlannedOutput;
use crate::table_assembly::close_table;
use coding::Fault;
use ikey::Comparator;
use std::alloc::Global;
use std::vec::IntoIter;

/// The number and the table of each output. `pieces` are their data blocks, each with its trailer.
pub(crate) fn assemble_all<C: Comparator>(
    alloc: Global,
    outputs: &[PlannedOutput<'_, '_>],
    interval: u64,
    pieces: Vec<Vec<u8>>,
) -> Result<Vec<(u64, Vec<u8>)>, Fault>
    requires ready { AllByRecursion (IsReady (index_keys C.cmp C.short_keys) interval) outputs.now }
    requires pieces { map (λ p. p.items) pieces.items ≡ stored_each interval outputs.now }
    ensures { EqualOrMemory (λ tables. map (λ t. (t.0, t.1.items)) tables.items) result
        (Ok (tables_of (index_keys C.cmp C.short_keys) interval outputs.now)) }
{
    let mut rest = pieces.into_iter();
    let mut tables = Vec::with_capacity(alloc, outputs.len())?;
    for output in outputs {
        let stored = join_front(alloc, &mut rest, output.blocks.len(), output.len as usize)?;
        let bytes = close_table::<C>(alloc, &output.blocks, interval, stored)?;
        tables.push((output.number, bytes))?;
    }
    Ok(tables)
}

/// Takes off the first `count` pieces, or all if there are fewer, and joins them. The memory has
/// room for `room` bytes from the start.
fn join_front(
    alloc: Global,
    rest: &mut IntoIter<Vec<u8>>,
    count: usize,
    room: usize,
) -> Result<Vec<u8>, Fault>
    ensures joined { IfOk result (λ v. v.items
        ≡ flat_map (λ p. p.items) (take count (into_iter_items rest.old))) }
    ensures left { OnOk result (into_iter_items rest.new ≡ drop count (into_iter_items rest.old)) }
    ensures memory { IfErr result (λ e. e ≡ fault Memory) }
{
    let mut joined = Vec::with_capacity(alloc, room)?;
    for _ in 0..count {
        let Some(piece) = rest.next() else {
            return Ok(joined);
        };
        joined.extend_from_slice(&piece)?;
    }
    Ok(joined)
}
