//! Ranges merged, outputs planned, encoded and joined, boards and splits.

ghost use Rattle.std.specs.Prelude.{◌≡◌, map, IfOk};
ghost use Rattle.cut.specs.Plan.{encoded_blocks};
ghost use Rattle.cut.specs.OutputPlan.{lists_in};

use crate::boards::{are_worked, is_closed};
use crate::case::{are_outputs as are_tables, picked, three_ranges};
use crate::cases::{DELETION, FOUR_BLOCKS, SMALLEST};
use crate::cursors::{Left, are_left, cursors_over};
use crate::fault::{is_memory, wanted};
use crate::refusals::{allow, forbid};
use crate::worked_bytes::{TABLE_ABC, TABLE_ABCD, TABLE_ABCDE, TABLE_ACF, TABLE_BD, TABLE_E};
use board::Board;
use coding::{Fault, FaultName};
use cut::{Plan, plan};
use ikey::Bytewise;
use keep::{RangeRun, largest_rise, merge_range};
use pick::{Inputs, is_base};
use split::Split;
use std::alloc::Global;
use table::{SoundTable, TableCursor, check};

/// The run of a split's first range over a table, with all sequences from 1 on readable.
fn first_run_of<'a>(
    alloc: Global,
    bytes: &'a [u8],
    split: &Split<Bytewise>,
    inputs: &Inputs,
) -> Result<RangeRun<'a>, Fault> {
    if !largest_rise::<Bytewise>(&inputs.grandparents) {
        return Err(Fault::of(FaultName::Options));
    }
    let mut cursors = cursors_over(alloc, &[bytes])?;
    merge_range::<Bytewise, _>(alloc, &mut cursors, split.range(0), &[], 1, inputs)
}

/// The run of the one range over a table.
fn run_of<'a>(alloc: Global, bytes: &'a [u8]) -> Result<RangeRun<'a>, Fault> {
    let inputs = picked(alloc, DELETION)?;
    let split = Split::<Bytewise>::from_keys(Vec::new(alloc))?;
    first_run_of(alloc, bytes, &split, &inputs)
}

/// The run of the one range over a table, as the runs of all ranges.
fn runs_of<'a>(alloc: Global, bytes: &'a [u8]) -> Result<Vec<RangeRun<'a>>, Fault> {
    let run = run_of(alloc, bytes)?;
    let mut runs = Vec::new(alloc);
    runs.push(run)?;
    Ok(runs)
}

/// What the merge from `c` to `f` leaves of two tables.
const MERGED: &[Left<'static>] = &[(b"bd", b""), (b"acf", b"f")];

/// Whether the second of three ranges keeps two entries of these cursors, and each of them has left
/// what is after the range.
fn is_range_merged(
    alloc: Global,
    cursors: &mut Vec<TableCursor<'_, Bytewise>>,
    split: &Split<Bytewise>,
    inputs: &Inputs,
) -> Result<bool, Fault> {
    forbid(alloc);
    let are_ruled = is_base::<Bytewise>(inputs, b"s") && !is_base::<Bytewise>(inputs, b"u");
    if !are_ruled || split.len() != 3 || !largest_rise::<Bytewise>(&inputs.grandparents) {
        return Ok(false);
    }
    let range = split.range(1);
    allow(alloc);
    let answer = merge_range::<Bytewise, _>(alloc, cursors, range, &[], 1, inputs);
    wanted(are_left(alloc, cursors, MERGED, is_memory(&answer))?)?;
    Ok(answer?.len() == 2)
}

/// Two tables, merged from `c` to `f`.
pub fn range_merged(alloc: Global) -> Result<bool, Fault> {
    let inputs = picked(alloc, DELETION)?;
    let split = three_ranges(alloc)?;
    let mut cursors = cursors_over(alloc, &[TABLE_BD, TABLE_ACF])?;
    is_range_merged(alloc, &mut cursors, &split, &inputs)
}

/// Whether the outputs of a plan have 114 bytes each, and numbers from 5 on. No memory is taken.
fn are_outputs(alloc: Global, plan: &Plan<'_, '_, Bytewise>) -> bool {
    forbid(alloc);
    for place in 0..plan.len() {
        let output = plan.output(place);
        if output.len != 114 || output.number != (place as u64).saturating_add(5) {
            return false;
        }
    }
    let are_all = plan.len() == 3 && plan.jobs() == 3;
    allow(alloc);
    are_all
}

/// The data blocks of a plan, each with its trailer, in order.
fn encoded(alloc: Global, plan: &Plan<'_, '_, Bytewise>) -> Result<Vec<Vec<u8>>, Fault>
    ensures { IfOk result (λ blocks. map (λ b. b.items) blocks.items
        ≡ encoded_blocks plan.now.options (lists_in plan.now.outputs)) }
{
    let mut blocks = Vec::new(alloc);
    for job in 0..plan.jobs() {
        let block = plan.encode(alloc, job)?;
        blocks.push(block)?;
    }
    Ok(blocks)
}

/// Whether these are `count` data blocks of 26 bytes each.
fn are_blocks(blocks: &[Vec<u8>], count: usize) -> bool {
    let mut are_right = blocks.len() == count;
    for block in blocks {
        are_right = are_right && block.len() == 26;
    }
    are_right
}

/// Whether the plan of runs of three entries, each a block and an output, is right, and its data
/// blocks have 26 bytes each.
fn is_planned(alloc: Global, runs: &[RangeRun<'_>]) -> Result<bool, Fault> {
    let plan = plan::<Bytewise>(alloc, runs, &[], SMALLEST, 5)?;
    let blocks = encoded(alloc, &plan)?;
    Ok(are_blocks(&blocks, 3) && are_outputs(alloc, &plan))
}

/// Whether the plan of runs of five entries, each a block, and four blocks an output, has data
/// blocks of 26 bytes each, which are joined to these two tables.
fn is_joined(alloc: Global, runs: &[RangeRun<'_>]) -> Result<bool, Fault> {
    let plan = plan::<Bytewise>(alloc, runs, &[], FOUR_BLOCKS, 5)?;
    let blocks = encoded(alloc, &plan)?;
    let are_right = are_blocks(&blocks, 5);
    let tables = plan.assemble(alloc, blocks)?;
    Ok(are_right && are_tables(&tables, &[(5, TABLE_ABCD), (6, TABLE_E)]))
}

/// Five entries, merged in one range, planned and joined as two outputs.
pub fn joined(alloc: Global) -> Result<bool, Fault> {
    let runs = runs_of(alloc, TABLE_ABCDE)?;
    is_joined(alloc, &runs)
}

/// Three entries, merged in one range and planned as three outputs.
pub fn planned(alloc: Global) -> Result<bool, Fault> {
    let runs = runs_of(alloc, TABLE_ABC)?;
    is_planned(alloc, &runs)
}

/// Two ranges, chosen from four index keys: the boundary is the third.
pub fn chosen(alloc: Global) -> Result<bool, Fault> {
    let table = check::<Bytewise>(alloc, TABLE_ABCD)?;
    if !is_from_a_to_d(alloc, &table) {
        return Ok(false);
    }
    let tables = [table];
    let split = Split::choose(alloc, &tables, 2)?;
    Ok(split.len() == 2 && split.range(0).upper == Some(b"c".as_slice()))
}

/// Whether a table has the keys from `a` to `d`. It takes no memory.
fn is_from_a_to_d(alloc: Global, table: &SoundTable<'_, Bytewise>) -> bool {
    forbid(alloc);
    let is_right = table.bytes() == TABLE_ABCD
        && table.smallest().user() == b"a".as_slice()
        && table.largest().user() == b"d".as_slice();
    allow(alloc);
    is_right
}

/// A board of five jobs and five seats, on which jobs are done, failed and skipped. Only the board
/// itself takes memory.
pub fn seated(alloc: Global) -> Result<bool, Fault> {
    let (board, mut seats) = Board::new(alloc, 5, 5)?;
    forbid(alloc);
    let is_right = are_worked(&board, &mut seats) && is_closed(board, seats);
    allow(alloc);
    Ok(is_right)
}
