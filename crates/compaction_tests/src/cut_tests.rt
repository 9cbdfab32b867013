//! The plan of three outputs, with their lengths and their bytes. Rows of `compact_tests` have more
//! outputs.

ghost use Rattle.std.specs.Prelude.{◌≡◌, ◌<◌, length, map, IfOk};
ghost use Rattle.cut.specs.Plan.{encoded_blocks};
ghost use Rattle.cut.specs.OutputPlan.{lists_in};

use crate::compact_tests::tables::{A, B, C, C_DELETED};
use crate::tested_tables::{are_tables, inputs_after, push_cursors};
use coding::Fault;
use cut::{Plan, plan};
use ikey::Bytewise;
use keep::{RangeRun, is_rising, largest_rise, merge_range};
use pick::Inputs;
use split::Range;
use std::alloc::Global;
use std::process::Abort;
use std::test::*;
use table::Options;

/// `table: a@1 put x, b@2 put x, c@3 put x`
const A_B_C: &[u8] = b"\
    \0\x09\x01a\x01\x01\0\0\0\0\0\0x\0\x09\x01b\x01\x02\0\0\0\0\0\0x\0\x09\x01c\x01\x03\0\0\0\0\0\
    \0x\0\0\0\0\x01\0\0\0\0\x08\xf6\x9dZ\0\0\0\0\x01\0\0\0\0\xc0\xf2\xa1\xb0\0\x09\x02c\x01\x03\0\
    \0\0\0\0\0\0\x2f\0\0\0\0\x01\0\0\0\0\x7d\x1e\xbd\xa84\x08A\x16\0\0\0\0\0\0\0\0\0\0\0\0\0\0\0\0\
    \0\0\0\0\0\0\0\0\0\0\0\0\0\0\0\0\0\0\0\0W\xfb\x80\x8b\x24uG\xdb";

/// File 7 of level 0, from `a` at 1 to `c` at 3, without grandparents. `edit: file 0 7 140 a@1 put
/// .. c@3 put`
const ALONE: &[u8] = b"\x07\0\x07\x8c\x01\x09a\x01\x01\0\0\0\0\0\0\x09c\x01\x03\0\0\0\0\0\0";

/// The ranges in which the entries are merged.
const AT_C: &[Range<'static>] = &[
    Range {
        lower: None,
        upper: Some(b"c"),
    },
    Range {
        lower: Some(b"c"),
        upper: None,
    },
];

/// Each entry is a block and an output.
const SMALLEST: Options = Options {
    block_size: 1,
    restart_interval: 16,
    file_size: 1,
};

/// The last sequence, to which all is kept.
const LAST: u64 = 9;

/// An output: its number and its table.
type Output = (u64, &'static [u8]);

/// The outputs of the plan of three entries: each has one block.
const OUTPUTS: &[Output] = &[(5, A), (6, B), (7, C)];

/// The length of a data block of one entry, with its trailer.
const BLOCK_LEN: usize = 26;

/// The run of a table in a range.
fn run_of<'a>(
    rt: &impl Abort,
    alloc: Global,
    table: &'a [u8],
    range: Range<'_>,
    inputs: &Inputs,
) -> RangeRun<'a> {
    assert!(rt; is_rising(&[]) && largest_rise::<Bytewise>(&inputs.grandparents));
    let mut cursors = Vec::new(alloc);
    push_cursors(rt, alloc, &mut cursors, &[table]);
    merge_range::<Bytewise, _>(alloc, &mut cursors, range, &[], LAST, inputs).expect(rt, "a run")
}

/// The runs of a table in both ranges.
fn runs_of<'a>(
    rt: &impl Abort,
    alloc: Global,
    table: &'a [u8],
    inputs: &Inputs,
) -> Vec<RangeRun<'a>> {
    let mut runs = Vec::new(alloc);
    for range in AT_C {
        runs.push(run_of(rt, alloc, table, *range, inputs))
            .expect(rt, "memory");
    }
    runs
}

/// The data blocks of a plan, each with its trailer, in order.
fn encoded(alloc: Global, plan: &Plan<'_, '_, Bytewise>) -> Result<Vec<Vec<u8>>, Fault>
    ensures { IfOk result (λ blocks. map (λ b. b.items) blocks.items
        ≡ encoded_blocks plan.now.options (lists_in plan.now.outputs)) }
{
    let mut blocks = Vec::new(alloc);
    for job in 0..plan.jobs() {
        let block = plan.encode(alloc, job)?;
        blocks.push(block)?;
    }
    Ok(blocks)
}

/// Whether each data block is that with which the output of its number begins.
fn are_blocks(blocks: &[Vec<u8>], outputs: &[Output]) -> bool {
    for (block, output) in blocks.iter().zip(outputs) {
        if block.len() != BLOCK_LEN || !output.1.starts_with(block) {
            return false;
        }
    }
    blocks.len() == outputs.len()
}

/// Whether the output at `place` is told and made as this one.
fn is_output(
    rt: &impl Abort,
    alloc: Global,
    plan: &Plan<'_, '_, Bytewise>,
    place: usize,
    output: Output,
) -> bool
    requires { place < length plan.now.outputs }
{
    let (number, bytes) = plan.table(alloc, place).expect(rt, "memory");
    let meta = plan.output(place);
    (meta.number, meta.entries, meta.blocks, meta.len) == (output.0, 1, 1, output.1.len() as u64)
        && (plan.block_end(place, 0), plan.block_end(place, 1)) == (Some(1), None)
        && number == output.0
        && bytes.as_slice() == output.1
}

/// Whether a plan has these outputs, one by one.
fn are_outputs(
    rt: &impl Abort,
    alloc: Global,
    plan: &Plan<'_, '_, Bytewise>,
    outputs: &[Output],
) -> bool {
    for place in 0..plan.len() {
        if place >= outputs.len() || !is_output(rt, alloc, plan, place, outputs[place]) {
            return false;
        }
    }
    plan.len() == outputs.len() && plan.is_empty() == outputs.is_empty()
}

/// Whether the data blocks of a plan are those of its outputs, and make their tables.
fn has_blocks(
    rt: &impl Abort,
    alloc: Global,
    plan: &Plan<'_, '_, Bytewise>,
    outputs: &[Output],
) -> Result<bool, Fault> {
    let blocks = encoded(alloc, plan)?;
    let are_right = are_blocks(&blocks, outputs);
    let tables = plan.assemble(alloc, blocks).expect(rt, "memory");
    Ok(are_right && are_tables(&tables, outputs))
}

/// Whether the plan of a table has these outputs.
fn is_planned(rt: &impl Abort, alloc: Global, table: &[u8], outputs: &[Output]) -> bool {
    assert!(rt; SMALLEST.are_in_limits());
    let inputs = inputs_after(rt, alloc, ALONE, 0);
    let runs = runs_of(rt, alloc, table, &inputs);
    let files = &inputs.grandparents;
    let plan = plan::<Bytewise>(alloc, &runs, files, SMALLEST, 5).expect(rt, "a plan");
    are_outputs(rt, alloc, &plan, outputs) && has_blocks(rt, alloc, &plan, outputs) == Ok(true)
}

#[test]
fn plans_and_their_tables(rt: HostRuntime) {
    assert!(rt; is_planned(&rt, rt.alloc(), A_B_C, OUTPUTS));
    // A deletion is dropped, and no output is left.
    assert!(rt; is_planned(&rt, rt.alloc(), C_DELETED, &[]));
}
