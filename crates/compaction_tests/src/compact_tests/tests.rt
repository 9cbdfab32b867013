//! Rows of the whole: each has one answer, for all ranges, numbers of workers and orders of jobs.

use crate::compact_tests::gates::Held;
use crate::compact_tests::refused_rows::REFUSED;
use crate::compact_tests::rows::{Answer, LISTED, Row, Run, WRITTEN};
use crate::compact_tests::tables::{A_F, U4_DELETED_U2};
use crate::tested_tables::{are_tables, inputs_after, keys_of};
use coding::Fault;
use compact::{Request, compact, matches_metadata};
use edit::Outcome;
use ikey::Bytewise;
use merge::add_cursor;
use pick::Inputs;
use split::{Range, Split};
use std::alloc::Global;
use std::process::Abort;
use std::test::*;
use std::thread::Threads;
use table::{Options, check};

/// The inputs of a row.
pub(crate) fn picked(rt: &impl Abort, alloc: Global, row: &Row) -> Inputs {
    let mut picked = inputs_after(rt, alloc, row.files, row.from);
    picked.level = row.level;
    picked.files.truncate(row.tables.len());
    picked
}

/// The request of a row over these inputs.
pub(crate) fn asked<'x>(row: &Row, picked: &'x Inputs) -> Request<'x> {
    Request {
        picked,
        tables: row.tables,
        snapshots: row.snapshots,
        first_number: row.first_number,
        log_number: 3,
        previous_log: 0,
        last_sequence: row.last_sequence,
        options: Options {
            block_size: row.block_size,
            restart_interval: 16,
            file_size: row.file_size,
        },
    }
}

/// What a compaction answers.
fn answer_of<R: Threads + Sync + Abort>(
    rt: &R,
    alloc: Global,
    row: &Row,
    (parting, workers): Run,
    gate: &Held,
) -> Result<Outcome, Fault> {
    let picked = picked(rt, alloc, row);
    let split = Split::from_keys(keys_of(rt, alloc, parting)).expect(rt, "a split");
    compact::<Bytewise, Held, R>(rt, alloc, &asked(row, &picked), &split, workers, gate)
}

/// Whether an answer is this one.
fn is_answer(answer: &Result<Outcome, Fault>, wanted: Answer) -> bool {
    match (answer, wanted) {
        (Ok(outcome), Answer::Tables(tables, edit)) => {
            are_tables(&outcome.tables, tables)
                && (edit.is_empty() || outcome.edit.as_slice() == edit)
        }
        (Err(fault), Answer::Refused(name, input)) => *fault == Fault { name, input },
        _ => false,
    }
}

/// Whether a compaction has its answer in each run, and no job is let go too early.
fn has_answer<R: Threads + Sync + Abort>(rt: &R, alloc: Global, row: &Row) -> bool {
    for run in row.runs {
        let gate = Held::new(row.wait);
        if !is_answer(&answer_of(rt, alloc, row, *run, &gate), row.answer)
            || !gate.has_held(row.boards)
        {
            return false;
        }
    }
    true
}

/// How many cursors are made over the table of `a` and `f` for the range between two user keys.
fn cursors_over(rt: &impl Abort, alloc: Global, lower: &[u8], upper: &[u8]) -> usize {
    let table = check::<Bytewise>(alloc, A_F).expect(rt, "a table");
    let range = Range {
        lower: Some(lower),
        upper: Some(upper),
    };
    let mut cursors = Vec::new(alloc);
    add_cursor(alloc, &mut cursors, &table, range).expect(rt, "memory");
    cursors.len()
}

/// Whether a table is as the first file of a row states.
fn is_stated(rt: &impl Abort, alloc: Global, row: &Row, table: &[u8]) -> bool {
    let picked = picked(rt, alloc, row);
    let input = picked.files.first().expect(rt, "an input");
    let table = check::<Bytewise>(alloc, table).expect(rt, "a table");
    matches_metadata(&input.meta, &table)
}

#[test]
fn one_answer_over_ranges_and_workers(rt: HostRuntime) {
    for row in WRITTEN.iter().chain(LISTED).chain(REFUSED) {
        assert!(rt; has_answer(&rt, rt.alloc(), row), "{}", row.name);
    }
    assert!(rt;
        cursors_over(&rt, rt.alloc(), b"c", b"g") == 1
            && cursors_over(&rt, rt.alloc(), b"g", b"z") == 0
    );
    assert!(rt;
        is_stated(&rt, rt.alloc(), &WRITTEN[0], U4_DELETED_U2)
            && !is_stated(&rt, rt.alloc(), &WRITTEN[0], A_F)
    );
}
