//! Each row's calls with one request refused, by each number of a request, until none is refused.
//!
//! Each answer has to be `Memory` or the row's. After a refusal the calls are made once more with
//! memory to spare, and have to have the row's answer. The calls of one thread have to give back
//! all memory that they took. Without the library that refuses, all is made once.

use crate::builders::{block_built, edited, logged, table_built};
use crate::case::{Case, carried, is_answer, picked, three_ranges};
use crate::cursors::{block_walked, merged, sought, table_walked};
use crate::fault::{is_memory, wanted};
use crate::folders::{are_loaded, folder_asked, is_installed};
use crate::holding_gate::{Held, Wait, Wanting};
use crate::numbers::numbers_read;
use crate::plans::{chosen, joined, planned, range_merged, seated};
use crate::refusals::{Order, has_as_many, refuse, was_refused};
use crate::rows::{Compaction, Row, Workers};
use anyhow::Result;
use coding::{Fault, FaultName};
use ikey::Bytewise;
use pick::Inputs;
use split::Split;
use std::alloc::Global;
use std::sync::atomic::Ordering;
use std::thread::Threads;

/// More requests than a row makes.
const MOST: u64 = 100_000;

/// The most turns for which a job is held.
const TURNS: u64 = 1_000_000;

/// The same if a request of any job may be refused. It is less, since then there may be no second
/// worker.
const FEW_TURNS: u64 = 1_000;

/// A compaction with its inputs and ranges.
#[derive(Drop)]
struct Asked<'x> {
    case: &'static Case,
    workers: Workers,
    picked: &'x Inputs,
    split: &'x Split<Bytewise>,
}

/// What is called, with what is made once for all tries.
#[derive(Drop)]
enum Tried<'x> {
    Row(Row),
    Asked(&'x Asked<'x>),
}

/// What is refused of a compaction by its workers.
fn order_of(workers: Workers, number: u64) -> Order {
    match workers {
        Workers::Free | Workers::Held => Order::Request(number),
        Workers::Fewer => Order::Threads(number),
        // The gate tells it.
        Workers::FirstWants | Workers::LastWants => Order::Nothing,
    }
}

/// Has something refused, by its number. With 0 nothing is.
fn begin(alloc: Global, tried: &Tried<'_>, number: u64) {
    let order = match tried {
        _ if number == 0 => Order::Nothing,
        Tried::Row(_) => Order::Request(number),
        Tried::Asked(asked) => order_of(asked.workers, number),
    };
    refuse(alloc, &order);
}

/// The gate of a compaction of which something is refused by its number.
fn gate_of(alloc: Global, workers: Workers, number: u64) -> Held {
    let turns = if number == 0 { TURNS } else { FEW_TURNS };
    match workers {
        Workers::Free | Workers::Fewer => Held::new(alloc, None, None),
        Workers::Held => Held::new(alloc, Some(wait_of(0, 2, turns)), None),
        Workers::FirstWants => Held::new(
            alloc,
            Some(wait_of(0, 2, TURNS)),
            Some(Wanting { job: 0, number }),
        ),
        Workers::LastWants => Held::new(
            alloc,
            Some(wait_of(2, 5, TURNS)),
            Some(Wanting { job: 5, number }),
        ),
    }
}

/// A job that is held until another one has ended.
fn wait_of(held: u64, awaited: u64, turns: u64) -> Wait {
    Wait {
        held,
        awaited,
        turns,
    }
}

/// Whether the held job waited until the other one had ended, if there is a second worker.
fn has_waited(workers: Workers, number: u64, gate: &Held) -> bool {
    match workers {
        Workers::Held if number > 0 => true,
        _ => gate.given_up.load(Ordering::SeqCst) == 0,
    }
}

/// Whether a compaction has its answer.
fn is_compacted<R: AllocGlobal + Threads + Sync>(
    rt: &R,
    asked: &Asked<'_>,
    number: u64,
) -> Result<bool, Fault> {
    let gate = gate_of(rt.alloc(), asked.workers, number);
    let answer = carried(
        rt,
        asked.case,
        asked.picked,
        asked.case.tables,
        asked.split,
        &gate,
    );
    wanted(has_waited(asked.workers, number, &gate))?;
    is_answer(asked.case, answer)
}

/// Whether a row has its answer.
fn is_right<R: AllocGlobal + Threads + Sync>(rt: &R, row: Row) -> Result<bool, Fault> {
    let alloc = rt.alloc();
    match row {
        Row::Numbers => numbers_read(alloc),
        Row::Block => block_built(alloc),
        Row::Table => table_built(alloc),
        Row::Cursor => table_walked(alloc),
        Row::Merging => merged(alloc),
        Row::Seek => sought(alloc),
        Row::Range => range_merged(alloc),
        Row::Log => logged(alloc),
        Row::Edit => edited(alloc),
        Row::Plan => planned(alloc),
        Row::Join => joined(alloc),
        Row::Split => chosen(alloc),
        Row::Board => seated(alloc),
        Row::BlockCursor => block_walked(alloc),
        Row::Folder => folder_asked(rt),
        Row::Load => are_loaded(alloc),
        Row::Install => is_installed(rt),
    }
}

/// Whether what is called has its answer, while something is refused by its number.
fn has_answer<R: AllocGlobal + Threads + Sync>(
    rt: &R,
    tried: &Tried<'_>,
    number: u64,
) -> Result<bool, Fault> {
    match tried {
        Tried::Row(row) => is_right(rt, *row),
        Tried::Asked(asked) => is_compacted(rt, asked, number),
    }
}

/// Whether an answer is right although something was refused.
fn is_accepted(tried: &Tried<'_>, answer: &Result<bool, Fault>) -> bool {
    let has_answer = matches!(answer, Ok(true));
    match tried {
        Tried::Row(_) => has_answer || is_memory(answer),
        Tried::Asked(asked) => match asked.workers {
            Workers::Free | Workers::Held => has_answer || is_memory(answer),
            Workers::Fewer | Workers::LastWants => has_answer,
            Workers::FirstWants => is_memory(answer),
        },
    }
}

/// Whether memory is counted: of calls of one thread. A thread that has ended leaves some to the C
/// library.
fn is_counted(tried: &Tried<'_>) -> bool {
    !matches!(tried, Tried::Row(Row::Folder) | Tried::Asked(_))
}

/// Makes the calls while something is refused by its number. If something was, makes them again.
/// Whether something was refused. Lawless if an answer is not right, or memory was lost.
fn try_refused<R: AllocGlobal + Threads + Sync>(
    rt: &R,
    tried: &Tried<'_>,
    number: u64,
) -> Result<bool, Fault> {
    let alloc = rt.alloc();
    begin(alloc, tried, number);
    let answer = has_answer(rt, tried, number);
    wanted(!is_counted(tried) || has_as_many(alloc))?;
    if !was_refused(alloc) {
        wanted(answer?)?;
        return Ok(false);
    }
    wanted(is_accepted(tried, &answer))?;
    wanted(has_answer(rt, tried, 0)?)?;
    Ok(true)
}

/// Makes the calls with each number, until nothing is refused. How many times something was.
fn refused_in_turn<R: AllocGlobal + Threads + Sync>(
    rt: &R,
    tried: &Tried<'_>,
) -> Result<u64, Fault> {
    for count in 0..MOST {
        if !try_refused(rt, tried, count.saturating_add(1))? {
            return Ok(count);
        }
    }
    Err(Fault::of(FaultName::Lawless))
}

/// The same of a compaction, over inputs and ranges that are made once.
fn case_refused<R: AllocGlobal + Threads + Sync>(
    rt: &R,
    case: &'static Case,
    workers: Workers,
) -> Result<u64, Fault> {
    let picked = picked(rt.alloc(), case)?;
    let split = three_ranges(rt.alloc())?;
    let asked = Asked {
        case,
        workers,
        picked: &picked,
        split: &split,
    };
    refused_in_turn(rt, &Tried::Asked(&asked))
}

/// Prints the words for some calls, and how many times something was refused. Lawless if nothing
/// was although it `is_refused`: the calls are those after the last line.
fn print_count<R: Print>(rt: &R, words: &str, count: u64, is_refused: bool) -> Result<()> {
    wanted(!is_refused || count > 0)?;
    if count > 0 {
        println!(rt; "{words}: {count} refused")?;
    } else {
        println!(rt; "{words}")?;
    }
    Ok(())
}

/// Tests each row, and prints it.
pub fn run_rows<R: AllocGlobal + Print + Threads + Sync>(
    rt: &R,
    rows: &[(Row, &str)],
    is_refused: bool,
) -> Result<()> {
    for (row, words) in rows {
        let count = refused_in_turn(rt, &Tried::Row(*row))?;
        print_count(rt, words, count, is_refused)?;
    }
    Ok(())
}

/// Tests each compaction, and prints it.
pub fn run_compactions<R: AllocGlobal + Print + Threads + Sync>(
    rt: &R,
    rows: &[Compaction],
    is_refused: bool,
) -> Result<()> {
    for (case, workers, words) in rows {
        let count = case_refused(rt, *case, *workers)?;
        print_count(rt, words, count, is_refused)?;
    }
    Ok(())
}
