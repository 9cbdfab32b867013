//! The program `hostile`: bytes that lie, memory and threads that are refused, and calls that take
//! no memory, over the calls of the library that take bytes or memory. In the end a store has one
//! compaction made, as `docs/EMBEDDING.md` shows it.
//!
//! Without a word it makes all calls, with memory to spare. With the word `refused` it makes, while
//! the library of `tests/refuse.c` refuses, in this order:
//!
//! 1. a compaction while threads can't be started, from each number of a thread on;
//! 2. the calls that take memory, while one request is refused, by its number, and compactions
//!    (`rows.rt`, `refused_requests.rt`);
//! 3. the calls over bytes whose lengths exceed what is there, with memory for little more than the
//!    bytes: 32 bytes for each of them and 4,096.
//!
//! The case `tests/cases/refused_requests` runs it so.
#![tactic(auto)]

mod boards;
mod builders;
mod case;
mod cases;
mod cursors;
mod damage;
mod embedding;
mod fault;
mod folders;
mod holding_gate;
mod numbers;
mod plans;
mod refusals;
mod refused_requests;
mod requests;
mod rows;
mod worked_bytes;

use crate::damage::{print_claims, print_damage};
use crate::embedding::embed;
use crate::fault::wanted;
use crate::refusals::is_there;
use anyhow::Result;
use refused_requests::{run_compactions, run_rows};
use requests::REQUESTS;
use rows::{COMPACTIONS, GROWTHS, THREADS};
use std::env;
use std::env::Env;
use std::thread::Threads;

/// Makes the calls of which something is refused, if `is_refused`, and prints each row.
fn run_refused<R: AllocGlobal + Print + Threads + Sync>(rt: &R, is_refused: bool) -> Result<()> {
    println!(rt; "A compaction by four workers:")?;
    run_compactions(rt, THREADS, is_refused)?;
    println!(rt; "Calls that take memory:")?;
    run_rows(rt, GROWTHS, is_refused)?;
    run_compactions(rt, COMPACTIONS, is_refused)?;
    println!(rt; "Bytes that claim more than is there:")?;
    print_claims(rt, is_refused)
}

/// Makes the other calls over bytes, refused compactions, and the example, and prints what each
/// answers.
fn run_hostile<R: AllocGlobal + Print + Threads + Sync>(rt: &R) -> Result<()> {
    println!(rt; "Other bytes:")?;
    print_damage(rt)?;
    println!(rt; "Requests:")?;
    run_compactions(rt, REQUESTS, false)?;
    println!(rt; "A store's compaction:")?;
    embed(rt)
}

/// Reads the word, and makes the calls that it names.
fn main(rt: HostRuntime) -> Result<()> {
    let mut words = env::args(&rt)?;
    let _program = words.next();
    if let Some(word) = words.next() {
        wanted(word.as_str() == "refused" && is_there(rt.alloc()))?;
        return run_refused(&rt, true);
    }
    run_refused(&rt, false)?;
    run_hostile(&rt)
}
