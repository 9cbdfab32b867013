//! Bytes that were cut off, changed, or claim more than is there, and what each call that takes
//! bytes answers to them.
//!
//! What is answered is printed; `stdout`, above this folder, has what the formats say. The calls
//! over bytes that claim more than is there are also made while memory is short.

mod beginnings;
mod call;
mod claims;
mod rows;
mod source;

use crate::damage::beginnings::print_beginnings;
use crate::damage::call::Answer;
pub use crate::damage::claims::print_claims;
use crate::damage::rows::print_rows;
use anyhow::Result;
use std::thread::Threads;

/// Prints what a call answers to some bytes.
fn print_answer<R: Print>(rt: &R, words: &str, answer: Answer) -> Result<()> {
    match answer {
        Some(name) => println!(rt; "{words}: {name}")?,
        None => println!(rt; "{words}: accepted")?,
    }
    Ok(())
}

/// Makes the calls over bytes that claim no more than is there, and prints what they answer.
pub fn print_damage<R: AllocGlobal + Print + Threads + Sync>(rt: &R) -> Result<()> {
    print_beginnings(rt)?;
    print_rows(rt)
}
