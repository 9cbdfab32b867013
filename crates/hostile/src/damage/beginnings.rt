//! Each beginning of worked bytes, from that of no byte on, but not the whole.
//!
//! What is answered to them is printed with how many beginnings in turn it is answered to. The
//! formats say what is expected:
//!
//! - **Blocks.** A block ends with the number of its restarts, and that many restarts before it. In
//!   the worked block a number from 1 to 6 before three zeros is only at 5, 16 and 28. At 5 two
//!   restarts would not fit, at 16 the one restart would not be 0, and 28 ends the whole block. So
//!   none of its beginnings is a block. In the blocks of one entry such a number is at 5 and 17. At
//!   5 the one restart of the first would not be 0, and the two of the second would not fit; 17
//!   ends the whole. In that of both entries it is at 5, 18 and 30: at 5 and 18 the first restart
//!   would not be 0. In that of no entry it ends the whole.
//! - **Tables.** A table of fewer than 48 bytes is Short. One that does not end with the magic is
//!   Magic: no byte of the magic is 0, and each eight bytes of these tables have a 0, with two
//!   exceptions. These are the magic, and the last checksum with the handles after it, whose last
//!   byte is not the magic's.
//! - **Logs.** A log may end after each of its records. That of one empty record has one such place
//!   before its end. That of a record of 32,754 bytes and one of 1 byte has two, 0 and 32,761. A
//!   manifest of records of 52 and 8 bytes has 0 and 59. Each other beginning ends inside a record.
//! - **Edits.** An edit may end after each of its fields: those of 23 and 47 bytes at 0, 2, 4, 6, 8
//!   and 20, the longer one at 23 too. Each other beginning ends inside a field. One of two fields
//!   of two bytes may end at 0 and 2, one of a name alone at 0.
//! - **Folders.** CURRENT ends with a newline. A manifest without a record names no comparator. One
//!   that ends after its first record sets no counter.

use crate::damage::call::Call::{Block, Compact, Current, Decode, Manifest, Records, Table};
use crate::damage::call::{Answer, Call, answer};
use crate::damage::source::Source;
use crate::damage::source::Source::{Plain, Sevens};
use crate::worked_bytes::{
    BLOCK, BOTH_ENTRIES, CURRENT_FIVE, DELETION_LEFT, EMPTY_LOG, EMPTY_SNAPSHOT, FIRST_BLOCK,
    MANIFEST, NO_ENTRY, NOTHING_LEFT, SECOND_BLOCK, TABLE, TABLE_THREE_BLOCKS, TABLE_U_DELETED,
    TABLE_U_TWICE, TWO_LOGS,
};
use anyhow::Result;
use coding::Fault;
use std::thread::Threads;

/// What is cut off, and the words for it.
const BEGINNINGS: &[(&str, Call, Source)] = &[
    ("block", Block, Plain(BLOCK)),
    ("block of a", Block, Plain(FIRST_BLOCK)),
    ("block of b", Block, Plain(SECOND_BLOCK)),
    ("block of both", Block, Plain(BOTH_ENTRIES)),
    ("block of no entry", Block, Plain(NO_ENTRY)),
    ("table", Table, Plain(TABLE)),
    ("table of two entries", Table, Plain(TABLE_U_TWICE)),
    ("table of a deletion", Table, Plain(TABLE_U_DELETED)),
    ("table of three blocks", Table, Plain(TABLE_THREE_BLOCKS)),
    ("input", Compact, Plain(TABLE)),
    ("log of an empty record", Records, Plain(EMPTY_LOG)),
    (
        "log over a block's end",
        Records,
        Sevens(
            b"\xb6d\x5c\x18\xf2\x7f\x01",
            32_754,
            b"dQ\xd0\xe9\0\0\x02,t\x1b\xd8\x01\0\x04x",
        ),
    ),
    ("edit of no output", Decode, Plain(NOTHING_LEFT)),
    ("edit of one output", Decode, Plain(DELETION_LEFT)),
    ("edit of two log numbers", Decode, Plain(TWO_LOGS)),
    ("edit of a name", Decode, Plain(EMPTY_SNAPSHOT)),
    ("CURRENT", Current, Plain(CURRENT_FIVE)),
    ("manifest", Manifest, Plain(MANIFEST)),
];

/// An answer, and how many times in turn it came.
#[derive(Drop)]
struct Turns {
    answer: Answer,
    times: u64,
}

/// What a call answers to the beginnings of some bytes.
fn turns_of<R: AllocGlobal + Threads + Sync>(
    rt: &R,
    call: Call,
    bytes: &[u8],
) -> Result<Vec<Turns>, Fault> {
    let mut turns: Vec<Turns> = Vec::new(rt.alloc());
    for len in 0..bytes.len() {
        let given = answer(rt, call, &bytes[..len]);
        match turns.last_mut() {
            Some(last) if last.answer == given => last.times = last.times.saturating_add(1),
            _ => turns.push(Turns {
                answer: given,
                times: 1,
            })?,
        }
    }
    Ok(turns)
}

/// Prints what a call answers to the beginnings of some bytes.
fn print_turns<R: Print>(rt: &R, words: &str, turns: &[Turns]) -> Result<()> {
    print!(rt; "{words}, cut off:")?;
    for turn in turns {
        let times = turn.times;
        match turn.answer {
            Some(name) => print!(rt; " {name} {times}")?,
            None => print!(rt; " accepted {times}")?,
        }
    }
    println!(rt; "")?;
    Ok(())
}

/// Makes the calls over each beginning, and prints what they answer.
pub fn print_beginnings<R: AllocGlobal + Print + Threads + Sync>(rt: &R) -> Result<()> {
    for (words, call, source) in BEGINNINGS {
        let bytes = source.bytes(rt.alloc())?;
        let turns = turns_of(rt, *call, &bytes)?;
        print_turns(rt, words, &turns)?;
    }
    Ok(())
}
