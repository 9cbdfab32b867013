//! Changed bytes of the worked table, and few bytes, each with an answer that its format gives.
//!
//! The table is that of `a` at 1 with the value `x`: data block at 0, metaindex block at 26, index
//! block at 39, footer at 66. If a change is mended, the checksum of its block is written anew.

use crate::damage::call::Call::{Block, Current, Decode, List, Manifest, Records, Table};
use crate::damage::call::{Call, answer};
use crate::damage::print_answer;
use crate::damage::source::Source;
use crate::damage::source::Source::{Changed, Plain};
use crate::worked_bytes::{CURRENT_FIVE, TABLE_FALLING};
use anyhow::Result;
use std::thread::Threads;

/// Bytes, and the words for them.
const ROWS: &[(&str, Call, Source)] = &[
    ("byte 70 is 01", List, Changed(70, b"\x01")),
    ("bytes 66, 67 are 8000", List, Changed(66, b"\x80\0")),
    ("byte 66 is 9a", List, Changed(66, b"\x9a")),
    ("bytes 68, 69 are 1a08", List, Changed(68, b"\x1a\x08")),
    ("byte 21 is 01", List, Changed(21, b"\x01")),
    (
        "byte 21 is 01, mended",
        List,
        Changed(21, b"\x01S\x01\x85v"),
    ),
    (
        "byte 21 is 02, mended",
        List,
        Changed(21, b"\x02\xb2\x1bm\xd6"),
    ),
    (
        "byte 43 is 02, mended, and byte 21 is 01",
        List,
        Changed(
            21,
            b"\x01\x84\xdd\x88t\0\0\0\0\x01\0\0\0\0\xc0\xf2\xa1\xb0\0\x09\x02a\x02\x01\0\0\0\0\0\0\
                \0\x15\0\0\0\0\x01\0\0\0\0\xf5\xad\x96\xfd",
        ),
    ),
    (
        "bytes 51, 52 are 1a08, mended",
        List,
        Changed(51, b"\x1a\x08\0\0\0\0\x01\0\0\0\0\x8c\x98\xf2\x9b"),
    ),
    (
        "byte 44 is 02, mended",
        List,
        Changed(44, b"\x02\0\0\0\0\0\0\0\x15\0\0\0\0\x01\0\0\0\0\0h\xdb\xb2"),
    ),
    (
        "byte 44 is 00, mended",
        List,
        Changed(44, b"\0\0\0\0\0\0\0\0\x15\0\0\0\0\x01\0\0\0\0d\x2bw\xbb"),
    ),
    ("the last byte is da", List, Changed(113, b"\xda")),
    ("block of no bytes", Block, Plain(b"")),
    ("block 00000000", Block, Plain(b"\0\0\0\0")),
    ("block 0000000000000000", Block, Plain(b"\0\0\0\0\0\0\0\0")),
    ("table of no bytes", Table, Plain(b"")),
    ("table of b before a", Table, Plain(TABLE_FALLING)),
    ("log of no bytes", Records, Plain(b"")),
    ("log 052b28430000", Records, Plain(b"\x05\x2b\x28C\0\0")),
    (
        "log 052b2843000002",
        Records,
        Plain(b"\x05\x2b\x28C\0\0\x02"),
    ),
    ("log 6451d0e9000002", Records, Plain(b"dQ\xd0\xe9\0\0\x02")),
    ("log of seven zeros", Records, Plain(b"\0\0\0\0\0\0\0")),
    ("edit of no bytes", Decode, Plain(b"")),
    ("edit 08", Decode, Plain(b"\x08")),
    ("edit 0a", Decode, Plain(b"\x0a")),
    ("edit 0280", Decode, Plain(b"\x02\x80")),
    ("edit 820003", Decode, Plain(b"\x82\0\x03")),
    ("edit 060701", Decode, Plain(b"\x06\x07\x01")),
    ("edit 0101ff", Decode, Plain(b"\x01\x01\xff")),
    ("CURRENT without its manifest", Current, Plain(CURRENT_FIVE)),
    (
        "manifest without a number",
        Manifest,
        Plain(b"V\xf9\xb8\xf8\x1c\0\x01\x01\x1aleveldb.BytewiseComparator"),
    ),
];

/// Makes the calls, and prints what they answer.
pub fn print_rows<R: AllocGlobal + Print + Threads + Sync>(rt: &R) -> Result<()> {
    for (words, call, source) in ROWS {
        let bytes = source.bytes(rt.alloc())?;
        print_answer(rt, words, answer(rt, *call, &bytes))?;
    }
    Ok(())
}
