//! Few bytes that claim many more.
//!
//! No theorem says how much memory a call asks for. So they are also made with memory for little
//! more than the bytes: then a call that asks for what is claimed is refused as Memory.

use crate::damage::call::Call::{Block, Compact, Decode, Manifest, Records, Table};
use crate::damage::call::{Answer, Call, answer};
use crate::damage::print_answer;
use crate::damage::source::Source;
use crate::damage::source::Source::{Changed, Ended, Plain};
use crate::fault::wanted;
use crate::refusals::{Order, refuse, was_refused};
use anyhow::Result;
use coding::Fault;
use std::alloc::Global;
use std::thread::Threads;

/// The greatest number that four bytes hold.
const FOUR_BYTES: usize = u32::MAX as usize;

/// The greatest that two bytes hold.
const TWO_BYTES: usize = u16::MAX as usize;

/// The longest table.
const TABLE_LEN: usize = 1 << 30;

/// The end of a table whose index says that its data block has 2^30 bytes. It begins with the
/// length of the value in the index.
const OF_2_TO_30: &[u8] =
    b"\x06a\x01\x01\0\0\0\0\0\0\0\x80\x80\x80\x80\x04\0\0\0\0\x01\0\0\0\0\x27\xcb\x81\x98\x1a\x08\
        \x27\x1a\0\0\0\0\0\0\0\0\0\0\0\0\0\0\0\0\0\0\0\0\0\0\0\0\0\0\0\0\0\0\0\0\0\0\0\0W\xfb\x80\
        \x8b\x24uG\xdb";

/// The same, of 2^64 - 1 bytes.
const FAR_END: &[u8] =
    b"\x0ba\x01\x01\0\0\0\0\0\0\0\xff\xff\xff\xff\xff\xff\xff\xff\xff\x01\0\0\0\0\x01\0\0\0\0\x29g\
        m\x7c\x1a\x08\x27\x1f\0\0\0\0\0\0\0\0\0\0\0\0\0\0\0\0\0\0\0\0\0\0\0\0\0\0\0\0\0\0\0\0\0\0\
        \0\0W\xfb\x80\x8b\x24uG\xdb";

/// The same, at 2^64 - 1 too.
const FAR_PLACE: &[u8] =
    b"\x14a\x01\x01\0\0\0\0\0\0\xff\xff\xff\xff\xff\xff\xff\xff\xff\x01\xff\xff\xff\xff\xff\xff\
        \xff\xff\xff\x01\0\0\0\0\x01\0\0\0\0\xd7\x8b\xad\xc1\x1a\x08\x27\x28\0\0\0\0\0\0\0\0\0\0\0\
        \0\0\0\0\0\0\0\0\0\0\0\0\0\0\0\0\0\0\0\0\0\0\0\0\0W\xfb\x80\x8b\x24uG\xdb";

/// The same, of eight bytes at 2^64 - 1.
const PAST_END: &[u8] =
    b"\x0ba\x01\x01\0\0\0\0\0\0\xff\xff\xff\xff\xff\xff\xff\xff\xff\x01\x08\0\0\0\0\x01\0\0\0\0a\
        \x178\x0c\x1a\x08\x27\x1f\0\0\0\0\0\0\0\0\0\0\0\0\0\0\0\0\0\0\0\0\0\0\0\0\0\0\0\0\0\0\0\0\
        \0\0\0\0W\xfb\x80\x8b\x24uG\xdb";

/// Bytes, the words for them, and how many they claim.
const CLAIMS: &[(&str, Call, Source, usize)] = &[
    (
        "block with a value of 2^32 - 1 bytes",
        Block,
        Plain(b"\0\x01\xff\xff\xff\xff\x0fa\0\0\0\0\x01\0\0\0"),
        FOUR_BYTES,
    ),
    (
        "block with a key of 2^32 - 1 bytes",
        Block,
        Plain(b"\0\xff\xff\xff\xff\x0f\x01a\0\0\0\0\x01\0\0\0"),
        FOUR_BYTES,
    ),
    (
        "block with 2^32 - 1 shared bytes",
        Block,
        Plain(b"\0\x01\0a\xff\xff\xff\xff\x0f\x01\0b\0\0\0\0\x01\0\0\0"),
        FOUR_BYTES,
    ),
    (
        "block with 2^32 - 1 restarts",
        Block,
        Plain(b"\0\x01\0a\0\0\0\0\xff\xff\xff\xff"),
        FOUR_BYTES,
    ),
    (
        "log of 65535 bytes",
        Records,
        Plain(b"\x05\x2b\x28C\xff\xff\x01"),
        TWO_BYTES,
    ),
    (
        "manifest of 65535 bytes",
        Manifest,
        Plain(b"\x05\x2b\x28C\xff\xff\x01"),
        TWO_BYTES,
    ),
    (
        "edit with a name of 2^32 - 1 bytes",
        Decode,
        Plain(b"\x01\xff\xff\xff\xff\x0fa"),
        FOUR_BYTES,
    ),
    (
        "edit with a key of 2^32 - 1 bytes",
        Decode,
        Plain(b"\x05\0\xff\xff\xff\xff\x0fu\x01\x02\0\0\0\0\0\0"),
        FOUR_BYTES,
    ),
    (
        "edit with a smallest key of 2^32 - 1 bytes",
        Decode,
        Plain(b"\x07\x01\x07\x7d\xff\xff\xff\xff\x0fu\x01\x02\0\0\0\0\0\0"),
        FOUR_BYTES,
    ),
    (
        "edit with a largest key of 2^32 - 1 bytes",
        Decode,
        Plain(b"\x07\x01\x07\x7d\x09u\0\x04\0\0\0\0\0\0\xff\xff\xff\xff\x0fu\x01\x02\0\0\0\0\0\0"),
        FOUR_BYTES,
    ),
    (
        "handle of 2^30 bytes\n  of a footer's metaindex block",
        Table,
        Changed(66, b"\0\x80\x80\x80\x80\x04\x27\x16"),
        TABLE_LEN,
    ),
    (
        "  of a footer's index block",
        Table,
        Changed(68, b"\0\x80\x80\x80\x80\x04"),
        TABLE_LEN,
    ),
    ("  in an index", Table, Ended(41, OF_2_TO_30), TABLE_LEN),
    ("  in an input", Compact, Ended(41, OF_2_TO_30), TABLE_LEN),
    (
        "handle of a far end\n  of a footer's metaindex block",
        Table,
        Changed(66, b"\0\xff\xff\xff\xff\xff\xff\xff\xff\xff\x01\x27\x16"),
        usize::MAX,
    ),
    (
        "  of a footer's index block",
        Table,
        Changed(68, b"\0\xff\xff\xff\xff\xff\xff\xff\xff\xff\x01"),
        usize::MAX,
    ),
    ("  in an index", Table, Ended(41, FAR_END), usize::MAX),
    ("  in an input", Compact, Ended(41, FAR_END), usize::MAX),
    (
        "handle of a far place\n  of a footer's metaindex block",
        Table,
        Changed(
            66,
            b"\xff\xff\xff\xff\xff\xff\xff\xff\xff\x01\xff\xff\xff\xff\xff\xff\xff\xff\xff\x01\
                \x27\x16",
        ),
        usize::MAX,
    ),
    (
        "  of a footer's index block",
        Table,
        Changed(
            68,
            b"\xff\xff\xff\xff\xff\xff\xff\xff\xff\x01\xff\xff\xff\xff\xff\xff\xff\xff\xff\x01",
        ),
        usize::MAX,
    ),
    ("  in an index", Table, Ended(41, FAR_PLACE), usize::MAX),
    ("  in an input", Compact, Ended(41, FAR_PLACE), usize::MAX),
    (
        "handle whose end passes 2^64\n  of a footer's metaindex block",
        Table,
        Changed(66, b"\xff\xff\xff\xff\xff\xff\xff\xff\xff\x01\x08\x27\x16"),
        usize::MAX,
    ),
    (
        "  of a footer's index block",
        Table,
        Changed(68, b"\xff\xff\xff\xff\xff\xff\xff\xff\xff\x01\x08"),
        usize::MAX,
    ),
    ("  in an index", Table, Ended(41, PAST_END), usize::MAX),
    ("  in an input", Compact, Ended(41, PAST_END), usize::MAX),
    (
        "manifest with a name of 2^32 - 1 bytes",
        Manifest,
        Plain(b"\x04\xcd\x9b\x97\x07\0\x01\x01\xff\xff\xff\xff\x0fa"),
        FOUR_BYTES,
    ),
];

/// Whether there is no memory for `len` bytes.
fn is_short_of(alloc: Global, len: usize) -> bool {
    let room: Result<Vec<u8>, _> = Vec::with_capacity(alloc, len);
    room.is_err()
}

/// What a call answers to bytes with 32 bytes of memory for each of them and 4,096. Lawless if that
/// is enough for as many as they claim.
fn tight_answer<R: AllocGlobal + Threads + Sync>(
    rt: &R,
    call: Call,
    bytes: &[u8],
    claimed: usize,
) -> Result<Answer, Fault> {
    let alloc = rt.alloc();
    let room = bytes.len().saturating_mul(32).saturating_add(4_096);
    refuse(alloc, &Order::Bytes(room));
    let is_short = is_short_of(alloc, claimed);
    let given = answer(rt, call, bytes);
    let _ = was_refused(alloc);
    wanted(is_short)?;
    Ok(given)
}

/// Makes the calls, with memory for little more than the bytes if it `is_tight`, and prints what
/// they answer.
pub fn print_claims<R: AllocGlobal + Print + Threads + Sync>(rt: &R, is_tight: bool) -> Result<()> {
    for (words, call, source, claimed) in CLAIMS {
        let bytes = source.bytes(rt.alloc())?;
        let given = if is_tight {
            tight_answer(rt, *call, &bytes, *claimed)?
        } else {
            answer(rt, *call, &bytes)
        };
        print_answer(rt, words, given)?;
    }
    Ok(())
}
