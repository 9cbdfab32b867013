//! The work on two files of blocks.

use checks::{Fault, FaultName};
use pairing::blocks;
use session::{Answer, Refusal, RefusalText, of_file, read_file, replace_file, said};
use std::alloc::Global;
use std::rt::Files;
use std::thread::Threads;
use usage::BlocksLine;

/// The block of no entries.
const NO_ENTRIES: &[u8] = b"\0\0\0\0\x01\0\0\0";

/// What to do about a file that is no such block.
const REMEDY: &str = "give a block of a table, without its trailer";

/// Merges the blocks in two files into one, and answers the line of how large it is.
pub fn blocks_answer<R: Files + AllocGlobal + Threads + Sync>(
    rt: &R,
    line: &BlocksLine<'_>,
) -> Answer {
    let (entries, block) = merged(rt, line)?;
    let length = block.len();
    let text = format!(in rt.alloc(); "{entries} entries, {length} bytes\n")?;
    replace_file(rt, line.out, block.as_slice())?;
    Ok(text.into_bytes())
}

/// The block of the entries of the blocks in two files, and the number of entries.
fn merged<R: Files + AllocGlobal + Threads + Sync>(
    rt: &R,
    line: &BlocksLine<'_>,
) -> Result<(u64, Vec<u8>), Refusal> {
    let first = read_block(rt, line.a)?;
    let second = read_block(rt, line.b)?;
    let answer = blocks(rt, rt.alloc(), &first, &second, &line.at);
    answer.map_err(|fault| {
        if is_refused(rt, &first, fault) {
            refused_alone(rt.alloc(), line.a, fault)
        } else if is_refused(rt, &second, fault) {
            refused_alone(rt.alloc(), line.b, fault)
        } else {
            refused_together(rt.alloc(), line, fault)
        }
    })
}

/// The bytes of a block's file. Device if there are more than 2^30: no test refuses that.
fn read_block<R: Files + AllocGlobal>(rt: &R, path: &str) -> Result<Vec<u8>, Refusal> {
    let read = read_file(rt, path);
    match &read {
        Err(refusal) if refusal.fault.name == FaultName::Size => {
            let wrong = "it has more than 1073741824 bytes";
            let told = said(rt.alloc(), path, wrong, REMEDY);
            Err(Refusal::new(Fault::of(FaultName::Device), told))
        }
        _ => read,
    }
}

/// Whether a block is refused so by itself. A block that can't be read again, since memory is
/// short, is not.
fn is_refused<R: AllocGlobal + Threads + Sync>(rt: &R, bytes: &[u8], fault: Fault) -> bool {
    let answer = blocks(rt, rt.alloc(), bytes, NO_ENTRIES, &[]);
    fault.name != FaultName::Memory && matches!(answer, Err(again) if again.name == fault.name)
}

/// The refusal of the block in one file.
fn refused_alone(alloc: Global, path: &str, fault: Fault) -> Refusal {
    let wrong = match fault.name {
        FaultName::Duplicate => "it has one user key and sequence twice",
        FaultName::TooLarge => {
            "a user key has more than 65535 bytes, a value more than 16777215, or all together \
                more than 1073741824"
        }
        FaultName::Block => "its bytes cannot be read as entries",
        name => of_file(name).wrong,
    };
    Refusal::new(fault, said(alloc, path, wrong, REMEDY))
}

/// The refusal of the blocks in two files, each of which is accepted alone.
fn refused_together(alloc: Global, line: &BlocksLine<'_>, fault: Fault) -> Refusal {
    let text = match fault.name {
        FaultName::Duplicate => {
            let b = line.b;
            let wrong = format!(in alloc; "it has a user key and sequence that {b} has too");
            RefusalText::new(alloc, line.a, wrong, "give blocks that share none")
        }
        FaultName::TooLarge => {
            let wrong = "the block would have more than 1073741824 bytes";
            said(alloc, line.out, wrong, "merge smaller ones")
        }
        _ => None,
    };
    Refusal::new(fault, text)
}
