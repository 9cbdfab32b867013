//! The calls that take bytes, each seen as bytes in and an answer out.

use crate::case::{Case, compacted, picked};
use crate::cursors::first;
use crate::fault::wanted;
use crate::requests::REQUEST;
use crate::worked_bytes::{A_AT_ONE, CURRENT_FIVE};
use coding::{Fault, FaultName};
use edit::{Outcome, VersionEdit};
use folder::open;
use ikey::Bytewise;
use logrec::records;
use shelf::Shelf;
use std::alloc::Global;
use std::thread::Threads;
use table::{SoundTable, TableCursor};

/// A call that takes bytes.
#[derive(Clone, Copy)]
pub enum Call {
    /// `block::check`.
    Block,
    /// `table::check`.
    Table,
    /// The same, but accepted bytes have to be a table of only `a` at 1 with the value `x`, else
    /// Lawless.
    List,
    /// `compact`, of one input whose table these bytes are. The version states that it holds `a` at
    /// 1.
    Compact,
    /// `logrec::records`.
    Records,
    /// `VersionEdit::decode`.
    Decode,
    /// `open` of a folder whose CURRENT holds the bytes, and that has no manifest.
    Current,
    /// `open` of a folder whose manifest holds the bytes.
    Manifest,
}

/// What a call answers: None if it accepts, else the name of its refusal.
pub type Answer = Option<FaultName>;

/// The compaction of one input of `a` at 1.
const ONE_INPUT: Case = Case {
    workers: 1,
    ..REQUEST
};

/// The answer: None if the bytes were accepted.
fn refusal<T: Drop>(answer: Result<T, Fault>) -> Answer {
    match answer {
        Ok(_) => None,
        Err(fault) => Some(fault.name),
    }
}

/// Whether the smallest and the largest key of a table are both `a` at 1.
fn is_a_alone(table: &SoundTable<'_, Bytewise>) -> bool {
    table.smallest().bytes() == A_AT_ONE.as_slice()
        && table.largest().bytes() == A_AT_ONE.as_slice()
}

/// Checks that bytes are a table of only `a` at 1 with the value `x`. Since keys rise strictly,
/// there is one entry if the smallest key is the largest.
fn listed(alloc: Global, bytes: &[u8]) -> Result<(), Fault> {
    let table = table::check::<Bytewise>(alloc, bytes)?;
    let cursor = TableCursor::new(alloc, &table)?;
    wanted(first(alloc, &cursor) == Some(b'a') && is_a_alone(&table))
}

/// Compacts one input.
fn input_compacted<R: AllocGlobal + Threads + Sync>(
    rt: &R,
    bytes: &[u8],
) -> Result<Outcome, Fault> {
    let case = &ONE_INPUT;
    let mut picked = picked(rt.alloc(), case)?;
    if let Some(file) = picked.files.first_mut() {
        file.meta.size = bytes.len() as u64;
    }
    compacted(rt, case, &picked, &[bytes])
}

/// What a call answers to some bytes.
pub fn answer<R: AllocGlobal + Threads + Sync>(rt: &R, call: Call, bytes: &[u8]) -> Answer {
    let alloc = rt.alloc();
    match call {
        Call::Block => refusal(block::check(bytes)),
        Call::Table => refusal(table::check::<Bytewise>(alloc, bytes)),
        Call::List => refusal(listed(alloc, bytes)),
        Call::Compact => refusal(input_compacted(rt, bytes)),
        Call::Records => refusal(records(alloc, bytes)),
        Call::Decode => refusal(VersionEdit::decode(alloc, bytes)),
        Call::Current => opened(alloc, &[("CURRENT", bytes)]),
        Call::Manifest => opened(
            alloc,
            &[("CURRENT", CURRENT_FIVE), ("MANIFEST-000005", bytes)],
        ),
    }
}

/// What opening a folder of these files answers.
fn opened(alloc: Global, files: &[(&str, &[u8])]) -> Answer {
    refusal(open(alloc, &mut Shelf::new(alloc, files)))
}
