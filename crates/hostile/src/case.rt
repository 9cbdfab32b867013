//! Compactions and their expected answers.

use crate::holding_gate::Held;
use crate::worked_bytes::U_AT_TWO;
use coding::{Fault, FaultName};
use compact::{Request, compact};
use edit::{CompactPointer, FileMeta, Outcome};
use ikey::{Bytewise, InternalKey, KeyBuf};
use keep::Snapshots;
use pick::{InputFile, Inputs};
use split::Split;
use std::alloc::Global;
use std::sync::Arc;
use std::thread::Threads;
use table::Options;

/// What a version states of a file: number, size, smallest and largest internal key.
pub type Meta<'k> = (u64, u64, &'k [u8], &'k [u8]);

/// A compaction and its expected answer.
#[derive(Clone, Copy)]
pub struct Case {
    pub level: u64,
    pub files: &'static [Meta<'static>],
    pub tables: &'static [&'static [u8]],
    pub grandparents: &'static [Meta<'static>],
    pub deeper: &'static [Meta<'static>],
    pub oldest: u64,
    pub last_sequence: u64,
    pub first_number: u64,
    pub options: Options,
    pub workers: u64,
    pub want: Want,
}

/// The expected answer of a compaction.
#[derive(Clone, Copy)]
pub enum Want {
    /// Any outcome.
    Accepted,
    /// These tables with their numbers, and this edit.
    Outcome(&'static [(u64, &'static [u8])], &'static [u8]),
    /// This refusal, of this input if it is of one.
    Refused(FaultName, Option<u64>),
}

/// The internal key of these bytes.
fn key_of(alloc: Global, bytes: &[u8]) -> Result<KeyBuf, Fault> {
    KeyBuf::of(alloc, InternalKey::parse(bytes)?)
}

/// What a version states of a file.
fn meta_of(alloc: Global, meta: &Meta<'_>) -> Result<FileMeta, Fault> {
    let (number, size, smallest, largest) = meta;
    Ok(FileMeta {
        number: *number,
        size: *size,
        smallest: key_of(alloc, smallest)?,
        largest: key_of(alloc, largest)?,
    })
}

/// The same of files of another level.
fn metas(alloc: Global, files: &[Meta<'_>]) -> Result<Vec<FileMeta>, Fault> {
    let mut metas = Vec::new(alloc);
    for file in files {
        metas.push(meta_of(alloc, file)?)?;
    }
    Ok(metas)
}

/// The inputs of a case without its files.
fn no_inputs(alloc: Global, case: &Case) -> Result<Inputs, Fault> {
    Ok(Inputs {
        level: case.level,
        files: Vec::new(alloc),
        grandparents: metas(alloc, case.grandparents)?,
        deeper: Arc::new(alloc, metas(alloc, case.deeper)?)?,
        pointer: CompactPointer {
            level: case.level,
            key: key_of(alloc, &U_AT_TWO)?,
        },
    })
}

/// Adds a file of the inputs' level to them.
fn add_file(alloc: Global, picked: &mut Inputs, file: &Meta<'_>) -> Result<(), Fault> {
    let level = picked.level;
    let meta = meta_of(alloc, file)?;
    Ok(picked.files.push(InputFile { level, meta })?)
}

/// The inputs of a case.
pub fn picked(alloc: Global, case: &Case) -> Result<Inputs, Fault> {
    let mut picked = no_inputs(alloc, case)?;
    for file in case.files {
        add_file(alloc, &mut picked, file)?;
    }
    Ok(picked)
}

/// The split at `c` and `f`.
pub fn three_ranges(alloc: Global) -> Result<Split<Bytewise>, Fault> {
    let mut keys = Vec::new(alloc);
    for key in [b"c", b"f"] {
        keys.push(Vec::from_slice(alloc, key)?)?;
    }
    Split::from_keys(keys)
}

/// The outcome of a case over these inputs, tables and ranges.
pub fn carried<'t, R: AllocGlobal + Threads + Sync>(
    rt: &R,
    case: &Case,
    picked: &'t Inputs,
    tables: &'t [&'t [u8]],
    split: &Split<Bytewise>,
    gate: &Held,
) -> Result<Outcome, Fault> {
    let request = Request {
        picked,
        tables,
        snapshots: Snapshots::From(case.oldest),
        first_number: case.first_number,
        log_number: 3,
        previous_log: 0,
        last_sequence: case.last_sequence,
        options: case.options,
    };
    compact::<Bytewise, Held, R>(rt, rt.alloc(), &request, split, case.workers, gate)
}

/// The outcome of a case over these inputs and tables, while no job is held.
pub fn compacted<R: AllocGlobal + Threads + Sync>(
    rt: &R,
    case: &Case,
    picked: &Inputs,
    tables: &[&[u8]],
) -> Result<Outcome, Fault> {
    let split = three_ranges(rt.alloc())?;
    carried(
        rt,
        case,
        picked,
        tables,
        &split,
        &Held::new(rt.alloc(), None, None),
    )
}

/// Whether tables with their numbers are these.
pub fn are_outputs(tables: &[(u64, Vec<u8>)], wanted: &[(u64, &[u8])]) -> bool {
    let mut are_right = tables.len() == wanted.len();
    for ((number, bytes), (wanted_number, wanted_bytes)) in tables.iter().zip(wanted) {
        are_right = are_right && number == wanted_number && bytes.as_slice() == *wanted_bytes;
    }
    are_right
}

/// Whether an outcome is the expected one.
fn is_outcome(want: &Want, outcome: &Outcome) -> bool {
    match want {
        Want::Accepted => true,
        Want::Outcome(tables, edit) => {
            are_outputs(&outcome.tables, tables) && outcome.edit.as_slice() == *edit
        }
        Want::Refused(..) => false,
    }
}

/// Whether an answer is the case's expected one. Any other refusal is passed on.
pub fn is_answer(case: &Case, answer: Result<Outcome, Fault>) -> Result<bool, Fault> {
    match answer {
        Ok(outcome) => Ok(is_outcome(&case.want, &outcome)),
        Err(fault) => match &case.want {
            Want::Refused(name, input) if fault.name == *name && fault.input == *input => Ok(true),
            _ => Err(fault),
        },
    }
}
