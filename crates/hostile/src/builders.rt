//! Builders, logs and edits. If memory was refused, what a call changes has to be as it was, and
//! the call is made again on it.

use crate::cases::SMALLEST;
use crate::fault::{is_memory, wanted};
use crate::refusals::{allow, forbid};
use crate::worked_bytes::{
    A_AT_ONE, A_AT_TWO, BLOCK, DELETION_LEFT, SHORT_RECORD, SNAPSHOT_NINE, TABLE_THREE_BLOCKS,
    VERSION_SEVEN,
};
use block::BlockBuilder;
use coding::{Fault, FaultName};
use edit::{Version, VersionEdit};
use ikey::{Bytewise, InternalKey};
use logrec::{append, records};
use std::alloc::Global;
use table::TableBuilder;

/// The length from which a block gets no further entry.
const BLOCK_LEN: usize = 4_096;

/// The length of a block without an entry.
const NO_ENTRY: usize = 8;

/// The internal keys of `u` put at 9, 5 and 3.
const THREE_KEYS: [&[u8; 9]; 3] = [
    b"u\x01\x09\0\0\0\0\0\0",
    b"u\x01\x05\0\0\0\0\0\0",
    b"u\x01\x03\0\0\0\0\0\0",
];

/// Adds an entry to a block that is not full.
#[tactic(auto, using(block::proofs::Sizes::fits_with_entry))]
fn add_entry(
    alloc: Global,
    builder: &mut BlockBuilder,
    key: &[u8; 9],
    value: &[u8; 1],
) -> Result<(), Fault> {
    forbid(alloc);
    let estimate = builder.estimate();
    let is_empty = builder.is_empty();
    allow(alloc);
    wanted(is_empty == (estimate == NO_ENTRY))?;
    if estimate >= BLOCK_LEN {
        return Err(Fault::of(FaultName::TooLarge));
    }
    let answer = builder.add(key, value);
    if !is_memory(&answer) {
        return answer;
    }
    if builder.estimate() != estimate {
        return Err(Fault::of(FaultName::Lawless));
    }
    builder.add(key, value)
}

/// The worked block, built.
pub fn block_built(alloc: Global) -> Result<bool, Fault> {
    let mut builder = BlockBuilder::new(alloc, 16);
    add_entry(alloc, &mut builder, &A_AT_TWO, b"x")?;
    add_entry(alloc, &mut builder, &A_AT_ONE, b"y")?;
    Ok(builder.finish()?.as_slice() == BLOCK)
}

/// Adds an entry of the value `x` to a table, above its last one.
fn add_row(
    alloc: Global,
    builder: &mut TableBuilder<Bytewise>,
    key: &[u8; 9],
) -> Result<(), Fault> {
    let key = InternalKey::parse(key)?;
    forbid(alloc);
    let is_above = builder.is_above_last(&key);
    let flushed = builder.flushed();
    allow(alloc);
    if !is_above {
        return Err(Fault::of(FaultName::Order));
    }
    let answer = builder.add(key, b"x");
    if !is_memory(&answer) {
        return answer;
    }
    if builder.flushed() != flushed || !builder.is_above_last(&key) {
        return Err(Fault::of(FaultName::Lawless));
    }
    builder.add(key, b"x")
}

/// The table of three blocks, built.
pub fn table_built(alloc: Global) -> Result<bool, Fault> {
    let mut builder = TableBuilder::<Bytewise>::new(alloc, SMALLEST);
    for key in THREE_KEYS {
        add_row(alloc, &mut builder, key)?;
    }
    Ok(builder.finish()?.as_slice() == TABLE_THREE_BLOCKS)
}

/// A log of two records, of 32,754 bytes and of `x`, across the end of a block.
fn two_records(alloc: Global) -> Result<Vec<u8>, Fault> {
    let long = vec![in alloc; 7_u8; 32_754]?;
    let log = append(alloc, &[], &long)?;
    append(alloc, &log, b"x")
}

/// That log, written and read.
pub fn logged(alloc: Global) -> Result<bool, Fault> {
    let log = two_records(alloc)?;
    let read = records(alloc, &log)?;
    let is_last = read
        .last()
        .is_some_and(|record| record.as_slice() == b"x".as_slice());
    Ok(log.len() == 32_776 && log.ends_with(SHORT_RECORD) && read.len() == 2 && is_last)
}

/// The version that the edit of these bytes makes of an empty one.
fn version_of(alloc: Global, bytes: &[u8]) -> Result<Version, Fault> {
    Version::empty(alloc).applied::<Bytewise>(VersionEdit::decode(alloc, bytes)?)
}

/// The version after the edit that leaves one deletion.
fn version_after(alloc: Global) -> Result<Version, Fault> {
    let edit = VersionEdit::decode(alloc, DELETION_LEFT)?;
    version_of(alloc, VERSION_SEVEN)?.apply::<Bytewise>(alloc, &edit)
}

/// The snapshot of a version, written.
fn snapshot_of(alloc: Global, version: &Version) -> Result<Vec<u8>, Fault> {
    let edit = version.snapshot_edit::<Bytewise>(alloc)?;
    edit.encode(alloc)
}

/// An edit, applied to a version, whose snapshot is then written.
pub fn edited(alloc: Global) -> Result<bool, Fault> {
    let version = version_after(alloc)?;
    let snapshot = snapshot_of(alloc, &version)?;
    Ok(snapshot.as_slice() == SNAPSHOT_NINE && has_numbers(alloc, &version))
}

/// Whether these are the version's numbers, and there is a compact pointer of level 1 and none of
/// level 2.
fn has_numbers(alloc: Global, version: &Version) -> bool {
    forbid(alloc);
    let Some(pointer) = version.pointer(1) else {
        return false;
    };
    let has_numbers = version.log_number() == Some(3)
        && version.previous_log() == Some(0)
        && version.next_file() == Some(10)
        && version.last_sequence() == Some(4)
        && pointer.as_key().user() == b"u".as_slice()
        && version.pointer(2).is_none();
    allow(alloc);
    has_numbers
}
