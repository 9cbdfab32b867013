//! Reading the records of a log.

ghost use Rattle.std.specs.Prelude.{◌≡◌, ◌≤◌, true, List, ℕ, length, IfOk, Ok};
ghost use Rattle.coding.specs.Answers.{EqualOrMemory};
ghost use Rattle.logrec.specs.Log.{log};
ghost use Rattle.logrec.specs.CodeFragment.{fragment_view};
ghost use Rattle.logrec.specs.LogReader.{fragment_reading, ends_record, left_at, after_zeros};
ghost use Rattle.logrec.specs.LogReader.{record_at, records_of, lists};

use crate::format::{HEADER_LEN, MAX_CONTENT_LEN, ZEROS, checksum, room_at, type_of, zeros_len};
use byteorder::{ByteOrder, LittleEndian};
use coding::{Fault, FaultName};
use std::alloc::Global;

/// A fragment, and the bytes after it.
#[derive(Clone, Copy)]
struct Fragment<'a> {
    kind: u8,
    content: &'a [u8],
    rest: &'a [u8],
}

/// The records of which `bytes` are the log.
///
/// Other bytes are refused at the first fragment, from the front, that a writer would not have
/// left:
///
/// - LogShape: zeros that are due aren't whole or aren't zero. Or the header or the content isn't
///   whole, or passes the block. Or type and length aren't those that a writer would have written
///   there. Bytes that end inside a record are refused so too.
/// - LogChecksum: the parts are whole, but the checksum isn't that of type and content.
///
/// A length in a header is compared with the bytes that are there before memory is asked for. The
/// only other fault is Memory.
pub fn records(alloc: Global, bytes: &[u8]) -> Result<Vec<Vec<u8>>, Fault>
    // The bytes are the log of the result.
    ensures found { IfOk result (λ v. bytes.now ≡ log (lists v.items)) }
    // A log is read, or the answer is Memory.
    ensures only { (rs : List (List ℕ)) → bytes.now ≡ log rs →
        EqualOrMemory (λ v. lists v.items) result (Ok rs) }
    // Which refusal it is: the first test that fails.
    ensures exact { EqualOrMemory (λ v. lists v.items) result (records_of bytes.now) }
{
    all(alloc, bytes)
}

/// All records, one after the other.
fn all(alloc: Global, bytes: &[u8]) -> Result<Vec<Vec<u8>>, Fault>
    ensures { EqualOrMemory (λ v. lists v.items) result (records_of bytes.now) }
{
    let mut records = Vec::new(alloc);
    let mut rest = bytes;
    while !rest.is_empty() {
        let (record, behind) = record_at(alloc, bytes.len() - rest.len(), rest)?;
        records.push(record)?;
        rest = behind;
    }
    Ok(records)
}

/// The record at `offset`, and the bytes after it.
#[tactic(auto, unfolding(crate::specs::LogReader::record_at))]
pub(crate) fn record_at(
    alloc: Global,
    offset: usize,
    bytes: &[u8],
) -> Result<(Vec<u8>, &[u8]), Fault>
    ensures { EqualOrMemory (λ x. (x.0.items, x.1.now)) result (record_at offset bytes.now) }
{
    let body = after_zeros(offset, bytes)?;
    left_at(alloc, room_at(offset), body)
}

/// The bytes after the zeros that are due at `offset`.
#[tactic(auto, unfolding(crate::specs::LogReader::after_zeros))]
fn after_zeros(offset: usize, bytes: &[u8]) -> Result<&[u8], Fault>
    ensures { EqualOrMemory (λ x. x.now) result (after_zeros offset bytes.now) }
{
    let zeros = zeros_len(offset);
    if !bytes.starts_with(&ZEROS[..zeros]) {
        return Err(Fault::of(FaultName::LogShape));
    }
    Ok(&bytes[zeros..])
}

/// The record whose first fragment has this `room`, and the bytes after it.
fn left_at(alloc: Global, room: usize, bytes: &[u8]) -> Result<(Vec<u8>, &[u8]), Fault>
    ensures { EqualOrMemory (λ x. (x.0.items, x.1.now)) result
        (left_at (length bytes.now) true room bytes.now) }
{
    let mut record = Vec::with_capacity(alloc, content_len(bytes))?;
    let mut begins = true;
    let mut room = room;
    let mut rest = bytes;
    loop {
        let fragment = fragment_at(room, rest)?;
        let ends = ends_record(begins, room, &fragment)?;
        record.extend_from_slice(fragment.content)?;
        rest = fragment.rest;
        if ends {
            return Ok((record, rest));
        }
        begins = false;
        room = MAX_CONTENT_LEN;
    }
}

/// How many bytes of content are in the fragments at the front, up to one that ends a record.
///
/// Nothing is tested: of bytes that are no log it says nothing, but it is never more than their
/// length.
fn content_len(bytes: &[u8]) -> usize
    ensures { result ≤ length bytes.now }
{
    let mut len = 0;
    let mut rest = bytes;
    while rest.len() >= HEADER_LEN {
        let kind = rest[6];
        let here = (LittleEndian::read_u16(&rest[4..]) as usize).min(rest.len() - HEADER_LEN);
        len += here;
        rest = &rest[HEADER_LEN + here..];
        if kind == type_of(true, true) || kind == type_of(false, true) {
            break;
        }
    }
    len
}

/// The fragment at the front. Its header and content are whole, and its checksum is right.
#[tactic(auto, unfolding(crate::specs::LogReader::fragment_reading))]
fn fragment_at(room: usize, bytes: &[u8]) -> Result<Fragment<'_>, Fault>
    ensures { EqualOrMemory fragment_view result (fragment_reading room bytes.now) }
{
    if bytes.len() < HEADER_LEN {
        return Err(Fault::of(FaultName::LogShape));
    }
    let kind = bytes[6];
    let len = LittleEndian::read_u16(&bytes[4..]) as usize;
    let body = &bytes[HEADER_LEN..];
    if len > room || len > body.len() {
        return Err(Fault::of(FaultName::LogShape));
    }
    let (content, rest) = body.split_at(len);
    if LittleEndian::read_u32(bytes) != checksum(kind, content) {
        return Err(Fault::of(FaultName::LogChecksum));
    }
    Ok(Fragment {
        kind,
        content,
        rest,
    })
}

/// Whether a fragment ends its record. LogShape if a writer with this `room` would not have written
/// its type and length there.
#[tactic(auto, unfolding(crate::specs::LogReader::ends_record))]
fn ends_record(begins: bool, room: usize, fragment: &Fragment<'_>) -> Result<bool, Fault>
    ensures { EqualOrMemory (λ b. b) result
        (ends_record begins room fragment.now.kind (length fragment.now.content.now)) }
{
    let len = fragment.content.len();
    // Only a FULL fragment may be empty and end its record.
    if fragment.kind == type_of(begins, true) && (begins || len > 0) {
        return Ok(true);
    }
    // A fragment that doesn't end its record fills its block.
    if fragment.kind == type_of(begins, false) && len == room {
        return Ok(false);
    }
    Err(Fault::of(FaultName::LogShape))
}
