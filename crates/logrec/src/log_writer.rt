//! Writing a record at a log's end.

ghost use Rattle.std.specs.Prelude.{◌≡◌, ◌≤◌, ◌++◌, true, length, IfOk, OnOk, OnErr, IsOkUnless};
ghost use Rattle.coding.specs.Answers.{fault};
ghost use Rattle.coding.specs.declared.fault.FaultName.TheVariants.{Memory};
ghost use Rattle.logrec.specs.Log.{fragment, fragments, written_record};

use crate::format::{HEADER_LEN, MAX_CONTENT_LEN, ZEROS, checksum, room_at, type_of, zeros_len};
use byteorder::{ByteOrder, LittleEndian};
use coding::Fault;
use std::alloc::Global;

/// The log `old` with `record` at its end: `old`, and then what is written at its length.
///
/// `old` isn't read as a log; only its length counts. Memory is asked for once, for the whole log.
pub fn append(alloc: Global, old: &[u8], record: &[u8]) -> Result<Vec<u8>, Fault>
    ensures ok { IfOk result (λ v. v.items ≡ old.now
        ++ written_record (length old.now) «record».now) }
    ensures memory { IsOkUnless result (fault Memory) }
{
    let zeros = zeros_len(old.len());
    let room = room_at(old.len());
    let mut log = Vec::with_capacity(alloc, grown_len(old.len(), room, record.len()))?;
    log.extend_from_slice(old)?;
    log.extend_from_slice(&ZEROS[..zeros])?;
    push_fragments(&mut log, room, record)?;
    Ok(log)
}

/// At least the length of the log after the record, if that is a `usize`.
fn grown_len(old: usize, room: usize, record: usize) -> usize {
    let headers = 2 + record.saturating_sub(room) / MAX_CONTENT_LEN;
    old.saturating_add(record)
        .saturating_add(headers * HEADER_LEN)
        .saturating_add(ZEROS.len())
}

/// Appends the fragments of `record`, of which the first has this `room`.
fn push_fragments(log: &mut Vec<u8>, room: usize, record: &[u8]) -> Result<(), Fault>
    requires { room ≤ 32761 }
    ensures ok { OnOk result (log.new.items ≡
        log.old.items ++ fragments (length «record».now) true room «record».now) }
    ensures memory { IsOkUnless result (fault Memory) }
{
    let mut begins = true;
    let mut room = room;
    let mut left = record;
    while left.len() > room {
        let (content, behind) = left.split_at(room);
        push_fragment(log, type_of(begins, false), content)?;
        begins = false;
        room = MAX_CONTENT_LEN;
        left = behind;
    }
    push_fragment(log, type_of(begins, true), left)
}

/// Appends one fragment of at most 32,761 bytes.
#[tactic(auto, unfolding(crate::specs::Log::fragment))]
fn push_fragment(log: &mut Vec<u8>, kind: u8, content: &[u8]) -> Result<(), Fault>
    requires { length content.now ≤ 32761 }
    ensures ok { OnOk result (log.new.items ≡ log.old.items ++ fragment kind content.now) }
    ensures memory { IsOkUnless result (fault Memory) }
{
    let mut sum = [0u8; 4];
    let mut len = [0u8; 2];
    LittleEndian::write_u32(&mut sum, checksum(kind, content));
    LittleEndian::write_u16(&mut len, content.len() as u16);
    log.extend_from_slice(&sum)?;
    log.extend_from_slice(&len)?;
    log.push(kind)?;
    log.extend_from_slice(content)?;
    Ok(())
}
