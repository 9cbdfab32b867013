//! Calls on numbers and keys. Only a key that owns its bytes takes memory.

use crate::refusals::{allow, forbid};
use crate::worked_bytes::{A_AT_ONE, A_AT_TWO};
use answers::status;
use coding::{Fault, FaultName, crc32c, mask, read_u32_varint, read_u64_varint, unmask};
use ikey::Kind::Put;
use ikey::{Bytewise, Comparator, InternalKey, KeyBuf, Shortlex};
use std::alloc::Global;

/// 300 in two groups, and a number that was cut off. The known checksums of nine digits and of a
/// log's empty record. The statuses of faults. The orders of user keys.
fn are_numbers() -> bool {
    read_u32_varint(b"\xac\x02x") == Some((300, 2))
        && read_u64_varint(b"\xac") == None
        && crc32c(b"123456789") == 0xe306_9283
        && mask(crc32c(b"\x01")) == 0x4328_2b05
        && unmask(0x4328_2b05) == crc32c(b"\x01")
        && status(&Fault::of(FaultName::Device)) == 3
        && status(&Fault::of(FaultName::Memory)) == 1
        && Bytewise::name() == "leveldb.BytewiseComparator"
        && Bytewise::compare(b"ab", b"b").is_lt()
        && Shortlex::name() == "subcompaction.ShortlexComparator"
        && Shortlex::compare(b"ab", b"b").is_gt()
}

/// The parts and the order of internal keys, a key that is too short, and one that owns its bytes.
fn are_keys(own: &KeyBuf) -> bool {
    let Ok(newer) = InternalKey::parse(&A_AT_TWO) else {
        return false;
    };
    let key = own.as_key();
    key.user() == b"a".as_slice()
        && key.sequence() == 1
        && key.kind() == Put
        && newer.compare::<Bytewise>(&key).is_lt()
        && InternalKey::parse(b"a").is_err()
}

/// Numbers, and keys.
pub fn numbers_read(alloc: Global) -> Result<bool, Fault> {
    let own = KeyBuf::of(alloc, InternalKey::parse(&A_AT_ONE)?)?;
    forbid(alloc);
    let is_right = are_numbers() && are_keys(&own);
    allow(alloc);
    Ok(is_right)
}
