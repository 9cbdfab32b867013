use logrec::*;
use std::alloc::Global;
use std::process::Abort;
use std::test::*;

/// The number of bytes 7 in a record, the record after it, the length of their log, and how it
/// ends.
type Row = (usize, &'static [u8], usize, &'static [u8]);

/// Records within a block, at its end, and over several blocks.
const ROWS: &[Row] = &[
    // Two empty records.
    (
        0,
        b"",
        14,
        b"\x05\x2b\x28\x43\0\0\x01\x05\x2b\x28\x43\0\0\x01",
    ),
    (
        0,
        b"abc",
        17,
        b"\x05\x2b\x28\x43\0\0\x01\xf2\x70\xe8\x9d\x03\0\x01abc",
    ),
    // An empty FIRST and a LAST, if seven bytes of a block are left.
    (
        32_754,
        b"x",
        32_776,
        b"\x07\x64\x51\xd0\xe9\0\0\x02\x2c\x74\x1b\xd8\x01\0\x04x",
    ),
    // Zeros, if six are left.
    (
        32_755,
        b"",
        32_775,
        b"\x07\0\0\0\0\0\0\x05\x2b\x28\x43\0\0\x01",
    ),
    // A record of four fragments.
    (100_000, b"", 100_035, b"\x07\x05\x2b\x28\x43\0\0\x01"),
];

/// Whether a log is read as these two records.
fn are_records(read: &[Vec<u8>], first: &[u8], second: &[u8]) -> bool {
    match (read.first(), read.last()) {
        (Some(one), Some(other)) => {
            read.len() == 2 && one.as_slice() == first && other.as_slice() == second
        }
        _ => false,
    }
}

/// Whether a log is read one record at a time as these two.
fn reads_as(rt: &impl Abort, alloc: Global, log: &[u8], first: &[u8], second: &[u8]) -> bool {
    let mut reader = RecordReader::new(log);
    let one = reader.next(alloc).expect(rt, "a log");
    let other = reader.next(alloc).expect(rt, "a log");
    let end = reader.next(alloc).expect(rt, "a log");
    match (one, other, end) {
        (Some(one), Some(other), None) => one.as_slice() == first && other.as_slice() == second,
        _ => false,
    }
}

/// Whether the log of a row's records is as the row says, and is read as them.
fn is_log(rt: &impl Abort, alloc: Global, (len, second, log_len, end): Row) -> bool {
    let first = vec![in alloc; 7u8; len].expect(rt, "memory");
    let log = append(alloc, &[], &first).expect(rt, "memory");
    let log = append(alloc, &log, second).expect(rt, "memory");
    let read = records(alloc, &log).expect(rt, "a log");
    log.len() == log_len
        && log.ends_with(end)
        && are_records(&read, &first, second)
        && reads_as(rt, alloc, &log, &first, second)
}

#[test]
fn logs_of_two_records(rt: HostRuntime) {
    for row in ROWS {
        assert!(rt; is_log(&rt, rt.alloc(), *row), "{}", row.2);
    }
}
