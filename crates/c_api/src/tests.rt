//! Each call about tables, requests and files once, with bytes that another program wrote.

use crate::{
    BYTEWISE, Counts, DONE, File, FilePlace, HostRequest, Input, KeysSize, Lent, MISUSE, Numbers,
    OPEN_INPUTS, Place, UserRange, proved_boundaries, proved_check_closed, proved_check_request,
    proved_check_table, proved_edit,
};
use std::alloc::Global;
use std::test::*;

/// `table: u@4 del, u@2 put x`
pub(crate) const TWO_ENTRIES: &[u8] = b"\
    \0\x09\0u\0\x04\0\0\0\0\0\0\x01\x08\x01\x01\x02\0\0\0\0\0\0x\0\0\0\0\x01\0\0\0\0\xef\xe0\xe5\
    \x28\0\0\0\0\x01\0\0\0\0\xc0\xf2\xa1\xb0\0\x09\x02u\x01\x02\0\0\0\0\0\0\0\x20\0\0\0\0\x01\0\
    \0\0\0\x0a\xb0\x5c\x0c\x25\x082\x16\0\0\0\0\0\0\0\0\0\0\0\0\0\0\0\0\0\0\0\0\0\0\0\0\0\0\0\0\
    \0\0\0\0\0\0\0\0W\xfb\x80\x8b\x24uG\xdb";

/// `u@4 del` and `u@2 put`
pub(crate) const KEYS: &[u8] = b"u\0\x04\0\0\0\0\0\0u\x01\x02\0\0\0\0\0\0";

const NOTHING: Counts = Counts {
    entries: 0,
    oldest: 0,
    newest: 0,
    has_twins: 0,
};

/// The input of `TWO_ENTRIES`, if its table has this length.
pub(crate) fn two_entries(size: u64) -> Input {
    Input {
        file: File {
            level: 0,
            number: 5,
            size,
            smallest: Place { from: 0, len: 9 },
            largest: Place { from: 9, len: 9 },
        },
        table: Place {
            from: 0,
            len: TWO_ENTRIES.len() as u64,
        },
        counts: NOTHING,
    }
}

#[test]
fn tables_are_checked(rt: HostRuntime) {
    let alloc = rt.alloc();
    let len = TWO_ENTRIES.len() as u64;
    let mut input = two_entries(len);
    let code = proved_check_table(alloc, BYTEWISE, KEYS, TWO_ENTRIES, &mut input);
    assert_eq!(rt; code, DONE);
    assert_eq!(rt; input.counts.entries, 2);
    assert_eq!(rt; input.counts.oldest, 2);
    assert_eq!(rt; input.counts.newest, 4);
    // Its length isn't as stated.
    let mut input = two_entries(len + 1);
    let code = proved_check_table(alloc, BYTEWISE, KEYS, TWO_ENTRIES, &mut input);
    assert_eq!(rt; code, 21);
    assert_eq!(rt; input.counts.entries, 0);
    // A place that isn't within.
    let code = proved_check_table(alloc, BYTEWISE, &[], TWO_ENTRIES, &mut input);
    assert_eq!(rt; code, MISUSE);
}

/// A request of level 0 whose options have LevelDB's defaults.
pub(crate) const REQUEST: HostRequest = HostRequest {
    order: BYTEWISE,
    is_listed: 0,
    level: 0,
    oldest: 4,
    last_sequence: 4,
    block_size: 4_096,
    restart_interval: 16,
    file_size: 2_097_152,
    first_number: 7,
};

/// What is lent without an input, if all of them are merged.
pub(crate) const LENT: Lent<'static, 'static> = Lent {
    size: 0,
    request: REQUEST,
    snapshots: &[],
    keys: KEYS,
    tables: TWO_ENTRIES,
    inputs: &[],
    deeper: &[],
    range: UserRange {
        has_lower: 0,
        has_upper: 0,
        lower: Place { from: 0, len: 0 },
        upper: Place { from: 0, len: 0 },
    },
};

/// The same with these inputs.
pub(crate) fn lent(inputs: &[Input]) -> Lent<'_, 'static> {
    Lent { inputs, ..LENT }
}

/// The answer to a request of this level.
fn checked(alloc: Global, level: u64, inputs: &[Input]) -> u32 {
    let mut asked = lent(inputs);
    asked.request.level = level;
    proved_check_request(alloc, &asked)
}

#[test]
fn requests_are_checked(rt: HostRuntime) {
    let alloc = rt.alloc();
    let mut input = two_entries(TWO_ENTRIES.len() as u64);
    assert_eq!(rt; checked(alloc, 0, &[input]), DONE);
    assert_eq!(rt; checked(alloc, 0, &[]), 1);
    assert_eq!(rt; checked(alloc, 6, &[input]), 2);
    // A key isn't lent.
    input.file.smallest.from = 18;
    assert_eq!(rt; checked(alloc, 0, &[input]), MISUSE);
}

#[test]
fn boundaries_are_chosen(rt: HostRuntime) {
    let alloc = rt.alloc();
    let mut input = two_entries(TWO_ENTRIES.len() as u64);
    let code = proved_check_table(alloc, BYTEWISE, KEYS, TWO_ENTRIES, &mut input);
    assert!(rt; code == DONE);
    let inputs = [input];
    let mut bytes = [7; 2];
    let mut lengths = [7; 2];
    let mut size = KeysSize { bytes: 7, keys: 7 };
    // The index has one key, the user key u.
    let asked = Lent {
        inputs: &inputs,
        ..LENT
    };
    let code = proved_boundaries(alloc, &asked, 2, &mut bytes, &mut lengths, &mut size);
    assert_eq!(rt; code, DONE);
    assert_eq!(rt; size.bytes, 1);
    assert_eq!(rt; size.keys, 1);
    assert_eq!(rt; bytes[0], b'u');
    assert_eq!(rt; bytes[1], 7);
    assert_eq!(rt; lengths[0], 1);
    let code = proved_boundaries(alloc, &asked, 0, &mut bytes, &mut lengths, &mut size);
    assert_eq!(rt; code, 5);
}

#[test]
fn choices_are_closed(rt: HostRuntime) {
    let alloc = rt.alloc();
    let one = two_entries(TWO_ENTRIES.len() as u64).file;
    let other = File { number: 7, ..one };
    let mut missing = FilePlace {
        level: 0,
        number: 0,
    };
    let files = [one, other];
    let code = proved_check_closed(alloc, BYTEWISE, 0, KEYS, &files, &[5, 7], &mut missing);
    assert_eq!(rt; code, DONE);
    // Two files of level 0 with one user key go together.
    let code = proved_check_closed(alloc, BYTEWISE, 0, KEYS, &files, &[5], &mut missing);
    assert_eq!(rt; code, OPEN_INPUTS);
    assert_eq!(rt; missing.number, 7);
}

#[test]
fn edits_are_written(rt: HostRuntime) {
    let alloc = rt.alloc();
    let inputs = [two_entries(90)];
    let added = [File {
        level: 1,
        number: 7,
        ..inputs[0].file
    }];
    let numbers = Numbers {
        next_file: 8,
        log_number: 3,
        previous_log: 0,
        last_sequence: 4,
    };
    let mut room = [0; 200];
    let mut len = 0;
    let code = proved_edit(alloc, &lent(&inputs), &numbers, &added, &mut room, &mut len);
    assert_eq!(rt; code, DONE);
    let wanted = b"\x02\x03\x09\0\x03\x08\x04\x04\x05\0\x09u\x01\x02\0\0\0\0\0\0\x06\0\x05\
        \x07\x01\x07\x5a\x09u\0\x04\0\0\0\0\0\0\x09u\x01\x02\0\0\0\0\0\0";
    assert_eq!(rt; len, wanted.len() as u64);
    assert!(rt; room.starts_with(wanted));
    let code = proved_edit(alloc, &lent(&[]), &numbers, &added, &mut room, &mut len);
    assert_eq!(rt; code, 1);
}
