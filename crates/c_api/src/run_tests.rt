//! Each call about runs and outputs once, with bytes that another program wrote.

use crate::tests::{KEYS, LENT, REQUEST, TWO_ENTRIES, lent, two_entries};
use crate::{
    DONE, Entry, EntryLengths, HostRequest, Lent, LentArrays, LentRuns, MISUSE, Place,
    PlannedOutput, ROOM, RunMark, RunPlaces, RunSize, proved_check_table, proved_merge,
    proved_output, proved_plan,
};
use std::test::*;

/// The bytes of a run that keeps both entries.
const RUN: &[u8] = b"u\0\x04\0\0\0\0\0\0u\x01\x02\0\0\0\0\0\0x";

#[test]
fn ranges_are_merged(rt: HostRuntime) {
    let alloc = rt.alloc();
    let request = HostRequest {
        oldest: 3,
        ..REQUEST
    };
    let mut input = two_entries(TWO_ENTRIES.len() as u64);
    let code = proved_check_table(alloc, request.order, KEYS, TWO_ENTRIES, &mut input);
    assert!(rt; code == DONE);
    let inputs = [input];
    let asked = Lent {
        request,
        inputs: &inputs,
        ..LENT
    };
    let mut bytes = [7; 20];
    let mut lengths = [EntryLengths { key: 7, value: 7 }; 2];
    let mut marks = [RunMark { below: 7, kept: 7 }; 2];
    let mut size = RunSize {
        bytes: 7,
        entries: 7,
        marks: 7,
    };
    let code = proved_merge(
        alloc,
        &asked,
        &mut bytes,
        &mut lengths,
        &mut marks,
        &mut size,
    );
    assert_eq!(rt; code, DONE);
    assert!(rt; bytes.starts_with(RUN));
    assert_eq!(rt; bytes[RUN.len()], 7);
    assert_eq!(rt; size.entries, 2);
    assert_eq!(rt; size.marks, 1);
    assert_eq!(rt; lengths[1].value, 1);
    assert_eq!(rt; marks[0].kept, 0);
}

/// An entry in each of two runs, the second of which has so many bytes.
const fn runs(len: u64) -> [RunPlaces; 2] {
    [
        RunPlaces {
            bytes: Place { from: 0, len: 9 },
            lengths: Place { from: 0, len: 1 },
            marks: Place { from: 0, len: 1 },
        },
        RunPlaces {
            bytes: Place { from: 9, len },
            lengths: Place { from: 1, len: 1 },
            marks: Place { from: 1, len: 0 },
        },
    ]
}

#[test]
fn outputs_are_planned(rt: HostRuntime) {
    let alloc = rt.alloc();
    let inputs = [two_entries(TWO_ENTRIES.len() as u64)];
    let asked = lent(&inputs);
    let lengths = [
        EntryLengths { key: 9, value: 0 },
        EntryLengths { key: 9, value: 1 },
    ];
    let arrays = LentArrays {
        bytes: RUN,
        lengths: &lengths,
        marks: &[RunMark { below: 0, kept: 0 }],
    };
    let whole = LentRuns {
        size: 0,
        arrays,
        runs: &runs(10),
    };
    let nothing = PlannedOutput {
        first: 7,
        entries: 7,
        len: 7,
    };
    let mut room = [nothing; 2];
    let mut len = 0;
    let code = proved_plan(alloc, &asked, &whole, &mut room, &mut len);
    assert_eq!(rt; code, DONE);
    assert_eq!(rt; len, 1);
    assert_eq!(rt; room[0].first, 0);
    assert_eq!(rt; room[0].entries, 2);
    assert_eq!(rt; room[0].len, TWO_ENTRIES.len() as u64);
    assert_eq!(rt; room[1].first, 7);
    let code = proved_plan(alloc, &asked, &whole, &mut [], &mut len);
    assert_eq!(rt; code, ROOM);
    // The value of its entry isn't within the run.
    let short = LentRuns {
        runs: &runs(9),
        ..whole
    };
    let code = proved_plan(alloc, &asked, &short, &mut room, &mut len);
    assert_eq!(rt; code, MISUSE);
    // No number comes after the output's.
    let mut last = asked;
    last.request.first_number = u64::MAX;
    let code = proved_plan(alloc, &last, &whole, &mut room, &mut len);
    assert_eq!(rt; code, 23);
}

#[test]
fn outputs_are_written(rt: HostRuntime) {
    let alloc = rt.alloc();
    let entries = [
        Entry {
            key: Place { from: 0, len: 9 },
            value: Place { from: 0, len: 0 },
        },
        Entry {
            key: Place { from: 9, len: 9 },
            value: Place { from: 0, len: 1 },
        },
    ];
    let mut room = [7; 200];
    let mut len = 0;
    let code = proved_output(alloc, &REQUEST, KEYS, b"x", &entries, &mut room, &mut len);
    assert_eq!(rt; code, DONE);
    assert_eq!(rt; len, TWO_ENTRIES.len() as u64);
    assert!(rt; room.starts_with(TWO_ENTRIES));
    assert_eq!(rt; room[TWO_ENTRIES.len()], 7);
    let mut small = [7; 9];
    let code = proved_output(alloc, &REQUEST, KEYS, b"x", &entries, &mut small, &mut len);
    assert_eq!(rt; code, ROOM);
    assert_eq!(rt; len, TWO_ENTRIES.len() as u64);
    // A key that isn't above the one before it.
    let twice = [entries[0], entries[0]];
    let code = proved_output(alloc, &REQUEST, KEYS, b"x", &twice, &mut room, &mut len);
    assert_eq!(rt; code, 19);
}
