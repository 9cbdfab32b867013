//! Which entries of a range are kept. Rows of `compact_tests` have more lists of snapshots, and
//! deletions.

use crate::compact_tests::tables::{A_U, U9_U5_U3};
use crate::tested_tables::{inputs_after, push_cursors};
use coding::{Fault, FaultName};
use ikey::{Bytewise, Kind};
use keep::{
    Mark, RangeRun, Snapshots, distinct_law, is_rising, largest_rise, merge_range, one_key,
    range_start_law, ranges_compose,
};
use merge::{cursor_from, holds_law, seek_range, starts_before};
use pick::Inputs;
use split::Range;
use std::alloc::Global;
use std::process::Abort;
use std::test::*;
use table::{Cursor, TableCursor, check};

// Tables and edits in LevelDB's formats, one line for each block, footer or file.

/// `table: u@5 put x, u@5 del`
const TWICE: &[u8] = b"\
    \0\x09\x01u\x01\x05\0\0\0\0\0\0x\x01\x08\0\0\x05\0\0\0\0\0\0\0\0\0\0\x01\0\0\0\0\x86\x06\x7e\
    \x91\0\0\0\0\x01\0\0\0\0\xc0\xf2\xa1\xb0\0\x09\x02u\0\x05\0\0\0\0\0\0\0\x20\0\0\0\0\x01\0\0\0\
    \0R\xda7\x90\x25\x082\x16\0\0\0\0\0\0\0\0\0\0\0\0\0\0\0\0\0\0\0\0\0\0\0\0\0\0\0\0\0\0\0\0\0\0\
    \0\0W\xfb\x80\x8b\x24uG\xdb";

/// `table: u@9 put x, z@2 put x`
const U_AND_Z: &[u8] = b"\
    \0\x09\x01u\x01\x09\0\0\0\0\0\0x\0\x09\x01z\x01\x02\0\0\0\0\0\0x\0\0\0\0\x01\0\0\0\0\x27Oc\xa1\
    \0\0\0\0\x01\0\0\0\0\xc0\xf2\xa1\xb0\0\x09\x02z\x01\x02\0\0\0\0\0\0\0\x22\0\0\0\0\x01\0\0\0\0\
    \x9b\x80\x7d\x13\x27\x084\x16\0\0\0\0\0\0\0\0\0\0\0\0\0\0\0\0\0\0\0\0\0\0\0\0\0\0\0\0\0\0\0\0\
    \0\0\0\0W\xfb\x80\x8b\x24uG\xdb";

/// `edit: file 1 7 114 a@1 put .. z@2 put`
const ALONE: &[u8] = b"\x07\x01\x07r\x09a\x01\x01\0\0\0\0\0\0\x09z\x01\x02\0\0\0\0\0\0";

/// `edit: file 1 7 114 a@1 put .. z@2 put, file 3 3 114 m@1 put .. m@1 put`
const OVER_M: &[u8] = b"\
    \x07\x01\x07r\x09a\x01\x01\0\0\0\0\0\0\x09z\x01\x02\0\0\0\0\0\0\x07\x03\x03r\x09m\x01\x01\0\0\
    \0\0\0\0\x09m\x01\x01\0\0\0\0\0\0";

/// A range, whether cursors seek it before it is merged, the sequences that it keeps (None if one
/// comes twice), and how many grandparents lie below its first entry.
type Part = (Range<'static>, bool, Option<&'static [u64]>, usize);

/// Tables, the edit of a version whose level 1 is compacted, the readable sequences, the last
/// sequence, and parts that are merged one after the other.
type Row = (
    &'static [&'static [u8]],
    &'static [u8],
    Snapshots<'static>,
    u64,
    &'static [Part],
);

/// The range without bounds.
const ALL: Range<'static> = Range {
    lower: None,
    upper: None,
};

/// The range to before `u`.
const TO_U: Range<'static> = Range {
    lower: None,
    upper: Some(b"u"),
};

/// The range from `u` to before `z`.
const FROM_U: Range<'static> = Range {
    lower: Some(b"u"),
    upper: Some(b"z"),
};

/// The range from `z` on.
const FROM_Z: Range<'static> = Range {
    lower: Some(b"z"),
    upper: None,
};

const ROWS: &[Row] = &[
    // Values of one user key.
    (
        &[U9_U5_U3],
        ALONE,
        Snapshots::From(5),
        9,
        &[(ALL, false, Some(&[9, 5]), 0)],
    ),
    (
        &[U9_U5_U3],
        ALONE,
        Snapshots::From(9),
        9,
        &[(ALL, false, Some(&[9]), 0)],
    ),
    // Three ranges of the same cursors, and one that is sought.
    (
        &[A_U, U_AND_Z],
        OVER_M,
        Snapshots::From(1),
        9,
        &[
            (TO_U, false, Some(&[1]), 0),
            (FROM_U, false, Some(&[9, 5]), 1),
            (FROM_Z, false, Some(&[2]), 1),
        ],
    ),
    (
        &[A_U, U_AND_Z],
        ALONE,
        Snapshots::From(9),
        9,
        &[(FROM_U, true, Some(&[9]), 0)],
    ),
    // A user key with one sequence twice.
    (
        &[TWICE],
        ALONE,
        Snapshots::From(9),
        9,
        &[(ALL, false, None, 0)],
    ),
];

/// Whether a cursor seeks a range, and is at its lower bound after that.
fn seeks(
    alloc: Global,
    cursor: &mut TableCursor<'static, Bytewise>,
    range: Range<'static>,
) -> bool {
    seek_range::<Bytewise, _>(alloc, cursor, range).is_ok()
        && cursor.valid()
        && Some(cursor.key().user()) == range.lower
}

/// Whether each of these cursors does.
fn all_seek(
    alloc: Global,
    cursors: &mut Vec<TableCursor<'static, Bytewise>>,
    range: Range<'static>,
) -> bool {
    for cursor in cursors.iter_mut() {
        if !seeks(alloc, cursor, range) {
            return false;
        }
    }
    true
}

/// The run of a range.
fn merged(
    alloc: Global,
    cursors: &mut Vec<TableCursor<'static, Bytewise>>,
    range: Range<'static>,
    row: &Row,
    inputs: &Inputs,
) -> Result<RangeRun<'static>, Fault> {
    let listed = row.2.listed();
    if !is_rising(listed) || !largest_rise::<Bytewise>(&inputs.grandparents) {
        return Err(Fault::of(FaultName::Options));
    }
    merge_range::<Bytewise, _>(alloc, cursors, range, listed, row.2.floor(row.3), inputs)
}

/// Whether the entries of a run have these sequences (values are `x`, deletions have none), and
/// whether it has one mark, at its first entry, over `below` grandparents.
fn are_kept(run: &RangeRun<'_>, kept: &[u64], below: usize) -> bool {
    for place in 0..run.len() {
        let key = run.key(place);
        let value: &[u8] = if key.kind() == Kind::Put { b"x" } else { b"" };
        if place >= kept.len() || key.sequence() != kept[place] || run.value(place) != value {
            return false;
        }
    }
    let marks = run.marks();
    run.len() == kept.len() && marks.len() == 1 && marks[0] == Mark { below, kept: 0 }
}

/// Whether a run is that of a part.
fn is_run(run: &RangeRun<'_>, part: &Part) -> bool {
    match part.2 {
        Some(kept) => are_kept(run, kept, part.3),
        None => false,
    }
}

/// Whether a part is merged so.
fn is_merged(
    alloc: Global,
    cursors: &mut Vec<TableCursor<'static, Bytewise>>,
    part: &Part,
    row: &Row,
    inputs: &Inputs,
) -> bool {
    match merged(alloc, cursors, part.0, row, inputs) {
        Ok(run) => is_run(&run, part),
        Err(fault) => part.2.is_none() && fault == Fault::of(FaultName::Duplicate),
    }
}

/// Whether the parts of a row are, one after the other by the same cursors.
fn are_merged(
    alloc: Global,
    cursors: &mut Vec<TableCursor<'static, Bytewise>>,
    row: &Row,
    inputs: &Inputs,
) -> bool {
    for part in row.4 {
        let is_begun = !part.1 || all_seek(alloc, cursors, part.0);
        if !is_begun || !is_merged(alloc, cursors, part, row, inputs) {
            return false;
        }
    }
    true
}

/// Whether a row is merged as it says.
fn is_kept(rt: &impl Abort, alloc: Global, row: &Row) -> bool {
    let inputs = inputs_after(rt, alloc, row.1, 1);
    let mut cursors = Vec::new(alloc);
    push_cursors(rt, alloc, &mut cursors, row.0);
    are_merged(alloc, &mut cursors, row, &inputs)
}

/// Whether a cursor over the table of `a` and `u`, made for the user keys from `b` on, begins at
/// `u`, which comes before no `u`.
fn begins_at_u(rt: &impl Abort, alloc: Global) -> bool {
    let table = check::<Bytewise>(alloc, A_U).expect(rt, "a table");
    let range = Range {
        lower: Some(b"b"),
        upper: None,
    };
    let cursor = cursor_from(alloc, &table, range).expect(rt, "memory");
    cursor.valid()
        && cursor.key().user() == b"u".as_slice()
        && starts_before::<Bytewise, _>(&cursor, Some(b"v"), false)
        && !starts_before::<Bytewise, _>(&cursor, Some(b"u"), true)
}

#[test]
fn what_ranges_keep(rt: HostRuntime) {
    for (place, row) in ROWS.iter().enumerate() {
        assert!(rt; is_kept(&rt, rt.alloc(), row), "{place}");
    }
    assert!(rt; begins_at_u(&rt, rt.alloc()));
}

#[test]
fn laws_are_called(rt: HostRuntime) {
    range_start_law::<Bytewise>();
    distinct_law::<Bytewise>();
    holds_law::<Bytewise>();
    one_key::<Bytewise>();
    ranges_compose::<Bytewise>();
    assert!(rt; is_rising(&[1, 2]) && !is_rising(&[2, 2]));
}
