//! Which versions are lawful, the order of their tables, what they answer, and whether entries
//! fall.

use crate::pick_tests::version_of;
use coding::FaultName;
use edit::{FileMeta, Version};
use ikey::{Bytewise, InternalKey};
use reads::{
    NumberedTable, all_files, answers_newest_first, falls_in, files_newest_first, get, is_below,
    is_stated, lawful, may_hold, tables_newest_first,
};
use split::{Range, is_before};
use std::alloc::Global;
use std::process::Abort;
use std::test::*;
use table::{SoundTable, TableCursor, check};

// Tables and edits in LevelDB's formats, one line for each block, footer or file.

/// `table: u@10 put a`
const U_AT_TEN: &[u8] = b"\
    \0\x09\x01u\x01\x0a\0\0\0\0\0\0a\0\0\0\0\x01\0\0\0\0\xacK\x3a\x94\0\0\0\0\x01\0\0\0\0\xc0\xf2\
    \xa1\xb0\0\x09\x02u\x01\x0a\0\0\0\0\0\0\0\x15\0\0\0\0\x01\0\0\0\0\x88\xb0\x0a\xf1\x1a\x08\x27\
    \x16\0\0\0\0\0\0\0\0\0\0\0\0\0\0\0\0\0\0\0\0\0\0\0\0\0\0\0\0\0\0\0\0\0\0\0\0W\xfb\x80\x8b\x24u\
    G\xdb";

/// `table: u@5 put b`
const U_AT_FIVE: &[u8] = b"\
    \0\x09\x01u\x01\x05\0\0\0\0\0\0b\0\0\0\0\x01\0\0\0\0y\xf8\xe9\x7f\0\0\0\0\x01\0\0\0\0\xc0\xf2\
    \xa1\xb0\0\x09\x02u\x01\x05\0\0\0\0\0\0\0\x15\0\0\0\0\x01\0\0\0\0\xf6U\x18\x14\x1a\x08\x27\x16\
    \0\0\0\0\0\0\0\0\0\0\0\0\0\0\0\0\0\0\0\0\0\0\0\0\0\0\0\0\0\0\0\0\0\0\0\0W\xfb\x80\x8b\x24uG\
    \xdb";

/// Two files of level 1, the newer one first: 8 and 7, of 114 bytes each. The next file has number
/// 9.
/// `edit: next 9, file 1 8 114 u@10 put .. u@10 put, file 1 7 114 u@5 put .. u@5 put`
const TWO: &[u8] = b"\
    \x03\x09\x07\x01\x08r\x09u\x01\x0a\0\0\0\0\0\0\x09u\x01\x0a\0\0\0\0\0\0\x07\x01\x07r\x09u\x01\
    \x05\0\0\0\0\0\0\x09u\x01\x05\0\0\0\0\0\0";

/// `edit: next 9, file 0 8 114 u@10 put .. u@10 put, file 0 7 114 u@5 put .. u@5 put`
const AT_LEVEL_0: &[u8] = b"\
    \x03\x09\x07\0\x08r\x09u\x01\x0a\0\0\0\0\0\0\x09u\x01\x0a\0\0\0\0\0\0\x07\0\x07r\x09u\x01\x05\
    \0\0\0\0\0\0\x09u\x01\x05\0\0\0\0\0\0";

/// The newer one at level 0 with the lower number.
/// `edit: next 9, file 0 7 114 u@10 put .. u@10 put, file 0 8 114 u@5 put .. u@5 put`
const NEWER_FIRST: &[u8] = b"\
    \x03\x09\x07\0\x07r\x09u\x01\x0a\0\0\0\0\0\0\x09u\x01\x0a\0\0\0\0\0\0\x07\0\x08r\x09u\x01\x05\
    \0\0\0\0\0\0\x09u\x01\x05\0\0\0\0\0\0";

/// The older one with a byte more than its table has.
/// `edit: next 9, file 1 8 114 u@10 put .. u@10 put, file 1 7 115 u@5 put .. u@5 put`
const LONGER: &[u8] = b"\
    \x03\x09\x07\x01\x08r\x09u\x01\x0a\0\0\0\0\0\0\x09u\x01\x0a\0\0\0\0\0\0\x07\x01\x07s\x09u\x01\
    \x05\0\0\0\0\0\0\x09u\x01\x05\0\0\0\0\0\0";

/// A file's number and its table.
type Given = (u64, &'static [u8]);

/// A sequence, and the value of `u` there; None if a table is missing.
type Get = (u64, Option<Option<&'static [u8]>>);

/// A version, the tables that are given, and the answers.
struct Row {
    /// The edit that makes it of the empty version.
    edit: &'static [u8],
    first: Given,
    second: Given,
    /// How it is refused, if it isn't lawful.
    lawless: Option<FaultName>,
    /// The sequences of the tables in their order; none if that is refused.
    standing: &'static [u64],
    gets: &'static [Get],
}

const ROWS: &[Row] = &[
    Row {
        edit: TWO,
        first: (8, U_AT_TEN),
        second: (7, U_AT_FIVE),
        lawless: None,
        standing: &[10, 5],
        gets: &[
            (7, Some(Some(b"b"))),
            (4, Some(None)),
            (u64::MAX, Some(Some(b"a"))),
        ],
    },
    Row {
        edit: AT_LEVEL_0,
        first: (7, U_AT_FIVE),
        second: (8, U_AT_TEN),
        lawless: None,
        standing: &[10, 5],
        gets: &[(9, Some(Some(b"b"))), (10, Some(Some(b"a")))],
    },
    // A table is missing.
    Row {
        edit: TWO,
        first: (8, U_AT_TEN),
        second: (9, U_AT_FIVE),
        lawless: Some(FaultName::Missing),
        standing: &[],
        gets: &[(7, None)],
    },
    // Older entries are before newer ones, which the order of tables does not test.
    Row {
        edit: NEWER_FIRST,
        first: (7, U_AT_TEN),
        second: (8, U_AT_FIVE),
        lawless: Some(FaultName::Lawless),
        standing: &[5, 10],
        gets: &[],
    },
    // The stated size is wrong.
    Row {
        edit: LONGER,
        first: (8, U_AT_TEN),
        second: (7, U_AT_FIVE),
        lawless: Some(FaultName::Lawless),
        standing: &[],
        gets: &[],
    },
];

/// The table of a file.
fn table_of(rt: &impl Abort, alloc: Global, given: Given) -> NumberedTable<'static, Bytewise> {
    let table = check::<Bytewise>(alloc, given.1).expect(rt, "a table");
    NumberedTable::of(given.0, table)
}

/// Whether a table is that of this file.
fn is_given(table: &NumberedTable<'_, Bytewise>, given: Given) -> bool {
    table.number() == given.0 && table.table().bytes() == given.1
}

/// Whether a version is found lawful, or is refused so.
fn is_judged(
    alloc: Global,
    version: &Version,
    tables: &[NumberedTable<'_, Bytewise>],
    lawless: Option<FaultName>,
) -> bool {
    match lawful(alloc, version, tables) {
        Ok(()) => lawless.is_none(),
        Err(fault) => lawless == Some(fault.name),
    }
}

/// Whether the smallest keys of tables have these sequences.
fn are_sequences(tables: &[&SoundTable<'_, Bytewise>], wanted: &[u64]) -> bool {
    for place in 0..tables.len() {
        if place >= wanted.len() || tables[place].smallest().sequence() != wanted[place] {
            return false;
        }
    }
    tables.len() == wanted.len()
}

/// Whether a version's tables have the order of a row, or its refusal.
fn stand(
    alloc: Global,
    version: &Version,
    tables: &[NumberedTable<'_, Bytewise>],
    row: &Row,
) -> bool {
    match tables_newest_first(alloc, version, tables) {
        Ok(found) => are_sequences(&found, row.standing),
        Err(fault) => row.standing.is_empty() && row.lawless == Some(fault.name),
    }
}

/// Whether each of these gets has its answer.
fn are_got(
    alloc: Global,
    version: &Version,
    tables: &[NumberedTable<'_, Bytewise>],
    gets: &[Get],
) -> bool {
    for (at, wanted) in gets {
        let is_got = match get(alloc, version, tables, b"u", *at) {
            Ok(found) => *wanted == Some(found),
            Err(fault) => wanted.is_none() && fault.name == FaultName::Missing,
        };
        if !is_got {
            return false;
        }
    }
    true
}

/// Whether a version with these tables has the answers of a row.
fn is_row(
    alloc: Global,
    version: &Version,
    tables: &[NumberedTable<'_, Bytewise>],
    row: &Row,
) -> bool {
    is_judged(alloc, version, tables, row.lawless)
        && stand(alloc, version, tables, row)
        && are_got(alloc, version, tables, row.gets)
}

/// Whether the version of a row has them with the tables of the row.
fn is_answered(rt: &impl Abort, alloc: Global, row: &Row) -> bool {
    let version = version_of(rt, alloc, row.edit);
    let tables = [
        table_of(rt, alloc, row.first),
        table_of(rt, alloc, row.second),
    ];
    is_given(&tables[0], row.first) && is_row(alloc, &version, &tables, row)
}

#[test]
fn versions_and_what_they_answer(rt: HostRuntime) {
    answers_newest_first();
    for (place, row) in ROWS.iter().enumerate() {
        assert!(rt; is_answered(&rt, rt.alloc(), row), "{place}");
    }
}

/// `edit: next 9, file 1 7 114 u@5 put .. u@5 put, file 1 8 114 u@5 put .. u@5 put`
const SAME_RANGE: &[u8] = b"\
    \x03\x09\x07\x01\x07r\x09u\x01\x05\0\0\0\0\0\0\x09u\x01\x05\0\0\0\0\0\0\x07\x01\x08r\x09u\x01\
    \x05\0\0\0\0\0\0\x09u\x01\x05\0\0\0\0\0\0";

/// An edit, and the numbers of its version's files as they stand, if each comes before the next.
type Standing = (&'static [u8], Option<&'static [u64]>);

const STANDING: &[Standing] = &[(AT_LEVEL_0, Some(&[8, 7])), (SAME_RANGE, None)];

/// Whether files have these numbers.
fn are_numbers(files: &[&FileMeta], wanted: &[u64]) -> bool {
    for (file, number) in files.iter().zip(wanted) {
        if file.number != *number {
            return false;
        }
    }
    files.len() == wanted.len()
}

/// Whether the files of a version stand as expected.
fn files_stand(rt: &impl Abort, alloc: Global, row: &Standing) -> bool {
    let version = version_of(rt, alloc, row.0);
    let files = files_newest_first::<Bytewise>(alloc, &version).expect(rt, "memory");
    match (files, row.1) {
        (Some(files), Some(wanted)) => are_numbers(&files, wanted),
        (None, None) => true,
        _ => false,
    }
}

/// Whether the first file of a version is stated to have this table.
fn first_is(rt: &impl Abort, alloc: Global, edit: &[u8], bytes: &[u8]) -> bool {
    let version = version_of(rt, alloc, edit);
    let table = check::<Bytewise>(alloc, bytes).expect(rt, "a table");
    let files = all_files::<Bytewise>(alloc, &version).expect(rt, "memory");
    let first = files.first().expect(rt, "a file");
    let next = version.next_file();
    is_stated(next, first.meta, bytes, table.smallest(), table.largest())
}

#[test]
fn files_as_they_stand(rt: HostRuntime) {
    for (place, row) in STANDING.iter().enumerate() {
        assert!(rt; files_stand(&rt, rt.alloc(), row), "{place}");
    }
    assert!(rt; first_is(&rt, rt.alloc(), TWO, U_AT_TEN));
    assert!(rt; !first_is(&rt, rt.alloc(), TWO, U_AT_FIVE));
}

/// Tables in their order, a range of user keys, and whether the entries of each user key fall
/// there.
type Falling = (
    &'static [&'static [u8]],
    Option<&'static [u8]>,
    Option<&'static [u8]>,
    bool,
);

const FALLING: &[Falling] = &[
    (&[U_AT_TEN, U_AT_FIVE], None, None, true),
    (&[U_AT_FIVE, U_AT_TEN], Some(b"u"), Some(b"u\0"), false),
    // The range has no entry.
    (&[U_AT_FIVE, U_AT_TEN], None, Some(b"u"), true),
];

/// The cursor over a table.
fn cursor(rt: &impl Abort, alloc: Global, bytes: &'static [u8]) -> TableCursor<'static, Bytewise> {
    let table = table_of(rt, alloc, (7, bytes)).into_table();
    TableCursor::new(alloc, &table).expect(rt, "memory")
}

/// Whether the entries of tables, read one after the other, fall in a range.
fn fall(rt: &impl Abort, alloc: Global, row: &Falling) -> bool {
    let mut cursors = Vec::new(alloc);
    for bytes in row.0 {
        cursors.push(cursor(rt, alloc, bytes)).expect(rt, "memory");
    }
    let range = Range {
        lower: row.1,
        upper: row.2,
    };
    falls_in(alloc, cursors, range).expect(rt, "memory")
}

#[test]
fn entries_that_fall_in_a_range(rt: HostRuntime) {
    for (place, row) in FALLING.iter().enumerate() {
        assert!(rt; fall(&rt, rt.alloc(), row) == row.3, "{place}");
    }
}

/// Whether the files of a version stand by level, and hold `u` alone.
fn are_listed(rt: &impl Abort, alloc: Global) -> bool {
    let version = version_of(rt, alloc, NEWER_FIRST);
    let files = all_files::<Bytewise>(alloc, &version).expect(rt, "memory");
    let first = files.first().expect(rt, "a file");
    (files.len(), first.level, first.meta.number) == (2, 0, 7)
        && may_hold::<Bytewise>(first.meta, b"u")
        && !may_hold::<Bytewise>(first.meta, b"t")
}

#[test]
fn files_keys_and_numbers(rt: HostRuntime) {
    let key = InternalKey::parse(b"u\x01\x05\0\0\0\0\0\0").expect(&rt, "a key");
    assert!(rt; are_listed(&rt, rt.alloc()));
    assert!(rt; is_before::<Bytewise>(key, Some(b"v"), false));
    assert!(rt; !is_before::<Bytewise>(key, Some(b"u"), true));
    assert!(rt; is_below(Some(5), 4) && !is_below(Some(5), 5));
}
