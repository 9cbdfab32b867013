//! The rows of versions, with the tables of a folder in one range of user keys and in several.

use crate::compact_tests::tables::U4_DELETED;
use crate::tested_tables::{
    A_AND_U, A_AT_THREE, B_AT_TWO, BUDGETS, Held, SEVERAL_RANGES, VALUES, opened_after,
    version_after,
};
use board::Open;
use checks::checkers;
use coding::{Fault, FaultName};
use scan::{RowChoice, RowTaker, scan_unverified, scan_version, sequence_of};
use shelf::Shelf;
use std::alloc::{AllocError, Global};
use std::process::Abort;
use std::test::*;
use std::thread::Threads;

/// A deletion at level 0 above an older value.
/// `edit: comparator leveldb.BytewiseComparator, log 3, previous 0, next 20, last 10, file 0 13 113
/// u@4 del .. u@4 del, file 1 10 113 a@3 put .. a@3 put, file 1 11 113 b@2 put .. b@2 put, file 2 9
/// 125 a@1 put .. u@1 put`
pub(crate) const DELETION_ABOVE: &[u8] = b"\
    \x01\x1aleveldb.BytewiseComparator\x02\x03\x09\0\x03\x14\x04\x0a\x07\0\x0dq\x09u\0\x04\0\0\0\0\
    \0\0\x09u\0\x04\0\0\0\0\0\0\x07\x01\x0aq\x09a\x01\x03\0\0\0\0\0\0\x09a\x01\x03\0\0\0\0\0\0\x07\
    \x01\x0bq\x09b\x01\x02\0\0\0\0\0\0\x09b\x01\x02\0\0\0\0\0\0\x07\x02\x09\x7d\x09a\x01\x01\0\0\0\
    \0\0\0\x09u\x01\x01\0\0\0\0\0\0";

/// Those that hold a.
const VALUES_OF_A: &[Held] = &[("000009.ldb", A_AND_U), ("000010.ldb", A_AT_THREE)];

/// A table of a later range is missing.
const PARTLY_THERE: Row = Row {
    name: "a table of a later range is missing",
    files: VALUES_OF_A,
    told: "a= ",
    answer: Err(FaultName::Missing),
    ..PLAIN
};

/// The files of [`DELETION_ABOVE`].
pub(crate) const DELETED: &[Held] = &[
    ("000009.ldb", A_AND_U),
    ("000010.ldb", A_AT_THREE),
    ("000011.ldb", B_AT_TWO),
    ("000013.ldb", U4_DELETED),
];

/// All rows, at the last sequence.
const ALL: RowChoice<'static> = RowChoice {
    from: None,
    to: None,
    at: None,
    limit: None,
};

/// A version, the files of a folder, which rows are chosen, and after how many the taker says to
/// stop. Then the rows that are told, and the answer: a refusal if there is one.
#[derive(Clone, Copy)]
struct Row {
    name: &'static str,
    edit: &'static [u8],
    files: &'static [Held],
    choice: RowChoice<'static>,
    most: usize,
    told: &'static str,
    answer: Result<(), FaultName>,
}

/// All rows of the first version.
const PLAIN: Row = Row {
    name: "all rows",
    edit: SEVERAL_RANGES,
    files: VALUES,
    choice: ALL,
    most: usize::MAX,
    told: "a= b= u=x ",
    answer: Ok(()),
};

/// Rows of a version that is lawful with the tables.
const LAWFUL: &[Row] = &[
    PLAIN,
    Row {
        name: "a sequence between two values of u",
        choice: RowChoice { at: Some(8), ..ALL },
        told: "a= b= u=y ",
        ..PLAIN
    },
    Row {
        name: "a deletion above an older value",
        edit: DELETION_ABOVE,
        files: DELETED,
        told: "a= b= ",
        ..PLAIN
    },
    Row {
        name: "from a key on and before a key",
        choice: RowChoice {
            from: Some(b"b"),
            to: Some(b"u"),
            ..ALL
        },
        told: "b= ",
        ..PLAIN
    },
    Row {
        name: "a limit",
        choice: RowChoice {
            limit: Some(2),
            ..ALL
        },
        told: "a= b= ",
        ..PLAIN
    },
    Row {
        name: "a taker that says to stop",
        most: 1,
        told: "a= ",
        ..PLAIN
    },
];

/// Who collects rows, and says to stop after some.
#[derive(Drop)]
struct Collected {
    rows: Vec<u8>,
    most: usize,
    number: usize,
}

impl Collected {
    /// Appends a row.
    fn push(&mut self, key: &[u8], value: &[u8]) -> Result<(), AllocError> {
        self.rows.extend_from_slice(key)?;
        self.rows.push(b'=')?;
        self.rows.extend_from_slice(value)?;
        self.rows.push(b' ')?;
        Ok(())
    }
}

impl RowTaker for Collected {
    fn row(&mut self, key: &[u8], value: &[u8]) -> bool {
        let _ = self.push(key, value);
        self.number = self.number.saturating_add(1);
        self.number < self.most
    }
}

/// Whether a scan answers and tells what its row says.
fn is_told(answer: Result<(), Fault>, told: &Collected, row: &Row) -> bool {
    let is_answer = match answer {
        Ok(()) => row.answer.is_ok(),
        Err(fault) => row.answer == Err(fault.name),
    };
    is_answer && told.rows.as_slice() == row.told.as_bytes()
}

/// Who collects the rows of a scan, up to as many as are wanted.
fn new_taker(alloc: Global, row: &Row) -> Collected {
    Collected {
        rows: Vec::new(alloc),
        most: row.most,
        number: 0,
    }
}

/// Whether the scan of a row, with a test of the version or without, tells its rows.
fn tell<R: Threads + Sync + Abort>(
    rt: &R,
    alloc: Global,
    row: &Row,
    memory: u64,
    is_tested: bool,
) -> bool {
    let opened = opened_after(rt, alloc, row.edit);
    let mut shelf = Shelf::new(alloc, row.files);
    let mut told = new_taker(alloc, row);
    let workers = checkers(rt, alloc, &Open);
    let answer = if is_tested {
        scan_version(&workers, &mut shelf, &opened, row.choice, memory, &mut told)
    } else {
        scan_unverified(&workers, &mut shelf, &opened, row.choice, memory, &mut told)
    };
    is_told(answer, &told, row)
}

#[test]
fn rows_of_versions(rt: HostRuntime) {
    for row in LAWFUL {
        assert!(rt; tell(&rt, rt.alloc(), row, 1 << 30, true), "{}", row.name);
        for memory in BUDGETS {
            assert!(rt;
                tell(&rt, rt.alloc(), row, *memory, false),
                "{} {memory}",
                row.name
            );
        }
    }
    assert!(rt; tell(&rt, rt.alloc(), &PARTLY_THERE, 1, false));
}

#[test]
fn sequences_at_which_versions_are_read(rt: HostRuntime) {
    let version = version_after(&rt, rt.alloc(), DELETION_ABOVE);
    assert!(rt; sequence_of(&version, None) == 10 && sequence_of(&version, Some(4)) == 4);
}
