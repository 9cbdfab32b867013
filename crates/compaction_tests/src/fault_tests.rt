//! All that is wrong with versions, with the tables of a folder in one range of user keys and in
//! several.

use crate::compact_tests::tables::U9;
use crate::tested_tables::{
    A_AND_U, A_AT_THREE, B_AT_TWO, BUDGETS, Held, OLDER_ABOVE, OLDER_VALUES, SEVERAL_RANGES,
    SHARED_KEY, U_AT_ONE, U_AT_SEVEN, opened_after,
};
use board::Open;
use checks::{checkers, test_version};
use edit::Version;
use faults::{FaultTaker, FileFault, all_faults};
use ikey::Bytewise;
use shelf::Shelf;
use std::alloc::Global;
use std::process::Abort;
use std::test::*;
use std::thread::Threads;

/// The range of file 9 has all keys of file 11, and the first key of file 12.
/// `edit: comparator leveldb.BytewiseComparator, log 3, previous 0, next 20, last 10, file 1 9 125
/// a@1 put .. u@1 put, file 1 11 113 b@2 put .. b@2 put, file 1 12 114 u@9 put .. u@9 put`
const OVERLAPPING: &[u8] = b"\
    \x01\x1aleveldb.BytewiseComparator\x02\x03\x09\0\x03\x14\x04\x0a\x07\x01\x09\x7d\x09a\x01\x01\0\
    \0\0\0\0\0\x09u\x01\x01\0\0\0\0\0\0\x07\x01\x0bq\x09b\x01\x02\0\0\0\0\0\0\x09b\x01\x02\0\0\0\0\
    \0\0\x07\x01\x0cr\x09u\x01\x09\0\0\0\0\0\0\x09u\x01\x09\0\0\0\0\0\0";

/// Its number is next file.
/// `edit: comparator leveldb.BytewiseComparator, log 3, previous 0, next 12, last 10, file 1 12 114
/// u@9 put .. u@9 put`
const LOW_NEXT: &[u8] = b"\
    \x01\x1aleveldb.BytewiseComparator\x02\x03\x09\0\x03\x0c\x04\x0a\x07\x01\x0cr\x09u\x01\x09\0\0\
    \0\0\0\0\x09u\x01\x09\0\0\0\0\0\0";

/// Searched are 13, 12, 9, 10 and 11.
/// `edit: comparator leveldb.BytewiseComparator, log 3, previous 0, next 20, last 10, file 0 13 114
/// u@1 put .. u@1 put, file 0 12 114 u@9 put .. u@9 put, file 1 9 125 a@1 put .. u@1 put, file 2 10
/// 113 a@3 put .. a@3 put, file 2 11 114 u@7 put .. u@7 put`
const OUT_OF_ORDER: &[u8] = b"\
    \x01\x1aleveldb.BytewiseComparator\x02\x03\x09\0\x03\x14\x04\x0a\x07\0\x0dr\x09u\x01\x01\0\0\0\
    \0\0\0\x09u\x01\x01\0\0\0\0\0\0\x07\0\x0cr\x09u\x01\x09\0\0\0\0\0\0\x09u\x01\x09\0\0\0\0\0\0\
    \x07\x01\x09\x7d\x09a\x01\x01\0\0\0\0\0\0\x09u\x01\x01\0\0\0\0\0\0\x07\x02\x0aq\x09a\x01\x03\0\
    \0\0\0\0\0\x09a\x01\x03\0\0\0\0\0\0\x07\x02\x0br\x09u\x01\x07\0\0\0\0\0\0\x09u\x01\x07\0\0\0\0\
    \0\0";

/// A version, the files of a folder, after how many faults the taker says to stop, those that are
/// told, and how many these are. Keys are told by their first byte.
#[derive(Clone, Copy)]
struct Row {
    name: &'static str,
    edit: &'static [u8],
    files: &'static [Held],
    most: u64,
    told: &'static str,
    count: u64,
}

/// The files of [`SEVERAL_RANGES`].
const ALL_THERE: &[Held] = &[
    ("000009.ldb", A_AND_U),
    ("000010.ldb", A_AT_THREE),
    ("000011.ldb", B_AT_TWO),
    ("000012.sst", U_AT_SEVEN),
    ("000013.ldb", U9),
];

/// The files of [`OUT_OF_ORDER`].
const DISORDERED: &[Held] = &[
    ("000009.ldb", A_AND_U),
    ("000010.ldb", A_AT_THREE),
    ("000011.ldb", U_AT_SEVEN),
    ("000012.ldb", U9),
    ("000013.ldb", U_AT_ONE),
];

/// A version of which nothing is wrong.
const PLAIN: Row = Row {
    name: "nothing",
    edit: SEVERAL_RANGES,
    files: ALL_THERE,
    most: u64::MAX,
    told: "",
    count: 0,
};

/// What is wrong with files, and then user keys whose sequences don't fall.
const ROWS: &[Row] = &[
    PLAIN,
    Row {
        name: "a missing table and two invalid ones",
        files: &[
            ("000009.ldb", b"short"),
            ("000010.ldb", A_AT_THREE),
            ("000011.ldb", B_AT_TWO),
            ("000012.ldb", &[0; 48]),
        ],
        told: "13 Refused(Missing), 12 Refused(Magic), 9 Refused(Short), ",
        count: 3,
        ..PLAIN
    },
    Row {
        name: "the length of a table too",
        edit: SHARED_KEY,
        files: &[("000011.ldb", U_AT_SEVEN), ("000012.ldb", A_AT_THREE)],
        told: "12 Length { held: 113, stated: 114 }, 12 Smallest, 12 Largest, ",
        count: 3,
        ..PLAIN
    },
    Row {
        name: "a number that is next file, and no table",
        edit: LOW_NEXT,
        files: &[],
        told: "12 NotBelow(12), 12 Refused(Missing), ",
        count: 2,
        ..PLAIN
    },
    Row {
        name: "files of a level that overlap",
        edit: OVERLAPPING,
        files: &[
            ("000009.ldb", A_AND_U),
            ("000011.ldb", B_AT_TWO),
            ("000012.ldb", U9),
        ],
        told: "9 Overlaps(11), 9 Overlaps(12), key 117 9 12, ",
        count: 3,
        ..PLAIN
    },
    Row {
        name: "an older entry above a newer one",
        edit: OLDER_ABOVE,
        files: OLDER_VALUES,
        told: "key 117 13 12, ",
        count: 1,
        ..PLAIN
    },
    Row {
        name: "two keys out of order",
        edit: OUT_OF_ORDER,
        files: DISORDERED,
        told: "key 97 9 10, key 117 13 12, ",
        count: 2,
        ..PLAIN
    },
    Row {
        name: "a taker that says to stop among the keys",
        edit: OUT_OF_ORDER,
        files: DISORDERED,
        most: 1,
        told: "key 97 9 10, ",
        count: 1,
    },
];

/// Who collects faults, and says to stop after some.
#[derive(Drop)]
struct Collected {
    text: String,
    most: u64,
    number: u64,
}

impl Collected {
    /// Whether more are wanted, after one.
    fn wants_more(&mut self) -> bool {
        self.number = self.number.saturating_add(1);
        self.number < self.most
    }
}

impl FaultTaker for Collected {
    fn file_fault(&mut self, number: u64, fault: FileFault) -> bool {
        let _ = write!(self.text, "{number} {fault:?}, ");
        self.wants_more()
    }

    fn key_fault(&mut self, user: &[u8], file: u64, other: u64) -> bool {
        let first = user.first().copied().unwrap_or(0);
        let _ = write!(self.text, "key {first} {file} {other}, ");
        self.wants_more()
    }
}

/// Whether a version passes its test exactly if nothing is wrong with it.
fn is_tested(rt: &(impl Threads + Sync), alloc: Global, version: &Version, row: &Row) -> bool {
    let mut shelf = Shelf::new(alloc, row.files);
    let workers = checkers(rt, alloc, &Open);
    let tested = test_version::<Bytewise, _, _, _>(&workers, &mut shelf, version, 300);
    tested.is_ok() == (row.count == 0)
}

/// Whether what is told of a row is what it says, and nothing exactly if the version passes its
/// test.
fn tell(rt: &(impl Threads + Sync + Abort), alloc: Global, row: &Row, memory: u64) -> bool {
    let opened = opened_after(rt, alloc, row.edit);
    let mut shelf = Shelf::new(alloc, row.files);
    let mut told = Collected {
        text: String::new(alloc),
        most: row.most,
        number: 0,
    };
    let workers = checkers(rt, alloc, &Open);
    let count = all_faults(&workers, &mut shelf, &opened, memory, &mut told);
    told.text.as_str() == row.told
        && count == Ok(row.count)
        && is_tested(rt, alloc, &opened.version, row)
}

#[test]
fn faults_of_versions(rt: HostRuntime) {
    for row in ROWS {
        for memory in BUDGETS {
            assert!(rt;
                tell(&rt, rt.alloc(), row, *memory),
                "{} {memory}",
                row.name
            );
        }
    }
}
