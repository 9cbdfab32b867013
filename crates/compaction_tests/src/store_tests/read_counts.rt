//! How often a compaction reads the files of its folder.

use crate::compact_tests::tables::U9;
use crate::store_tests::rows::{CURRENT, DEFAULTS, Files};
use crate::store_tests::tests::{MEMORY, step_lines};
use crate::tested_tables::{B_AT_TWO, U_AT_ONE};
use shelf::Shelf;
use std::process::Abort;
use std::test::*;
use store::{Open, checkers, compact_dir};

/// `table: a@1 put y, u@2 put y`
const OLDER: &[u8] = b"\
    \0\x09\x01a\x01\x01\0\0\0\0\0\0y\0\x09\x01u\x01\x02\0\0\0\0\0\0y\0\0\0\0\x01\0\0\0\0\x2a\xde\
    \x86\xe1\0\0\0\0\x01\0\0\0\0\xc0\xf2\xa1\xb0\0\x09\x02u\x01\x02\0\0\0\0\0\0\0\x22\0\0\0\0\x01\
    \0\0\0\0\x8b\xce1\x0d\x27\x084\x16\0\0\0\0\0\0\0\0\0\0\0\0\0\0\0\0\0\0\0\0\0\0\0\0\0\0\0\0\0\0\
    \0\0\0\0\0\0W\xfb\x80\x8b\x24uG\xdb";

/// `table: m@2 put y, u@4 put y`
const BEHIND: &[u8] = b"\
    \0\x09\x01m\x01\x02\0\0\0\0\0\0y\0\x09\x01u\x01\x04\0\0\0\0\0\0y\0\0\0\0\x01\0\0\0\0\xff\x23\
    \xdbB\0\0\0\0\x01\0\0\0\0\xc0\xf2\xa1\xb0\0\x09\x02u\x01\x04\0\0\0\0\0\0\0\x22\0\0\0\0\x01\0\0\
    \0\07\x90\xdd\x15\x27\x084\x16\0\0\0\0\0\0\0\0\0\0\0\0\0\0\0\0\0\0\0\0\0\0\0\0\0\0\0\0\0\0\0\0\
    \0\0\0\0W\xfb\x80\x8b\x24uG\xdb";

/// Three files of level 0, which overlap and whose user keys rise with their numbers; one of level
/// 1, and one of level 2 that is no input.
/// `log: comparator leveldb.BytewiseComparator, log 3, previous 0, next 20, last 10, file 0 11 127
/// a@1 put .. u@2 put, file 0 12 127 m@2 put .. u@4 put, file 0 13 114 u@9 put .. u@9 put, file 1
/// 10 114 u@1 put .. u@1 put, file 2 9 113 b@2 put .. b@2 put`
const MANIFEST: &[u8] = b"\
    D\x07E\x20\x9c\0\x01\x01\x1aleveldb.BytewiseComparator\x02\x03\x09\0\x03\x14\x04\x0a\x07\0\x0b\
    \x7f\x09a\x01\x01\0\0\0\0\0\0\x09u\x01\x02\0\0\0\0\0\0\x07\0\x0c\x7f\x09m\x01\x02\0\0\0\0\0\0\
    \x09u\x01\x04\0\0\0\0\0\0\x07\0\x0dr\x09u\x01\x09\0\0\0\0\0\0\x09u\x01\x09\0\0\0\0\0\0\x07\x01\
    \x0ar\x09u\x01\x01\0\0\0\0\0\0\x09u\x01\x01\0\0\0\0\0\0\x07\x02\x09q\x09b\x01\x02\0\0\0\0\0\0\
    \x09b\x01\x02\0\0\0\0\0\0";

const FILES: Files = &[
    ("CURRENT", CURRENT),
    ("MANIFEST-000005", MANIFEST),
    ("000009.ldb", B_AT_TWO),
    ("000010.ldb", U_AT_ONE),
    ("000011.ldb", OLDER),
    ("000012.ldb", BEHIND),
    ("000013.ldb", U9),
];

/// The lines of the compaction of level 0. The table left is `a` at 1, `m` at 2 and `u` at 9, of
/// 140 bytes.
const LINES: &str = "output 21 140\ndeleted 0 11\ndeleted 0 12\ndeleted 0 13\ndeleted 1 10\n\
    installed MANIFEST-000020\n";

/// How many calls read. CURRENT and the manifest are read when the folder is opened, and CURRENT
/// again just before it is replaced. The test of the version reads each of the five tables, and
/// holds them for the compaction.
const READS: u64 = 8;

#[test]
fn each_table_is_read_once(rt: HostRuntime) {
    let mut folder = Shelf::new(rt.alloc(), FILES);
    let step = compact_dir(
        &checkers(&rt, rt.alloc(), &Open),
        &mut folder,
        0,
        &DEFAULTS,
        MEMORY,
    )
    .expect(&rt, "a compaction");
    let lines = step_lines(rt.alloc(), &step).expect(&rt, "memory");
    assert!(rt; lines.as_slice() == LINES.as_bytes());
    assert_eq!(rt;
        folder.calls().checked_sub(folder.steps().len() as u64),
        Some(READS)
    );
}
