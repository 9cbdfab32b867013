//! Outcomes that are installed, with the answers and the files left.

use crate::compact_tests::tables::{B, U4_DELETED, U4_DELETED_U2};
use crate::store_tests::rows::{
    AA, B_AA, DELETION_LEFT, FILE_ABOVE, Files, NINE, NUMBER_10, SHORTLEX, T_AND_V,
};
use adoption::Comparison;
use coding::FaultName;
use keep::Snapshots;

/// A folder of manifest 5 and files 7 and 8, and the files of a folder with an outcome. Then the
/// answer of its installation, and files that the first folder has after it.
#[derive(Clone, Copy)]
pub(crate) struct Row {
    pub name: &'static str,
    pub manifest: &'static [u8],
    pub seven: &'static [u8],
    pub outcome: Files,
    pub comparison: Comparison<'static>,
    pub answer: Result<&'static str, FaultName>,
    pub left: Files,
}

/// Compared, with the last sequence of the edit and all later ones.
const PLAINLY: Comparison<'static> = Comparison::With(Snapshots::Listed(&[]));

/// `edit: log 3, previous 0, next 11, last 4, pointer 1 u@2 put, delete 1 7`
const EMPTY_EDIT: &[u8] = b"\
    \x02\x03\x09\0\x03\x0b\x04\x04\x05\x01\x09u\x01\x02\0\0\0\0\0\0\x06\x01\x07";

/// `edit: log 3, previous 0, next 11, last 4, pointer 1 u@2 put, delete 1 7, file 2 10 112 u@4 del
/// .. u@4 del`
const SHORT_EDIT: &[u8] = b"\
    \x02\x03\x09\0\x03\x0b\x04\x04\x05\x01\x09u\x01\x02\0\0\0\0\0\0\x06\x01\x07\x07\x02\x0ap\x09u\0\
    \x04\0\0\0\0\0\0\x09u\0\x04\0\0\0\0\0\0";

/// `edit: log 3, previous 0, next 21, last 4, pointer 1 u@2 put, delete 1 7, file 2 20 113 u@4 del
/// .. u@4 del`
const LATE_EDIT: &[u8] = b"\
    \x02\x03\x09\0\x03\x15\x04\x04\x05\x01\x09u\x01\x02\0\0\0\0\0\0\x06\x01\x07\x07\x02\x14q\x09u\0\
    \x04\0\0\0\0\0\0\x09u\0\x04\0\0\0\0\0\0";

/// `edit: log 3, previous 0, next 12, last 4, pointer 1 aa@1 put, delete 1 7, file 2 10 114 b@2 put
/// .. b@2 put, file 2 11 116 aa@1 put .. aa@1 put`
const TWO_OUTPUTS: &[u8] = b"\
    \x02\x03\x09\0\x03\x0c\x04\x04\x05\x01\x0aaa\x01\x01\0\0\0\0\0\0\x06\x01\x07\x07\x02\x0ar\x09b\
    \x01\x02\0\0\0\0\0\0\x09b\x01\x02\0\0\0\0\0\0\x07\x02\x0bt\x0aaa\x01\x01\0\0\0\0\0\0\x0aaa\x01\
    \x01\0\0\0\0\0\0";

/// `log: comparator leveldb.BytewiseComparator, log 5, previous 0, next 12, last 6, file 1 7 125
/// u@4 del .. u@2 put, file 3 8 127 t@1 put .. v@1 put`
const MOVED_ON: &[u8] = b"\
    \xc3\xf4\x11\xb5T\0\x01\x01\x1aleveldb.BytewiseComparator\x02\x05\x09\0\x03\x0c\x04\x06\x07\
    \x01\x07\x7d\x09u\0\x04\0\0\0\0\0\0\x09u\x01\x02\0\0\0\0\0\0\x07\x03\x08\x7f\x09t\x01\x01\0\0\0\
    \0\0\0\x09v\x01\x01\0\0\0\0\0\0";

/// `log: comparator leveldb.BytewiseComparator, file 1 7 125 u@4 del .. u@2 put, file 3 8 127 t@1
/// put .. v@1 put | log 5, previous 0, next 21, last 6, pointer 1 u@2 put, delete 1 7, file 2 20
/// 113 u@4 del .. u@4 del`
const MOVED_ON_LEFT: &[u8] = b"\
    \x8b\x89\xe2FL\0\x01\x01\x1aleveldb.BytewiseComparator\x07\x01\x07\x7d\x09u\0\x04\0\0\0\0\0\
    \0\x09u\x01\x02\0\0\0\0\0\0\x07\x03\x08\x7f\x09t\x01\x01\0\0\0\0\0\0\x09v\x01\x01\0\0\0\0\0\0\
    \xbb\x17\x1a\xa0\x2f\0\x01\x02\x05\x09\0\x03\x15\x04\x06\x05\x01\x09u\x01\x02\0\0\0\0\0\0\x06\
    \x01\x07\x07\x02\x14q\x09u\0\x04\0\0\0\0\0\0\x09u\0\x04\0\0\0\0\0\0";

/// Two files of level 1 that lie apart.
/// `log: comparator leveldb.BytewiseComparator, log 3, previous 0, next 9, last 4, file 1 7 114
/// b@2 put .. b@2 put, file 1 8 127 t@1 put .. v@1 put`
const TWO_APART: &[u8] = b"\
    \xb9h\x3b\xf6T\0\x01\x01\x1aleveldb.BytewiseComparator\x02\x03\x09\0\x03\x09\x04\x04\x07\x01\
    \x07r\x09b\x01\x02\0\0\0\0\0\0\x09b\x01\x02\0\0\0\0\0\0\x07\x01\x08\x7f\x09t\x01\x01\0\0\0\0\0\
    \0\x09v\x01\x01\0\0\0\0\0\0";

/// `edit: log 3, previous 0, next 11, last 4, pointer 1 b@2 put, delete 1 7, file 2 10 114 b@2 put
/// .. b@2 put`
const FIRST_EDIT: &[u8] = b"\
    \x02\x03\x09\0\x03\x0b\x04\x04\x05\x01\x09b\x01\x02\0\0\0\0\0\0\x06\x01\x07\x07\x02\x0ar\x09b\
    \x01\x02\0\0\0\0\0\0\x09b\x01\x02\0\0\0\0\0\0";

/// The second file, which a compaction would not take first.
/// `edit: log 3, previous 0, next 21, last 4, pointer 1 b@2 put, delete 1 8, file 2 20 127 t@1 put
/// .. v@1 put`
const SECOND_EDIT: &[u8] = b"\
    \x02\x03\x09\0\x03\x15\x04\x04\x05\x01\x09b\x01\x02\0\0\0\0\0\0\x06\x01\x08\x07\x02\x14\x7f\x09\
    t\x01\x01\0\0\0\0\0\0\x09v\x01\x01\0\0\0\0\0\0";

/// Two files of level 0 that overlap.
/// `log: comparator leveldb.BytewiseComparator, log 3, previous 0, next 9, last 4, file 0 7 125
/// u@4 del .. u@2 put, file 0 8 127 t@1 put .. v@1 put`
const TWO_BESIDE: &[u8] = b"\
    \xfb\x98\xa8\xe4T\0\x01\x01\x1aleveldb.BytewiseComparator\x02\x03\x09\0\x03\x09\x04\x04\x07\0\
    \x07\x7d\x09u\0\x04\0\0\0\0\0\0\x09u\x01\x02\0\0\0\0\0\0\x07\0\x08\x7f\x09t\x01\x01\0\0\0\0\0\0\
    \x09v\x01\x01\0\0\0\0\0\0";

/// The older of them alone.
/// `edit: log 3, previous 0, next 11, last 4, pointer 0 u@2 put, delete 0 7, file 1 10 125 u@4 del
/// .. u@2 put`
const ALONE_EDIT: &[u8] = b"\
    \x02\x03\x09\0\x03\x0b\x04\x04\x05\0\x09u\x01\x02\0\0\0\0\0\0\x06\0\x07\x07\x01\x0a\x7d\x09u\0\
    \x04\0\0\0\0\0\0\x09u\x01\x02\0\0\0\0\0\0";

/// A file of the next level alone.
/// `edit: log 3, previous 0, next 21, last 4, pointer 0 b@2 put, delete 1 8, file 1 20 127 t@1 put
/// .. v@1 put`
const LOWER_EDIT: &[u8] = b"\
    \x02\x03\x09\0\x03\x15\x04\x04\x05\0\x09b\x01\x02\0\0\0\0\0\0\x06\x01\x08\x07\x01\x14\x7f\x09t\
    \x01\x01\0\0\0\0\0\0\x09v\x01\x01\0\0\0\0\0\0";

/// The outcome that was made where it is installed.
pub(crate) const OWN: Row = Row {
    name: "an outcome where it was made",
    manifest: FILE_ABOVE,
    seven: U4_DELETED_U2,
    outcome: &[("EDIT", NUMBER_10), ("000010.ldb", U4_DELETED)],
    comparison: PLAINLY,
    answer: Ok("output 10 113\ndeleted 1 7\ninstalled MANIFEST-000009\n"),
    left: &[
        NINE,
        ("MANIFEST-000009", DELETION_LEFT),
        ("000010.ldb", U4_DELETED),
    ],
};

/// The first of two files of a level.
pub(crate) const FIRST_PART: Row = Row {
    name: "the first of two files",
    manifest: TWO_APART,
    seven: B,
    outcome: &[("EDIT", FIRST_EDIT), ("000010.ldb", B)],
    answer: Ok("output 10 114\ndeleted 1 7\ninstalled MANIFEST-000009\n"),
    left: &[NINE, ("000010.ldb", B)],
    ..OWN
};

/// The second one, which a compaction would not take first.
pub(crate) const SECOND_PART: Row = Row {
    name: "the second of two files",
    outcome: &[("EDIT", SECOND_EDIT), ("000020.ldb", T_AND_V)],
    answer: Ok("output 20 127\ndeleted 1 8\ninstalled MANIFEST-000009\n"),
    left: &[NINE, ("000020.ldb", T_AND_V)],
    ..FIRST_PART
};

/// One that is refused leaves what was there.
const REFUSED: Row = Row {
    left: &[("CURRENT", b"MANIFEST-000005\n")],
    ..OWN
};

/// Outcomes that are installed.
pub(crate) const INSTALLED: &[Row] = &[
    OWN,
    FIRST_PART,
    SECOND_PART,
    Row {
        name: "in a database that was in use meanwhile",
        manifest: MOVED_ON,
        outcome: &[("EDIT", LATE_EDIT), ("000020.ldb", U4_DELETED)],
        answer: Ok("output 20 113\ndeleted 1 7\ninstalled MANIFEST-000012\n"),
        left: &[
            ("CURRENT", b"MANIFEST-000012\n"),
            ("MANIFEST-000012", MOVED_ON_LEFT),
            ("000020.ldb", U4_DELETED),
        ],
        ..OWN
    },
    // A compaction here would put both into one table.
    Row {
        name: "of another file size, by length first",
        manifest: SHORTLEX,
        seven: B_AA,
        outcome: &[("EDIT", TWO_OUTPUTS), ("000010.ldb", B), ("000011.ldb", AA)],
        answer: Ok("output 10 114\noutput 11 116\ndeleted 1 7\ninstalled MANIFEST-000009\n"),
        left: &[NINE, ("000010.ldb", B), ("000011.ldb", AA)],
        ..OWN
    },
    Row {
        name: "an entry too few, not compared",
        outcome: &[("EDIT", EMPTY_EDIT)],
        comparison: Comparison::LeftOut,
        answer: Ok("deleted 1 7\ninstalled MANIFEST-000009\n"),
        left: &[NINE],
        ..OWN
    },
];

/// Outcomes that are refused for their edit, and for their outputs.
pub(crate) const REFUSED_ROWS: &[Row] = &[
    Row {
        name: "no edit",
        outcome: &[("000010.ldb", U4_DELETED)],
        answer: Err(FaultName::Missing),
        ..REFUSED
    },
    Row {
        name: "numbers that are taken meanwhile",
        manifest: MOVED_ON,
        answer: Err(FaultName::Apply),
        ..REFUSED
    },
    Row {
        name: "a newer file of level 0 that is left beside",
        manifest: TWO_BESIDE,
        outcome: &[("EDIT", ALONE_EDIT), ("000010.ldb", U4_DELETED_U2)],
        answer: Err(FaultName::Apply),
        ..REFUSED
    },
    Row {
        name: "no file of the level",
        manifest: TWO_APART,
        seven: B,
        outcome: &[("EDIT", LOWER_EDIT), ("000020.ldb", T_AND_V)],
        answer: Err(FaultName::Apply),
        ..REFUSED
    },
    Row {
        name: "an entry too few",
        outcome: &[("EDIT", EMPTY_EDIT)],
        answer: Err(FaultName::Lawless),
        ..REFUSED
    },
    Row {
        name: "snapshots above the last sequence",
        comparison: Comparison::With(Snapshots::Listed(&[5])),
        answer: Err(FaultName::SnapshotList),
        ..REFUSED
    },
    Row {
        name: "an output of another size",
        outcome: &[("EDIT", SHORT_EDIT), ("000010.ldb", U4_DELETED)],
        answer: Err(FaultName::Bounds),
        ..REFUSED
    },
];
