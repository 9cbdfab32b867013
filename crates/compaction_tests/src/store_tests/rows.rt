//! Folders that are compacted, with their answers and the files left.

use crate::compact_tests::tables::{B, U4_DELETED};
use coding::FaultName;
use keep::Snapshots;
use store::Settings;
use table::Options;

/// Files by their names.
pub(crate) type Files = &'static [(&'static str, &'static [u8])];

/// A folder of manifest 5 and files 7 and 8, the compaction of a level, its answer, and files that
/// the folder has after it.
#[derive(Clone, Copy)]
pub(crate) struct Row {
    pub name: &'static str,
    /// If it is empty, `ONE_FILE` is meant, and as file 7 `U4_DELETED_U2`.
    pub manifest: &'static [u8],
    pub seven: &'static [u8],
    pub eight: &'static [u8],
    pub level: u64,
    pub settings: Settings<'static>,
    pub answer: Result<&'static str, FaultName>,
    pub left: Files,
}

/// What CURRENT holds before the compaction.
pub(crate) const CURRENT: &[u8] = b"MANIFEST-000005\n";

/// CURRENT of manifest 9.
pub(crate) const NINE: (&str, &[u8]) = ("CURRENT", b"MANIFEST-000009\n");

/// The default settings.
pub(crate) const DEFAULTS: Settings<'static> = Settings {
    workers: 4,
    ranges: 8,
    snapshots: Snapshots::Listed(&[]),
    options: ORDINARY,
};

/// The default options, and the least.
const ORDINARY: Options = Options {
    block_size: 4_096,
    restart_interval: 16,
    file_size: 2_097_152,
};

const LEAST: Options = Options {
    block_size: 1,
    restart_interval: 16,
    file_size: 1,
};

/// The least settings: each entry is a block and a table.
const SMALLEST: Settings<'static> = Settings {
    workers: 1,
    ranges: 1,
    options: LEAST,
    ..DEFAULTS
};

/// `log: comparator leveldb.BytewiseComparator, log 3, previous 0, next 9, last 4, file 1 7 125
/// u@4 del .. u@2 put`
pub(crate) const ONE_FILE: &[u8] = b"\
    \x23\x1fG\xbe\x3c\0\x01\x01\x1aleveldb.BytewiseComparator\x02\x03\x09\0\x03\x09\x04\x04\x07\
    \x01\x07\x7d\x09u\0\x04\0\0\0\0\0\0\x09u\x01\x02\0\0\0\0\0\0";

/// The lines of the compaction of level 1 of the folder of that one file, which drops both entries.
pub(crate) const LINES: &str = "deleted 1 7\ninstalled MANIFEST-000009\n";

/// That compaction.
pub(crate) const PLAIN: Row = Row {
    name: "",
    manifest: b"",
    seven: b"",
    eight: b"",
    level: 1,
    settings: DEFAULTS,
    answer: Ok(LINES),
    left: &[NINE],
};

/// `log: comparator leveldb.BytewiseComparator, file 1 7 125 u@4 del .. u@2 put | log 3, previous
/// 0, next 10, last 4, pointer 1 u@2 put, delete 1 7`
const NOTHING_LEFT: &[u8] = b"\
    \x93\xd7h\x1c4\0\x01\x01\x1aleveldb.BytewiseComparator\x07\x01\x07\x7d\x09u\0\x04\0\0\0\0\0\0\
    \x09u\x01\x02\0\0\0\0\0\0d\xcd\xa2\xed\x17\0\x01\x02\x03\x09\0\x03\x0a\x04\x04\x05\x01\x09u\
    \x01\x02\0\0\0\0\0\0\x06\x01\x07";

/// `log: comparator leveldb.BytewiseComparator, log 3, previous 0, next 9, last 4, file 1 7 125
/// u@4 del .. u@2 put, file 3 8 127 t@1 put .. v@1 put`
pub(crate) const FILE_ABOVE: &[u8] = b"\
    \xb3\xf7\x8e\x0eT\0\x01\x01\x1aleveldb.BytewiseComparator\x02\x03\x09\0\x03\x09\x04\x04\x07\
    \x01\x07\x7d\x09u\0\x04\0\0\0\0\0\0\x09u\x01\x02\0\0\0\0\0\0\x07\x03\x08\x7f\x09t\x01\x01\0\0\
    \0\0\0\0\x09v\x01\x01\0\0\0\0\0\0";

/// `edit: log 3, previous 0, next 11, last 4, pointer 1 u@2 put, delete 1 7, file 2 10 113 u@4 del
/// .. u@4 del`
pub(crate) const NUMBER_10: &[u8] = b"\
    \x02\x03\x09\0\x03\x0b\x04\x04\x05\x01\x09u\x01\x02\0\0\0\0\0\0\x06\x01\x07\x07\x02\x0aq\x09u\
    \0\x04\0\0\0\0\0\0\x09u\0\x04\0\0\0\0\0\0";

/// `table: t@1 put x, v@1 put x`
pub(crate) const T_AND_V: &[u8] = b"\
    \0\x09\x01t\x01\x01\0\0\0\0\0\0x\0\x09\x01v\x01\x01\0\0\0\0\0\0x\0\0\0\0\x01\0\0\0\0\x60\xd8EQ\
    \0\0\0\0\x01\0\0\0\0\xc0\xf2\xa1\xb0\0\x09\x02v\x01\x01\0\0\0\0\0\0\0\x22\0\0\0\0\x01\0\0\0\0\
    \x25\x5e\x5d\xfa\x27\x084\x16\0\0\0\0\0\0\0\0\0\0\0\0\0\0\0\0\0\0\0\0\0\0\0\0\0\0\0\0\0\0\0\0\
    \0\0\0\0W\xfb\x80\x8b\x24uG\xdb";

/// `log: comparator leveldb.BytewiseComparator, file 1 7 125 u@4 del .. u@2 put, file 3 8 127 t@1
/// put .. v@1 put | log 3, previous 0, next 11, last 4, pointer 1 u@2 put, delete 1 7, file 2 10
/// 113 u@4 del .. u@4 del`
pub(crate) const DELETION_LEFT: &[u8] = b"\
    \x8b\x89\xe2FL\0\x01\x01\x1aleveldb.BytewiseComparator\x07\x01\x07\x7d\x09u\0\x04\0\0\0\0\0\0\
    \x09u\x01\x02\0\0\0\0\0\0\x07\x03\x08\x7f\x09t\x01\x01\0\0\0\0\0\0\x09v\x01\x01\0\0\0\0\0\0\
    \xcc\xda\x9e\x40\x2f\0\x01\x02\x03\x09\0\x03\x0b\x04\x04\x05\x01\x09u\x01\x02\0\0\0\0\0\0\x06\
    \x01\x07\x07\x02\x0aq\x09u\0\x04\0\0\0\0\0\0\x09u\0\x04\0\0\0\0\0\0";

/// `shortlex: b@2 put x, aa@1 put x`
pub(crate) const B_AA: &[u8] = b"\
    \0\x09\x01b\x01\x02\0\0\0\0\0\0x\0\x0a\x01aa\x01\x01\0\0\0\0\0\0x\0\0\0\0\x01\0\0\0\0\xcfqH\
    \x60\0\0\0\0\x01\0\0\0\0\xc0\xf2\xa1\xb0\0\x0a\x02aa\x01\x01\0\0\0\0\0\0\0\x23\0\0\0\0\x01\0\0\
    \0\0\x0e\xd4\xf9a\x28\x085\x17\0\0\0\0\0\0\0\0\0\0\0\0\0\0\0\0\0\0\0\0\0\0\0\0\0\0\0\0\0\0\0\0\
    \0\0\0\0W\xfb\x80\x8b\x24uG\xdb";

/// `log: comparator subcompaction.ShortlexComparator, log 3, previous 0, next 9, last 4, file 1 7
/// 129 b@2 put .. aa@1 put`
pub(crate) const SHORTLEX: &[u8] = b"\
    P\x2aT\xc5D\0\x01\x01\x20subcompaction.ShortlexComparator\x02\x03\x09\0\x03\x09\x04\x04\x07\
    \x01\x07\x81\x01\x09b\x01\x02\0\0\0\0\0\0\x0aaa\x01\x01\0\0\0\0\0\0";

/// `shortlex: aa@1 put x`
pub(crate) const AA: &[u8] = b"\
    \0\x0a\x01aa\x01\x01\0\0\0\0\0\0x\0\0\0\0\x01\0\0\0\0\xd4Hz\x14\0\0\0\0\x01\0\0\0\0\xc0\xf2\
    \xa1\xb0\0\x0a\x02aa\x01\x01\0\0\0\0\0\0\0\x16\0\0\0\0\x01\0\0\0\0\xfc\x09\x1b\x5d\x1b\x08\x28\
    \x17\0\0\0\0\0\0\0\0\0\0\0\0\0\0\0\0\0\0\0\0\0\0\0\0\0\0\0\0\0\0\0\0\0\0\0\0W\xfb\x80\x8b\x24u\
    G\xdb";

/// The compaction of a deletion that a deeper file keeps.
pub(crate) const KEPT: Row = Row {
    name: "a deletion that a deeper file keeps",
    manifest: FILE_ABOVE,
    eight: T_AND_V,
    answer: Ok("output 10 113\ndeleted 1 7\ninstalled MANIFEST-000009\n"),
    left: &[
        NINE,
        ("MANIFEST-000009", DELETION_LEFT),
        ("000010.ldb", U4_DELETED),
    ],
    ..PLAIN
};

/// The tables and manifests that are left. `tests/cases` has the settings at their limits and past
/// them, all refusals and more.
pub(crate) const ROWS: &[Row] = &[
    Row {
        name: "a deletion, and its manifest",
        left: &[NINE, ("MANIFEST-000009", NOTHING_LEFT)],
        ..PLAIN
    },
    KEPT,
    // `b` comes before `aa`.
    Row {
        name: "user keys by length first",
        manifest: SHORTLEX,
        seven: B_AA,
        settings: SMALLEST,
        answer: Ok("output 10 114\noutput 11 116\ndeleted 1 7\ninstalled MANIFEST-000009\n"),
        left: &[NINE, ("000010.ldb", B), ("000011.ldb", AA)],
        ..PLAIN
    },
];

/// A compaction by no worker, which is refused and leaves the version.
const BY_NONE: Row = Row {
    name: "no worker",
    settings: Settings {
        workers: 0,
        ..DEFAULTS
    },
    answer: Err(FaultName::Workers),
    left: &[("CURRENT", CURRENT)],
    ..PLAIN
};

/// Refusals.
pub(crate) const REFUSALS: &[Row] = &[
    Row {
        name: "the lowest level",
        level: 6,
        settings: DEFAULTS,
        answer: Err(FaultName::Level),
        ..BY_NONE
    },
    Row {
        name: "a level of no file, by no worker",
        level: 2,
        answer: Err(FaultName::NoInput),
        ..BY_NONE
    },
    BY_NONE,
];
