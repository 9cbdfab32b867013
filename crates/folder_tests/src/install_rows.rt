//! Installations of outcomes, each with what it leaves.

use crate::known_versions::{Files, Tables};

/// `log: comparator leveldb.BytewiseComparator, log 3, previous 0, next 8, last 4, file 1 6 3 t@1
/// put .. t@1 put, file 1 7 5 u@2 put .. u@2 put`
pub(crate) const MANIFEST: &[u8] = b"\
    \xb7\xafe\x81T\0\x01\x01\x1aleveldb.BytewiseComparator\x02\x03\x09\0\x03\x08\x04\x04\x07\x01\
    \x06\x03\x09t\x01\x01\0\0\0\0\0\0\x09t\x01\x01\0\0\0\0\0\0\x07\x01\x07\x05\x09u\x01\x02\0\0\0\
    \0\0\0\x09u\x01\x02\0\0\0\0\0\0";

/// The files of the version before: file 6 has its older name, and file 9 was left by an earlier
/// failure.
pub(crate) const FILES: Files = &[
    ("CURRENT", b"MANIFEST-000005\n"),
    ("MANIFEST-000005", MANIFEST),
    ("000006.sst", b"six"),
    ("000007.ldb", b"seven"),
    ("000009.ldb", b"left behind"),
];

/// The calls that open that folder and load its tables. The table of file 6 is looked for under
/// both names.
pub(crate) const READS: u64 = 5;

/// The calls of an installation that only read: CURRENT, before the last two calls that write.
pub(crate) const READS_AGAIN: u64 = 1;

/// The next file of the version before.
pub(crate) const BEFORE: u64 = 8;

/// An outcome and its installation.
#[derive(Clone, Copy)]
pub(crate) struct Row {
    /// The number of the manifest that CURRENT names before.
    pub opened: u64,
    /// The number of the manifest that is written.
    pub manifest: u64,
    pub edit: &'static [u8],
    pub tables: Tables,
    /// How many tables the second of two groups has. If it isn't given, there is one group.
    pub second: Option<usize>,
    /// How many calls are made that write.
    pub calls: u64,
    /// The next file of the edited version.
    pub edited: u64,
    /// The next file of the version after a second run, which begins with the edited one.
    pub again: u64,
}

/// The outcomes with no output, with one, with two, and with those two in two groups. Their edits
/// set log number 3, previous log number 0, next file and last sequence 4, and delete file 7 at
/// level 1. New at level 2 are number 9 of 4 bytes for `u`, and number 10 of 3 bytes for `v`.
pub(crate) const ROWS: &[&Row] = &[
    &NONE,
    ONE,
    &TWO,
    &Row {
        second: Some(1),
        ..TWO
    },
];

/// That of no output.
const NONE: Row = Row {
    opened: 5,
    manifest: BEFORE,
    edit: b"\x02\x03\x09\0\x03\x09\x04\x04\x06\x01\x07",
    tables: &[],
    second: None,
    calls: 7,
    edited: 9,
    again: 9,
};

/// That of one output.
pub(crate) const ONE: &Row = &Row {
    edit: b"\
        \x02\x03\x09\0\x03\x0a\x04\x04\x06\x01\x07\
        \x07\x02\x09\x04\x09u\x01\x02\0\0\0\0\0\0\x09u\x01\x02\0\0\0\0\0\0",
    tables: &[(9, b"nine")],
    calls: 9,
    edited: 10,
    again: 13,
    ..NONE
};

/// That of two outputs.
const TWO: Row = Row {
    edit: b"\
        \x02\x03\x09\0\x03\x0b\x04\x04\x06\x01\x07\
        \x07\x02\x09\x04\x09u\x01\x02\0\0\0\0\0\0\x09u\x01\x02\0\0\0\0\0\0\
        \x07\x02\x0a\x03\x09v\x01\x03\0\0\0\0\0\0\x09v\x01\x03\0\0\0\0\0\0",
    tables: &[(9, b"nine"), (10, b"ten")],
    calls: 11,
    edited: 11,
    again: 11,
    ..NONE
};

/// The outcome of a second run over the version of one output. Next file is 13, file 9 at level 2
/// is deleted, and number 12 of 6 bytes for `u` is new there.
pub(crate) const SECOND: &Row = &Row {
    opened: BEFORE,
    manifest: 10,
    edit: b"\
        \x02\x03\x09\0\x03\x0d\x04\x04\x06\x02\x09\
        \x07\x02\x0c\x06\x09u\x01\x02\0\0\0\0\0\0\x09u\x01\x02\0\0\0\0\0\0",
    tables: &[(12, b"twelve")],
    calls: 9,
    edited: 13,
    again: 13,
    ..NONE
};
