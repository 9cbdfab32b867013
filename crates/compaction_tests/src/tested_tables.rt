//! Tables and versions of the tests.

use crate::compact_tests::tables::U9;
use edit::{Version, VersionEdit};
use folder::{Opened, Order};
use ikey::Bytewise;
use pick::{Inputs, inputs};
use std::alloc::Global;
use std::process::Abort;
use table::{TableCursor, check};

/// Budgets of memory: one range for each user key, several, and one for all.
pub(crate) const BUDGETS: &[u64] = &[1, 300, 1 << 30];

/// A file of a folder: its name and its bytes.
pub(crate) type Held = (&'static str, &'static [u8]);

/// `table: a@3 put -`
pub(crate) const A_AT_THREE: &[u8] = b"\
    \0\x09\0a\x01\x03\0\0\0\0\0\0\0\0\0\0\x01\0\0\0\0E\xed\x3a\x01\0\0\0\0\x01\0\0\0\0\xc0\xf2\xa1\
    \xb0\0\x09\x02a\x01\x03\0\0\0\0\0\0\0\x14\0\0\0\0\x01\0\0\0\0.\xe0\xc8\x85\x19\x08\x26\x16\0\0\
    \0\0\0\0\0\0\0\0\0\0\0\0\0\0\0\0\0\0\0\0\0\0\0\0\0\0\0\0\0\0\0\0\0\0W\xfb\x80\x8b\x24uG\xdb";

/// `table: u@7 put y`
pub(crate) const U_AT_SEVEN: &[u8] = b"\
    \0\x09\x01u\x01\x07\0\0\0\0\0\0y\0\0\0\0\x01\0\0\0\0\x99\x3f\x86\xc4\0\0\0\0\x01\0\0\0\0\xc0\
    \xf2\xa1\xb0\0\x09\x02u\x01\x07\0\0\0\0\0\0\0\x15\0\0\0\0\x01\0\0\0\0\x92A\xbc\x1b\x1a\x08\x27\
    \x16\0\0\0\0\0\0\0\0\0\0\0\0\0\0\0\0\0\0\0\0\0\0\0\0\0\0\0\0\0\0\0\0\0\0\0\0W\xfb\x80\x8b\x24u\
    G\xdb";

/// `table: u@1 put z`
pub(crate) const U_AT_ONE: &[u8] = b"\
    \0\x09\x01u\x01\x01\0\0\0\0\0\0z\0\0\0\0\x01\0\0\0\0YZ\xdbJ\0\0\0\0\x01\0\0\0\0\xc0\xf2\xa1\
    \xb0\0\x09\x02u\x01\x01\0\0\0\0\0\0\0\x15\0\0\0\0\x01\0\0\0\0.\xfbO\x03\x1a\x08\x27\x16\0\0\0\
    \0\0\0\0\0\0\0\0\0\0\0\0\0\0\0\0\0\0\0\0\0\0\0\0\0\0\0\0\0\0\0\0\0W\xfb\x80\x8b\x24uG\xdb";

/// `table: a@1 put -, u@1 put -`
pub(crate) const A_AND_U: &[u8] = b"\
    \0\x09\0a\x01\x01\0\0\0\0\0\0\0\x09\0u\x01\x01\0\0\0\0\0\0\0\0\0\0\x01\0\0\0\0eBSN\0\0\0\0\x01\
    \0\0\0\0\xc0\xf2\xa1\xb0\0\x09\x02u\x01\x01\0\0\0\0\0\0\0\x20\0\0\0\0\x01\0\0\0\0\x1c\xd1\xa6\
    \x07\x25\x082\x16\0\0\0\0\0\0\0\0\0\0\0\0\0\0\0\0\0\0\0\0\0\0\0\0\0\0\0\0\0\0\0\0\0\0\0\0W\xfb\
    \x80\x8b\x24uG\xdb";

/// `table: b@2 put -`
pub(crate) const B_AT_TWO: &[u8] = b"\
    \0\x09\0b\x01\x02\0\0\0\0\0\0\0\0\0\0\x01\0\0\0\0\xdb\xafB\xec\0\0\0\0\x01\0\0\0\0\xc0\xf2\xa1\
    \xb0\0\x09\x02b\x01\x02\0\0\0\0\0\0\0\x14\0\0\0\0\x01\0\0\0\0\xe4B\x20y\x19\x08\x26\x16\0\0\0\
    \0\0\0\0\0\0\0\0\0\0\0\0\0\0\0\0\0\0\0\0\0\0\0\0\0\0\0\0\0\0\0\0\0W\xfb\x80\x8b\x24uG\xdb";

/// Each file holds one user key.
/// `edit: comparator leveldb.BytewiseComparator, log 3, previous 0, next 20, last 10, file 0 12 114
/// u@9 put .. u@9 put, file 1 11 114 u@7 put .. u@7 put, file 2 10 114 u@1 put .. u@1 put`
pub(crate) const SAME_KEY: &[u8] = b"\
    \x01\x1aleveldb.BytewiseComparator\x02\x03\x09\0\x03\x14\x04\x0a\x07\0\x0cr\x09u\x01\x09\0\0\0\
    \0\0\0\x09u\x01\x09\0\0\0\0\0\0\x07\x01\x0br\x09u\x01\x07\0\0\0\0\0\0\x09u\x01\x07\0\0\0\0\0\0\
    \x07\x02\x0ar\x09u\x01\x01\0\0\0\0\0\0\x09u\x01\x01\0\0\0\0\0\0";

/// Two files of one level share a user key.
/// `edit: comparator leveldb.BytewiseComparator, log 3, previous 0, next 20, last 10, file 1 12 114
/// u@9 put .. u@9 put, file 1 11 114 u@7 put .. u@7 put`
pub(crate) const SHARED_KEY: &[u8] = b"\
    \x01\x1aleveldb.BytewiseComparator\x02\x03\x09\0\x03\x14\x04\x0a\x07\x01\x0cr\x09u\x01\x09\0\0\
    \0\0\0\0\x09u\x01\x09\0\0\0\0\0\0\x07\x01\x0br\x09u\x01\x07\0\0\0\0\0\0\x09u\x01\x07\0\0\0\0\0\
    \0";

/// Files of several ranges of user keys, one of which reaches over all.
/// `edit: comparator leveldb.BytewiseComparator, log 3, previous 0, next 20, last 10, file 0 13 114
/// u@9 put .. u@9 put, file 1 10 113 a@3 put .. a@3 put, file 1 11 113 b@2 put .. b@2 put, file 1
/// 12 114 u@7 put .. u@7 put, file 2 9 125 a@1 put .. u@1 put`
pub(crate) const SEVERAL_RANGES: &[u8] = b"\
    \x01\x1aleveldb.BytewiseComparator\x02\x03\x09\0\x03\x14\x04\x0a\x07\0\x0dr\x09u\x01\x09\0\0\0\
    \0\0\0\x09u\x01\x09\0\0\0\0\0\0\x07\x01\x0aq\x09a\x01\x03\0\0\0\0\0\0\x09a\x01\x03\0\0\0\0\0\0\
    \x07\x01\x0bq\x09b\x01\x02\0\0\0\0\0\0\x09b\x01\x02\0\0\0\0\0\0\x07\x01\x0cr\x09u\x01\x07\0\0\
    \0\0\0\0\x09u\x01\x07\0\0\0\0\0\0\x07\x02\x09\x7d\x09a\x01\x01\0\0\0\0\0\0\x09u\x01\x01\0\0\0\
    \0\0\0";

/// The same, but the older entry of u is above the newer one.
/// `edit: comparator leveldb.BytewiseComparator, log 3, previous 0, next 20, last 10, file 0 13 114
/// u@7 put .. u@7 put, file 1 10 113 a@3 put .. a@3 put, file 1 11 113 b@2 put .. b@2 put, file 1
/// 12 114 u@9 put .. u@9 put, file 2 9 125 a@1 put .. u@1 put`
pub(crate) const OLDER_ABOVE: &[u8] = b"\
    \x01\x1aleveldb.BytewiseComparator\x02\x03\x09\0\x03\x14\x04\x0a\x07\0\x0dr\x09u\x01\x07\0\0\0\
    \0\0\0\x09u\x01\x07\0\0\0\0\0\0\x07\x01\x0aq\x09a\x01\x03\0\0\0\0\0\0\x09a\x01\x03\0\0\0\0\0\0\
    \x07\x01\x0bq\x09b\x01\x02\0\0\0\0\0\0\x09b\x01\x02\0\0\0\0\0\0\x07\x01\x0cr\x09u\x01\x09\0\0\
    \0\0\0\0\x09u\x01\x09\0\0\0\0\0\0\x07\x02\x09\x7d\x09a\x01\x01\0\0\0\0\0\0\x09u\x01\x01\0\0\0\
    \0\0\0";

/// The files of [`SEVERAL_RANGES`]: u has the values x, y and none, from the newest on.
pub(crate) const VALUES: &[Held] = &[
    ("000009.ldb", A_AND_U),
    ("000010.ldb", A_AT_THREE),
    ("000011.ldb", B_AT_TWO),
    ("000012.ldb", U_AT_SEVEN),
    ("000013.ldb", U9),
];

/// The files of [`OLDER_ABOVE`].
pub(crate) const OLDER_VALUES: &[Held] = &[
    ("000009.ldb", A_AND_U),
    ("000010.ldb", A_AT_THREE),
    ("000011.ldb", B_AT_TWO),
    ("000012.ldb", U9),
    ("000013.ldb", U_AT_SEVEN),
];

/// The version after an edit.
pub(crate) fn version_after(rt: &impl Abort, alloc: Global, edit: &[u8]) -> Version {
    let edit = VersionEdit::decode(alloc, edit).expect(rt, "an edit");
    Version::empty(alloc)
        .applied::<Bytewise>(edit)
        .expect(rt, "a version")
}

/// A folder that was opened as that version.
pub(crate) fn opened_after(rt: &impl Abort, alloc: Global, edit: &[u8]) -> Opened {
    Opened {
        order: Order::Bytewise,
        version: version_after(rt, alloc, edit),
        manifest: 1,
    }
}

/// The inputs of a compaction of a level of that version.
pub(crate) fn inputs_after(rt: &impl Abort, alloc: Global, edit: &[u8], level: u64) -> Inputs {
    inputs::<Bytewise>(alloc, &version_after(rt, alloc, edit), level).expect(rt, "inputs")
}

/// Appends the cursors over these tables.
pub(crate) fn push_cursors<'a>(
    rt: &impl Abort,
    alloc: Global,
    cursors: &mut Vec<TableCursor<'a, Bytewise>>,
    tables: &[&'a [u8]],
) {
    for bytes in tables {
        let table = check::<Bytewise>(alloc, *bytes).expect(rt, "a table");
        let cursor = TableCursor::new(alloc, &table).expect(rt, "memory");
        cursors.push(cursor).expect(rt, "memory");
    }
}

/// Boundaries of two bytes: the first, the step from one to the next, and their number. A last byte
/// 0 is left out.
pub(crate) type Parting = (u16, u16, u16);

/// These boundaries.
pub(crate) fn keys_of(rt: &impl Abort, alloc: Global, parting: Parting) -> Vec<Vec<u8>> {
    let (first, step, count) = parting;
    let mut keys = Vec::new(alloc);
    for place in 0..count {
        let key = place.wrapping_mul(step).wrapping_add(first).to_be_bytes();
        let len = if key[1] == 0 { 1 } else { 2 };
        let key = Vec::from_slice(alloc, &key[..len]).expect(rt, "memory");
        keys.push(key).expect(rt, "memory");
    }
    keys
}

/// Whether tables have these numbers and bytes.
pub(crate) fn are_tables(tables: &[(u64, Vec<u8>)], wanted: &[(u64, &[u8])]) -> bool {
    for (table, one) in tables.iter().zip(wanted) {
        if table.0 != one.0 || table.1.as_slice() != one.1 {
            return false;
        }
    }
    tables.len() == wanted.len()
}
