use crate::pick_tests::version_of;
use coding::{Fault, FaultName};
use edit::{FileMeta, Version, VersionEdit, edit_laws, snapshot_law};
use ikey::Bytewise;
use std::alloc::Global;
use std::process::Abort;
use std::test::*;

// Records of the manifests of two databases that LevelDB 1.23 wrote, as its files have them.

/// `edit: comparator leveldb.BytewiseComparator, pointer 0 k00399@48 del, file 1 15 11485
/// k00000@810 put .. k00398@836 put`
const COMPACTED: &[u8] = b"\
    \x01\x1aleveldb.BytewiseComparator\x05\0\x0ek00399\00\0\0\0\0\0\0\x07\x01\x0f\xddY\x0ek00000\
    \x01\x2a\x03\0\0\0\0\0\x0ek00398\x01D\x03\0\0\0\0\0";

/// `edit: comparator leveldb.BytewiseComparator, pointer 0 k00399@48 del, file 0 22 3334
/// k00003@1015 put .. k00399@1006 del, file 0 19 3403 k00003@904 put .. k00399@984 put, file 1 15
/// 11485 k00000@810 put .. k00398@836 put`
const MIXED: &[u8] = b"\
    \x01\x1aleveldb.BytewiseComparator\x05\0\x0ek00399\00\0\0\0\0\0\0\x07\0\x16\x86\x1a\x0ek00003\
    \x01\xf7\x03\0\0\0\0\0\x0ek00399\0\xee\x03\0\0\0\0\0\x07\0\x13\xcb\x1a\x0ek00003\x01\x88\x03\0\
    \0\0\0\0\x0ek00399\x01\xd8\x03\0\0\0\0\0\x07\x01\x0f\xddY\x0ek00000\x01\x2a\x03\0\0\0\0\0\x0ek\
    00398\x01D\x03\0\0\0\0\0";

/// Its second record: the counters, and a file at level 0.
/// `edit: log 26, previous 0, next 27, last 1200, file 0 25 3308 k00001@1152 put .. k00389@1141
/// put`
const MIXED_NEXT: &[u8] = b"\
    \x02\x1a\x09\0\x03\x1b\x04\xb0\x09\x07\0\x19\xec\x19\x0ek00001\x01\x80\x04\0\0\0\0\0\x0ek00389\
    \x01u\x04\0\0\0\0\0";

/// `edit: log 3, previous 0, next 9, last 4, pointer 1 u@2 put, delete 1 7`
const DELETING: &[u8] =
    b"\x02\x03\x09\0\x03\x09\x04\x04\x05\x01\x09u\x01\x02\0\0\0\0\0\0\x06\x01\x07";

/// `edit: log 3, previous 0, next 10, last 4, pointer 1 u@2 put, delete 1 7, file 2 9 113 u@4 del
/// .. u@4 del`
const REPLACING: &[u8] = b"\
    \x02\x03\x09\0\x03\x0a\x04\x04\x05\x01\x09u\x01\x02\0\0\0\0\0\0\x06\x01\x07\x07\x02\x09q\x09u\
    \0\x04\0\0\0\0\0\0\x09u\0\x04\0\0\0\0\0\0";

/// Edits, and the bytes as which each is written after it was read.
const EDITS: &[(&[u8], &[u8])] = &[
    (b"", b""),
    (COMPACTED, COMPACTED),
    (MIXED, MIXED),
    (MIXED_NEXT, MIXED_NEXT),
    (DELETING, DELETING),
    (REPLACING, REPLACING),
    // Of log numbers 3 and 4 the later counts.
    (b"\x02\x03\x02\x04", b"\x02\x04"),
    // Deleted files are a set, written by level and number.
    (
        b"\x06\x01\x02\x06\0\x05\x06\x01\x02",
        b"\x06\0\x05\x06\x01\x02",
    ),
];

/// Whether the edit of these bytes is written as those.
fn is_written(rt: &impl Abort, alloc: Global, bytes: &[u8], wanted: &[u8]) -> bool {
    let edit = VersionEdit::decode(alloc, bytes).expect(rt, "an edit");
    edit.encode(alloc).expect(rt, "memory").as_slice() == wanted
}

#[test]
fn edits_are_read_and_written(rt: HostRuntime) {
    edit_laws();
    for (bytes, wanted) in EDITS {
        assert!(rt; is_written(&rt, rt.alloc(), bytes, wanted), "{wanted:?}");
    }
}

/// The field of the comparator's name.
/// `edit: comparator leveldb.BytewiseComparator`
const NAME: &[u8] = b"\x01\x1aleveldb.BytewiseComparator";

/// New files of one key each: number 7 and number 5, both at level 1.
/// `edit: file 1 7 100 u@1 put .. u@1 put, file 1 5 100 a@1 put .. a@1 put`
const TWO_FILES: &[u8] = b"\
    \x07\x01\x07d\x09u\x01\x01\0\0\0\0\0\0\x09u\x01\x01\0\0\0\0\0\0\x07\x01\x05d\x09a\x01\x01\0\0\
    \0\0\0\0\x09a\x01\x01\0\0\0\0\0\0";

/// A new file of number 7 at level 2.
/// `edit: file 2 7 100 v@1 put .. v@1 put`
const SEVEN_BELOW: &[u8] = b"\x07\x02\x07d\x09v\x01\x01\0\0\0\0\0\0\x09v\x01\x01\0\0\0\0\0\0";

/// `edit: file 2 7 100 v@1 put .. v@1 put, delete 1 7`
const SEVEN_MOVED: &[u8] =
    b"\x07\x02\x07d\x09v\x01\x01\0\0\0\0\0\0\x09v\x01\x01\0\0\0\0\0\0\x06\x01\x07";

/// The snapshot of the version that has number 5 at level 1 and that number 7.
/// `edit: comparator leveldb.BytewiseComparator, file 1 5 100 a@1 put .. a@1 put, file 2 7 100 v@1
/// put .. v@1 put`
const MOVED: &[u8] = b"\
    \x01\x1aleveldb.BytewiseComparator\x07\x01\x05d\x09a\x01\x01\0\0\0\0\0\0\x09a\x01\x01\0\0\0\0\
    \0\0\x07\x02\x07d\x09v\x01\x01\0\0\0\0\0\0\x09v\x01\x01\0\0\0\0\0\0";

/// Two new files of number 8, at levels 2 and 3.
/// `edit: file 2 8 100 v@1 put .. v@1 put, file 3 8 100 w@1 put .. w@1 put`
const EIGHT_TWICE: &[u8] = b"\
    \x07\x02\x08d\x09v\x01\x01\0\0\0\0\0\0\x09v\x01\x01\0\0\0\0\0\0\x07\x03\x08d\x09w\x01\x01\0\0\
    \0\0\0\0\x09w\x01\x01\0\0\0\0\0\0";

/// Two compact pointers of level 3.
/// `edit: pointer 3 a@1 put, pointer 3 b@1 put`
const TWO_POINTERS: &[u8] = b"\x05\x03\x09a\x01\x01\0\0\0\0\0\0\x05\x03\x09b\x01\x01\0\0\0\0\0\0";

/// Two edits, and the snapshot of the version that both make of the empty one, or their refusal.
type Row = (
    &'static [u8],
    &'static [u8],
    Result<&'static [u8], FaultName>,
);

const VERSIONS: &[Row] = &[
    (b"", b"", Ok(NAME)),
    // The first record of a manifest is a snapshot.
    (COMPACTED, b"", Ok(COMPACTED)),
    (NAME, MIXED, Ok(MIXED)),
    // Three files of level 0, by their smallest keys.
    (
        MIXED,
        MIXED_NEXT,
        Ok(
            b"\x01\x1aleveldb.BytewiseComparator\x05\0\x0ek00399\00\0\0\0\0\0\0\x07\0\x19\xec\x19\
                \x0ek00001\x01\x80\x04\0\0\0\0\0\x0ek00389\x01u\x04\0\0\0\0\0\x07\0\x16\x86\x1a\x0e\
                k00003\x01\xf7\x03\0\0\0\0\0\x0ek00399\0\xee\x03\0\0\0\0\0\x07\0\x13\xcb\x1a\x0ek00\
                003\x01\x88\x03\0\0\0\0\0\x0ek00399\x01\xd8\x03\0\0\0\0\0\x07\x01\x0f\xddY\x0ek0000\
                0\x01*\x03\0\0\0\0\0\x0ek00398\x01D\x03\0\0\0\0\0",
        ),
    ),
    // The later pointer of a level counts.
    (
        TWO_POINTERS,
        b"",
        Ok(b"\x01\x1aleveldb.BytewiseComparator\x05\x03\x09b\x01\x01\0\0\0\0\0\0"),
    ),
    // A file that is missing, or is at another level.
    (TWO_FILES, b"\x06\x01\x08", Err(FaultName::Apply)),
    (TWO_FILES, b"\x06\x02\x07", Err(FaultName::Apply)),
    // Another comparator, which is tested before a missing file.
    (
        TWO_FILES,
        b"\x01\x01x\x06\x01\x08",
        Err(FaultName::Comparator),
    ),
    // A number that is there, though at another level. It is free if its file is deleted, since
    // deletions come first.
    (TWO_FILES, SEVEN_BELOW, Err(FaultName::Apply)),
    (TWO_FILES, SEVEN_MOVED, Ok(MOVED)),
    (TWO_FILES, EIGHT_TWICE, Err(FaultName::Apply)),
];

/// The version of two edits, one after the other, or the refusal of the second.
fn version_of_two(
    rt: &impl Abort,
    alloc: Global,
    first: &[u8],
    second: &[u8],
) -> Result<Version, Fault> {
    let edit = VersionEdit::decode(alloc, second).expect(rt, "an edit");
    version_of(rt, alloc, first).apply::<Bytewise>(alloc, &edit)
}

/// Whether these are the bytes of a version's snapshot.
fn is_snapshot(rt: &impl Abort, alloc: Global, version: &Version, wanted: &[u8]) -> bool {
    let edit = version
        .snapshot_edit::<Bytewise>(alloc)
        .expect(rt, "memory");
    edit.encode(alloc).expect(rt, "memory").as_slice() == wanted
}

/// Whether two edits have the answer of their row.
fn is_answered(rt: &impl Abort, alloc: Global, row: &Row) -> bool {
    match (version_of_two(rt, alloc, row.0, row.1), row.2) {
        (Ok(version), Ok(wanted)) => is_snapshot(rt, alloc, &version, wanted),
        (Err(refused), Err(wanted)) => refused.name == wanted,
        _ => false,
    }
}

/// Log number, previous log number, next file and last sequence of the second database.
const NUMBERS: [Option<u64>; 4] = [Some(26), Some(0), Some(27), Some(1200)];

/// Whether a version has these counters, and of the two levels with files only level 0 has a
/// compact pointer.
fn has_numbers(version: &Version) -> bool {
    let numbers = [
        version.log_number(),
        version.previous_log(),
        version.next_file(),
        version.last_sequence(),
    ];
    let is_pointed = match version.pointer(0) {
        Some(key) => key.as_key().user() == b"k00399".as_slice(),
        None => false,
    };
    numbers == NUMBERS && is_pointed && version.pointer(1).is_none()
}

/// Whether a file is the version's first of level 0 in version order.
fn is_first(file: &FileMeta) -> bool {
    file.number == 25
        && file.size == 3308
        && file.smallest.as_key().user() == b"k00001".as_slice()
        && file.largest.as_key().user() == b"k00389".as_slice()
}

/// Whether a version has three files at level 0, and a copy of the first is that file.
fn has_files(rt: &impl Abort, alloc: Global, version: &Version) -> bool {
    let files = version.files::<Bytewise>(alloc, 0).expect(rt, "memory");
    let first = files.first().expect(rt, "a file");
    let copy = first.copy(alloc).expect(rt, "memory");
    files.len() == 3 && is_first(&copy)
}

/// Whether the version of the second database is read so.
fn is_mixed(rt: &impl Abort, alloc: Global) -> bool {
    let version = version_of_two(rt, alloc, MIXED, MIXED_NEXT).expect(rt, "a version");
    has_numbers(&version) && has_files(rt, alloc, &version)
}

#[test]
fn versions_after_edits(rt: HostRuntime) {
    snapshot_law::<Bytewise>();
    assert!(rt; is_mixed(&rt, rt.alloc()));
    for row in VERSIONS {
        assert!(rt; is_answered(&rt, rt.alloc(), row), "{:?}", row.1);
    }
}
