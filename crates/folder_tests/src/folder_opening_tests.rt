//! Folders in memory, opened and loaded.

use crate::known_versions::{Files, Tables, are};
use coding::{Fault, FaultName};
use edit::Version;
use folder::*;
use ikey::Bytewise;
use shelf::{Failing, Shelf};
use std::alloc::Global;
use std::process::Abort;

/// The field of the bytewise comparator's name.
/// `edit: comparator leveldb.BytewiseComparator`
const BYTEWISE: &[u8] = b"\x01\x1aleveldb.BytewiseComparator";

/// The field of the shortlex comparator's name.
/// `edit: comparator subcompaction.ShortlexComparator`
const SHORTLEX: &[u8] = b"\x01\x20subcompaction.ShortlexComparator";

/// The field of another comparator's name.
/// `edit: comparator other`
const ANOTHER: &[u8] = b"\x01\x05other";

/// Log number 3, previous log number 0, next file 9, last sequence 4.
/// `edit: log 3, previous 0, next 9, last 4`
const NUMBERS: &[u8] = b"\x02\x03\x09\0\x03\x09\x04\x04";

/// Log number 3, next file 6, last sequence 4. The manifest's number is just below 6.
/// `edit: log 3, next 6, last 4`
const NO_PREVIOUS: &[u8] = b"\x02\x03\x03\x06\x04\x04";

/// A new file at level 1, of number 7 and 125 bytes, from a deletion of `u` at sequence 4 to a put
/// of it at 2. `edit: file 1 7 125 u@4 del .. u@2 put`
const SEVEN: &[u8] = b"\x07\x01\x07\x7d\x09u\0\x04\0\0\0\0\0\0\x09u\x01\x02\0\0\0\0\0\0";

/// `edit: delete 1 8`
const ABSENT: &[u8] = b"\x06\x01\x08";

/// The order of a folder, and its log number, previous log number, next file and last sequence.
type Opened = (Order, [Option<u64>; 4]);

/// The same in a row, or the refusal of the folder.
type Wanted = Result<(Order, &'static [Option<u64>]), FaultName>;

/// Records of a manifest, and what its folder opens as.
type Records = (&'static [&'static [u8]], Wanted);

const RECORDS: &[Records] = &[
    (
        &[BYTEWISE, NUMBERS, SEVEN],
        Ok((Order::Bytewise, &[Some(3), Some(0), Some(9), Some(4)])),
    ),
    // A previous log number may be left out.
    (
        &[SHORTLEX, NO_PREVIOUS],
        Ok((Order::Shortlex, &[Some(3), None, Some(6), Some(4)])),
    ),
    // All records are read before a comparator is looked for. The first one decides.
    (&[ANOTHER, b"\x08"], Err(FaultName::EditTag)),
    (&[b"\x02\x80", b"\x08"], Err(FaultName::EditField)),
    // The first name decides, before an edit is applied.
    (
        &[ABSENT, ANOTHER, BYTEWISE, NUMBERS],
        Err(FaultName::Comparator),
    ),
    (&[BYTEWISE, NUMBERS, ABSENT], Err(FaultName::Apply)),
    // The manifest has the number of the next file.
    (&[BYTEWISE, NUMBERS, b"\x03\x05"], Err(FaultName::Apply)),
];

/// The log of these records.
fn log_of(alloc: Global, records: &[&[u8]]) -> Result<Vec<u8>, Fault> {
    let mut log = Vec::new(alloc);
    for record in records {
        log = logrec::append(alloc, &log, record)?;
    }
    Ok(log)
}

/// The order and the version of a folder whose manifest has these bytes.
fn opened_of(alloc: Global, manifest: &[u8]) -> Result<(Order, Version), Fault> {
    let files = [CURRENT_FIVE, ("MANIFEST-000005", manifest)];
    let opened = open(alloc, &mut Shelf::new(alloc, &files))?;
    Ok((opened.order, opened.version))
}

/// The version of a folder whose manifest has these bytes.
pub(crate) fn version_of(rt: &impl Abort, alloc: Global, manifest: &[u8]) -> Version {
    let (_order, version) = opened_of(alloc, manifest).expect(rt, "a folder that opens");
    version
}

/// What a folder opens as if its manifest has these records.
fn opened(alloc: Global, records: &[&[u8]]) -> Result<Opened, Fault> {
    let (order, version) = opened_of(alloc, &log_of(alloc, records)?)?;
    let numbers = [
        version.log_number(),
        version.previous_log(),
        version.next_file(),
        version.last_sequence(),
    ];
    Ok((order, numbers))
}

/// Whether a folder opens as it should, or has this refusal.
fn is_opened(found: Result<Opened, Fault>, wanted: &Wanted) -> bool {
    match (found, wanted) {
        (Ok(found), Ok(wanted)) => found.0 == wanted.0 && found.1.as_slice() == wanted.1,
        (Err(fault), Err(name)) => fault.name == *name,
        _ => false,
    }
}

#[test]
fn records_of_a_manifest(rt: HostRuntime) {
    for (place, (records, wanted)) in RECORDS.iter().enumerate() {
        assert!(rt; is_opened(opened(rt.alloc(), records), wanted), "{place}");
    }
}

const CURRENT_FIVE: (&str, &[u8]) = ("CURRENT", b"MANIFEST-000005\n");

/// `log: comparator leveldb.BytewiseComparator, log 3, previous 0, next 9, last 4, file 1 5 100
/// a@1 put .. a@1 put, file 0 3 100 b@1 put .. b@1 put, file 0 8 100 a@2 put .. a@2 put`
pub(crate) const THREE_FILES: &[u8] = b"\
    \x86\x09\xdb\x83l\0\x01\x01\x1aleveldb.BytewiseComparator\x02\x03\x09\0\x03\x09\x04\x04\x07\
    \x01\x05d\x09a\x01\x01\0\0\0\0\0\0\x09a\x01\x01\0\0\0\0\0\0\x07\0\x03d\x09b\x01\x01\0\0\0\0\0\
    \0\x09b\x01\x01\0\0\0\0\0\0\x07\0\x08d\x09a\x01\x02\0\0\0\0\0\0\x09a\x01\x02\0\0\0\0\0\0";

/// A log whose last record lacks its last byte.
/// `comparator leveldb.BytewiseComparator, log 3, previous 0, next 9, last 4`
const TORN: &[u8] =
    b"\xcd\xf0\xe1\x42\x24\0\x01\x01\x1aleveldb.BytewiseComparator\x02\x03\x09\0\x03\x09\x04";

const MANIFEST: (&str, &[u8]) = ("MANIFEST-000005", THREE_FILES);

const EIGHT: (&str, &[u8]) = ("000008.ldb", b"eight");

const FIVE: (&str, &[u8]) = ("000005.ldb", b"five");

const OLD_FIVE: (&str, &[u8]) = ("000005.sst", b"five, older");

const OLD_THREE: (&str, &[u8]) = ("000003.sst", b"three");

/// A folder with its tables: that of number 3 has its older name, that of number 5 has both.
const ALL: Files = &[
    CURRENT_FIVE,
    MANIFEST,
    EIGHT,
    OLD_FIVE,
    FIVE,
    ("000007.ldb", b"of no file"),
    OLD_THREE,
];

/// The tables that are loaded from it, in version order.
const LOADED: Tables = &[(8, b"eight"), (3, b"three"), (5, b"five")];

/// Files of a folder, the refusal of its tables, and how many calls are made.
type Row = (Files, FaultName, u64);

const FOLDERS: &[Row] = &[
    // Without the table of number 8.
    (
        &[CURRENT_FIVE, MANIFEST, FIVE, OLD_THREE],
        FaultName::Missing,
        4,
    ),
    (&[MANIFEST], FaultName::Missing, 1),
    // The form of CURRENT is tested before there is a manifest of that name.
    (
        &[("CURRENT", b"MANIFEST-000005"), MANIFEST],
        FaultName::Apply,
        1,
    ),
    (
        &[CURRENT_FIVE, ("MANIFEST-000005", TORN)],
        FaultName::LogShape,
        2,
    ),
];

/// How many calls open the folder of [`ALL`] and load its tables: two open it, then one is made for
/// number 8, two are for number 3 and one for number 5.
const CALLS: u64 = 6;

/// Opens a folder and loads its tables.
fn loaded(alloc: Global, folder: &mut Shelf<'_>) -> Result<Vec<(u64, Vec<u8>)>, Fault> {
    let version = open(alloc, folder)?.version;
    load::<Bytewise, Shelf<'_>>(alloc, folder, &version)
}

/// Whether these tables are loaded, or the refusal is this one.
fn are_loaded(
    answer: Result<Vec<(u64, Vec<u8>)>, Fault>,
    wanted: Result<Tables, FaultName>,
) -> bool {
    match (answer, wanted) {
        (Ok(tables), Ok(wanted)) => are(&tables, wanted),
        (Err(fault), Err(name)) => fault.name == name,
        _ => false,
    }
}

/// Whether a folder of these files, read by this many calls, has this answer.
fn is_answered(alloc: Global, files: Files, wanted: Result<Tables, FaultName>, calls: u64) -> bool {
    let mut folder = Shelf::new(alloc, files);
    let answer = loaded(alloc, &mut folder);
    are_loaded(answer, wanted) && (folder.failures(), folder.calls()) == (0, calls)
}

/// Whether the loading of the folder of [`ALL`] ends at a call that fails.
fn ends_there(alloc: Global, call: u64, fault: FolderFault) -> bool {
    let failing = Failing {
        call,
        fault,
        is_half_done: false,
    };
    let mut folder = Shelf::new(alloc, ALL).failing(failing);
    let answer = loaded(alloc, &mut folder);
    let failures = u64::from(fault == FolderFault::Device);
    are_loaded(answer, Err(Fault::from(fault).name))
        && (folder.failures(), folder.calls()) == (failures, call)
}

#[test]
fn folders_in_memory(rt: HostRuntime) {
    assert!(rt; is_answered(rt.alloc(), ALL, Ok(LOADED), CALLS));
    for (place, (files, name, calls)) in FOLDERS.iter().enumerate() {
        assert!(rt;
            is_answered(rt.alloc(), files, Err(*name), *calls),
            "{place}"
        );
    }
    for call in 1..CALLS + 1 {
        assert!(rt;
            ends_there(rt.alloc(), call, FolderFault::Device)
                && ends_there(rt.alloc(), call, FolderFault::Memory),
            "{call}"
        );
    }
}
