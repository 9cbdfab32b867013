//! A request that is accepted, with its edit, and one that is refused. The other refusals are rows
//! of `compact_tests`.

use crate::compact_tests::rows::{LEVEL_ONE, Row};
use crate::compact_tests::tests::{asked, picked};
use coding::{Fault, FaultName};
use compact::Request;
use edit::{DeletedFile, VersionEdit};
use ikey::Bytewise;
use keep::Snapshots;
use std::alloc::Global;
use std::process::Abort;
use std::test::*;

/// A request, which doesn't look at the bytes of its table.
const ACCEPTED: Row = Row {
    tables: &[b""],
    ..LEVEL_ONE
};

/// The same with a snapshot that is listed twice.
const REFUSED: Row = Row {
    snapshots: Snapshots::Listed(&[3, 3]),
    ..ACCEPTED
};

/// Whether an edit
///
/// - has the counters of the request with next file 9;
/// - has the compact pointer of level 1 at `u` at 2;
/// - deletes file 7 of level 1, and adds no file.
fn is_edit(edit: &VersionEdit) -> bool {
    let numbers = [
        edit.log_number,
        edit.previous_log,
        edit.next_file,
        edit.last_sequence,
    ];
    let deleted = DeletedFile {
        level: 1,
        number: 7,
    };
    let is_pointed = match edit.pointers.first() {
        Some(pointer) => pointer.key.as_key().bytes() == b"u\x01\x02\0\0\0\0\0\0".as_slice(),
        None => false,
    };
    numbers == [Some(3), Some(0), Some(9), Some(4)]
        && is_pointed
        && edit.deleted.contains(&deleted)
        && (edit.pointers.len(), edit.deleted.len(), edit.added.len()) == (1, 1, 0)
}

/// Whether the edit of no output is that one.
fn is_edited(rt: &impl Abort, alloc: Global, asked: &Request<'_>) -> bool {
    if asked.first_number != 9 {
        return false;
    }
    let edit = asked.edit(alloc, Vec::new(alloc)).expect(rt, "memory");
    is_edit(&edit)
}

#[test]
fn a_request_and_its_edit(rt: HostRuntime) {
    let picked = picked(&rt, rt.alloc(), &ACCEPTED);
    let accepted = asked(&ACCEPTED, &picked);
    assert!(rt; accepted.check::<Bytewise>() == Ok(()) && is_edited(&rt, rt.alloc(), &accepted));
    let refused = asked(&REFUSED, &picked).check::<Bytewise>();
    assert!(rt; refused == Err(Fault::of(FaultName::SnapshotList)));
}
