//! The versions that folders of the tests hold, by their next files.

use crate::steps::EDIT;
use coding::Fault;
use folder::{Order, load, open};
use ikey::Bytewise;
use shelf::Shelf;
use std::alloc::{AllocError, Global};

/// Files by their names.
pub(crate) type Files = &'static [(&'static str, &'static [u8])];

/// Tables by their numbers.
pub(crate) type Tables = &'static [(u64, &'static [u8])];

/// `table: a@1 put x`
pub(crate) const A: &[u8] = b"\
    \0\x09\x01a\x01\x01\0\0\0\0\0\0x\0\0\0\0\x01\0\0\0\0\x84\xdd\x88t\0\0\0\0\x01\0\0\0\0\xc0\xf2\
    \xa1\xb0\0\x09\x02a\x01\x01\0\0\0\0\0\0\0\x15\0\0\0\0\x01\0\0\0\06I\x25\xbf\x1a\x08\x27\x16\0\0\
    \0\0\0\0\0\0\0\0\0\0\0\0\0\0\0\0\0\0\0\0\0\0\0\0\0\0\0\0\0\0\0\0\0\0W\xfb\x80\x8b\x24uG\xdb";

/// `table: b@1 put x`
pub(crate) const B: &[u8] = b"\
    \0\x09\x01b\x01\x01\0\0\0\0\0\0x\0\0\0\0\x01\0\0\0\0\xc7Z78\0\0\0\0\x01\0\0\0\0\xc0\xf2\xa1\
    \xb0\0\x09\x02b\x01\x01\0\0\0\0\0\0\0\x15\0\0\0\0\x01\0\0\0\0\xae\xd8\xaf\xcf\x1a\x08\x27\x16\0\
    \0\0\0\0\0\0\0\0\0\0\0\0\0\0\0\0\0\0\0\0\0\0\0\0\0\0\0\0\0\0\0\0\0\0\0W\xfb\x80\x8b\x24uG\xdb";

/// `table: b@2 put y`
pub(crate) const NEWER_B: &[u8] = b"\
    \0\x09\x01b\x01\x02\0\0\0\0\0\0y\0\0\0\0\x01\0\0\0\0\xf1\x23\xbfM\0\0\0\0\x01\0\0\0\0\xc0\xf2\
    \xa1\xb0\0\x09\x02b\x01\x02\0\0\0\0\0\0\0\x15\0\0\0\0\x01\0\0\0\0x\xb9Y\xc4\x1a\x08\x27\x16\0\0\
    \0\0\0\0\0\0\0\0\0\0\0\0\0\0\0\0\0\0\0\0\0\0\0\0\0\0\0\0\0\0\0\0\0\0W\xfb\x80\x8b\x24uG\xdb";

/// The known versions with their tables, by level: those of `install_tests`, of a folder of one
/// file and of one of three levels. Each has a last sequence of 4.
const KNOWN: &[(u64, Tables)] = &[
    (8, &[(6, b"six"), (7, b"seven")]),
    (9, &[(6, b"six")]),
    (10, &[(6, b"six"), (9, b"nine")]),
    (11, &[(6, b"six"), (9, b"nine"), (10, b"ten")]),
    (13, &[(6, b"six"), (12, b"twelve")]),
    // One file.
    (9, &[(7, A)]),
    (11, &[(10, A)]),
    (13, &[(12, A)]),
    // Files of `a`, of `b`, and of an older `b` below.
    (19, &[(17, A), (18, NEWER_B), (16, B)]),
    (21, &[(18, NEWER_B), (20, A), (16, B)]),
    (23, &[(20, A), (22, NEWER_B), (16, B)]),
    (25, &[(22, NEWER_B), (24, A), (16, B)]),
    (27, &[(24, A), (26, NEWER_B)]),
];

/// Copies of these tables.
pub(crate) fn made(alloc: Global, wanted: Tables) -> Result<Vec<(u64, Vec<u8>)>, AllocError> {
    let mut tables = Vec::with_capacity(alloc, wanted.len())?;
    for (number, bytes) in wanted {
        tables.push((*number, Vec::from_slice(alloc, bytes)?))?;
    }
    Ok(tables)
}

/// Whether the tables are these.
pub(crate) fn are(tables: &[(u64, Vec<u8>)], wanted: &[(u64, &[u8])]) -> bool {
    for (table, one) in tables.iter().zip(wanted) {
        if table.0 != one.0 || table.1.as_slice() != one.1 {
            return false;
        }
    }
    tables.len() == wanted.len()
}

/// Whether a version of this next file with these tables is known.
fn is_known(next_file: u64, tables: &[(u64, Vec<u8>)]) -> bool {
    for (of, wanted) in KNOWN {
        if *of == next_file && are(tables, wanted) {
            return true;
        }
    }
    false
}

/// Opens a folder and loads its tables. The next file, if the version is known; else 0.
fn opened(alloc: Global, folder: &mut Shelf<'_>) -> Result<u64, Fault> {
    let opened = open(alloc, folder)?;
    let version = &opened.version;
    let tables = load::<Bytewise, Shelf<'_>>(alloc, folder, version)?;
    let next_file = version.next_file().unwrap_or(0);
    let has_order = opened.order == Order::Bytewise && version.last_sequence() == Some(4);
    if has_order && is_known(next_file, &tables) {
        Ok(next_file)
    } else {
        Ok(0)
    }
}

/// What a folder without CURRENT is told as: one that holds no EDIT, and one that holds the outcome
/// of a compaction of the folder of one file. No known version has these as its next file.
pub(crate) const NO_OUTCOME: u64 = 1;

pub(crate) const OUTCOME: u64 = 2;

/// Which of the two a folder is, or 0.
fn outcome_left(folder: &Shelf<'_>) -> u64 {
    match (folder.file("EDIT"), folder.file("000010.ldb")) {
        (None, _) => NO_OUTCOME,
        (Some(edit), Some(table)) if edit == EDIT && table == A => OUTCOME,
        _ => 0,
    }
}

/// The next file of the known version that a folder reads as; 0 if there is none.
pub(crate) fn read_as(alloc: Global, folder: &mut Shelf<'_>) -> u64 {
    if folder.file("CURRENT").is_none() {
        return outcome_left(folder);
    }
    opened(alloc, folder).unwrap_or(0)
}
