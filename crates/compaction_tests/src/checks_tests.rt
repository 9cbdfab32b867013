use crate::compact_tests::tables::U4_DELETED_U2;
use crate::tested_tables::{A_AT_THREE, version_after};
use board::Open;
use checks::*;
use coding::{Fault, FaultName};
use ikey::Bytewise;
use reads::NumberedTable;
use std::alloc::Global;
use std::process::Abort;
use std::test::*;
use std::thread::Threads;

/// Bytes that are too short for a table.
const DAMAGED: &[u8] = b"damaged";

/// Bytes that don't end as a table.
const BLANK: &[u8] = &[0; 48];

/// `edit: comparator leveldb.BytewiseComparator, log 3, previous 0, next 9, last 4, file 1 7 125
/// u@4 del .. u@2 put`
const ONE_FILE: &[u8] = b"\
    \x01\x1aleveldb.BytewiseComparator\x02\x03\x09\0\x03\x09\x04\x04\x07\x01\x07\x7d\x09u\0\x04\0\
    \0\0\0\0\0\x09u\x01\x02\0\0\0\0\0\0";

/// `edit: comparator leveldb.BytewiseComparator, log 3, previous 0, next 9, last 4, file 1 7 126
/// u@4 del .. u@2 put`
const LONGER_FILE: &[u8] = b"\
    \x01\x1aleveldb.BytewiseComparator\x02\x03\x09\0\x03\x09\x04\x04\x07\x01\x07\x7e\x09u\0\x04\0\
    \0\0\0\0\0\x09u\x01\x02\0\0\0\0\0\0";

/// The number of a table, and its bytes.
type Given = (u64, &'static [u8]);

/// The number of each table in the answer and the sequence of its first key, or the refusal.
type Told = Result<&'static [(u64, u64)], FaultName>;

/// Tables and what is answered of them.
struct Row {
    name: &'static str,
    /// The edit that gives the version whose tables these have to be, if one is given.
    edit: Option<&'static [u8]>,
    tables: &'static [Given],
    told: Told,
}

const ROWS: &[Row] = &[
    Row {
        name: "in order, which is not that of their numbers",
        edit: None,
        tables: &[(8, A_AT_THREE), (7, U4_DELETED_U2), (9, A_AT_THREE)],
        told: Ok(&[(8, 3), (7, 4), (9, 3)]),
    },
    Row {
        name: "the first of two refusals",
        edit: None,
        tables: &[(8, A_AT_THREE), (7, DAMAGED), (9, BLANK)],
        told: Err(FaultName::Short),
    },
    Row {
        name: "a lawful version",
        edit: Some(ONE_FILE),
        tables: &[(7, U4_DELETED_U2)],
        told: Ok(&[(7, 4)]),
    },
    Row {
        name: "a file that is not so long",
        edit: Some(LONGER_FILE),
        tables: &[(7, U4_DELETED_U2)],
        told: Err(FaultName::Lawless),
    },
];

/// The numbers and bytes of tables, as a folder gives them.
fn loaded(rt: &impl Abort, alloc: Global, tables: &[Given]) -> Vec<(u64, Vec<u8>)> {
    let mut loaded = Vec::new(alloc);
    for (number, bytes) in tables {
        let bytes = Vec::from_slice(alloc, bytes).expect(rt, "memory");
        loaded.push((*number, bytes)).expect(rt, "memory");
    }
    loaded
}

/// Whether tables have these numbers, and first keys of these sequences.
pub(crate) fn are_tables(tables: &[NumberedTable<'_, Bytewise>], wanted: &[(u64, u64)]) -> bool {
    for (table, (number, sequence)) in tables.iter().zip(wanted) {
        let first = table.table().smallest().sequence();
        if table.number() != *number || first != *sequence {
            return false;
        }
    }
    tables.len() == wanted.len()
}

/// Whether an answer is the expected one.
fn is_told(answer: Result<Vec<NumberedTable<'_, Bytewise>>, Fault>, told: Told) -> bool {
    match (answer, told) {
        (Ok(tables), Ok(wanted)) => are_tables(&tables, wanted),
        (Err(fault), Err(name)) => fault.name == name,
        _ => false,
    }
}

/// Whether four workers answer what a row says.
fn tell(rt: &(impl Threads + Sync + Abort), alloc: Global, row: &Row) -> bool {
    let loaded = loaded(rt, alloc, row.tables);
    let workers = checkers(rt, alloc, &Open);
    let Some(edit) = row.edit else {
        return is_told(check_tables(&workers, &loaded), row.told);
    };
    let version = version_after(rt, alloc, edit);
    is_told(lawful_tables(&workers, &version, &loaded), row.told)
}

#[test]
fn tables_as_they_are_told(rt: HostRuntime) {
    for row in ROWS {
        assert!(rt; tell(&rt, rt.alloc(), row), "{}", row.name);
    }
}
