//! The test of a version with the tables of a folder, in one range of user keys and in several.

use crate::checks_tests::are_tables;
use crate::compact_tests::tables::U9;
use crate::tested_tables::{
    A_AND_U, A_AT_THREE, B_AT_TWO, BUDGETS, Held, OLDER_ABOVE, OLDER_VALUES, SAME_KEY,
    SEVERAL_RANGES, U_AT_ONE, U_AT_SEVEN, VALUES, version_after,
};
use board::Open;
use checks::{
    HeldTables, VersionTotals, checked_tables, checkers, hold_next, lent_tables, test_and_hold,
    test_version,
};
use coding::{Fault, FaultName};
use folder::{Opened, Order};
use ikey::Bytewise;
use reads::NumberedTable;
use shelf::Shelf;
use std::alloc::Global;
use std::process::Abort;
use std::test::*;
use std::thread::Threads;

/// A version, the files of a folder, and what the test answers: how many files and entries, or the
/// refusal.
struct Row {
    name: &'static str,
    edit: &'static [u8],
    files: &'static [Held],
    told: Result<(usize, u128), FaultName>,
    /// How many calls of the folder it makes if nothing is wrong, whatever the budget: one for each
    /// table, and one more for each that has its older name.
    calls: Option<u64>,
}

const ROWS: &[Row] = &[
    Row {
        name: "one user key in all tables",
        edit: SAME_KEY,
        files: &[
            ("000010.ldb", U_AT_ONE),
            ("000011.sst", U_AT_SEVEN),
            ("000012.ldb", U9),
        ],
        told: Ok((3, 3)),
        calls: Some(4),
    },
    Row {
        name: "several ranges, and a table that reaches into three",
        edit: SEVERAL_RANGES,
        files: VALUES,
        told: Ok((5, 6)),
        calls: Some(5),
    },
    Row {
        name: "entries of the last range that do not fall",
        edit: OLDER_ABOVE,
        files: OLDER_VALUES,
        told: Err(FaultName::Lawless),
        calls: None,
    },
];

/// Whether an answer is the expected one.
fn is_told(answer: Result<VersionTotals, Fault>, told: Result<(usize, u128), FaultName>) -> bool {
    match (answer, told) {
        (Ok(tested), Ok((files, entries))) => tested.files == files && tested.entries == entries,
        (Err(fault), Err(name)) => fault.name == name,
        _ => false,
    }
}

/// Whether the test answers what a row says, with this budget.
fn tell(rt: &(impl Threads + Sync + Abort), alloc: Global, row: &Row, memory: u64) -> bool {
    let version = version_after(rt, alloc, row.edit);
    let mut shelf = Shelf::new(alloc, row.files);
    let workers = checkers(rt, alloc, &Open);
    let answer = test_version::<Bytewise, _, _, _>(&workers, &mut shelf, &version, memory);
    let is_counted = match row.calls {
        Some(calls) => shelf.calls() == calls,
        None => true,
    };
    is_told(answer, row.told) && is_counted
}

#[test]
fn versions_tested_in_ranges(rt: HostRuntime) {
    for row in ROWS {
        for memory in BUDGETS {
            assert!(rt;
                tell(&rt, rt.alloc(), row, *memory),
                "{} {memory}",
                row.name
            );
        }
    }
}

/// The tables of several ranges, and one that is no table.
const OF_SEVERAL: &[Held] = &[
    ("000008.ldb", b"short"),
    ("000009.ldb", A_AND_U),
    ("000010.ldb", A_AT_THREE),
    ("000011.ldb", B_AT_TWO),
    ("000012.ldb", U_AT_SEVEN),
    ("000013.ldb", U9),
];

/// Tables by their numbers, each with the sequence of its first key.
type Firsts = &'static [(u64, u64)];

/// What the test of the version of several ranges holds at its end with a budget of memory, numbers
/// that are wanted then, and their tables.
struct HeldRow {
    memory: u64,
    held: Firsts,
    wanted: &'static [u64],
    told: Firsts,
    /// How many calls of the folder that makes together: one for each table that is tested, and one
    /// for each that is wanted and isn't held.
    calls: u64,
}

const HELD: &[HeldRow] = &[
    // All tables, by level. They are wanted in another order.
    HeldRow {
        memory: 1 << 30,
        held: &[(13, 9), (10, 3), (11, 2), (12, 7), (9, 1)],
        wanted: &[9, 10, 11, 12, 13],
        told: &[(9, 1), (10, 3), (11, 2), (12, 7), (13, 9)],
        calls: 5,
    },
    // Those that reach into the range from `u` on.
    HeldRow {
        memory: 1,
        held: &[(13, 9), (12, 7), (9, 1)],
        wanted: &[12, 11, 13],
        told: &[(12, 7), (11, 2), (13, 9)],
        calls: 6,
    },
];

/// Whether tables that are held, or were read, are these.
fn are_lent_as(
    rt: &impl Abort,
    alloc: Global,
    tables: &HeldTables<Bytewise>,
    firsts: Firsts,
) -> bool {
    are_tables(&tables.lend(alloc).expect(rt, "memory"), firsts)
}

/// Whether the test holds the tables of a row, and those that are wanted are answered so.
fn are_held(rt: &(impl Threads + Sync + Abort), alloc: Global, row: &HeldRow) -> bool {
    let version = version_after(rt, alloc, SEVERAL_RANGES);
    let mut shelf = Shelf::new(alloc, OF_SEVERAL);
    let workers = checkers(rt, alloc, &Open);
    let found = test_and_hold::<Bytewise, _, _, _>(
        &workers, &mut shelf, &version, row.memory,
    ).expect(rt, "a lawful version");
    let is_held = are_lent_as(rt, alloc, &found.tables, row.held);
    let is_tested = (found.tested.files, found.tested.entries) == (5, 6);
    let wanted = checked_tables(&workers, &mut shelf, found.tables, row.wanted).expect(
        rt, "tables",
    );
    is_held && is_tested && are_lent_as(rt, alloc, &wanted, row.told) && shelf.calls() == row.calls
}

#[test]
fn tables_that_are_held_and_wanted(rt: HostRuntime) {
    for row in HELD {
        assert!(rt; are_held(&rt, rt.alloc(), row), "{}", row.memory);
    }
}

/// Numbers of tables that are to be held next, after those of the test of the version of several
/// ranges with one byte of memory (9, 12 and 13). Whether they are held, which ones are, and how
/// many calls of the folder that makes: one for each table that isn't held yet.
struct NextRow {
    numbers: &'static [u64],
    is_held: bool,
    held: Firsts,
    calls: u64,
}

const NEXT: &[NextRow] = &[
    NextRow {
        numbers: &[10, 12, 11],
        is_held: true,
        held: &[(10, 3), (12, 7), (11, 2)],
        calls: 2,
    },
    // Table 8 is invalid: the others are held.
    NextRow {
        numbers: &[12, 8],
        is_held: false,
        held: &[(12, 7)],
        calls: 1,
    },
];

/// Whether the tables of a row are held next, and are lent in this order.
fn are_next(rt: &(impl Threads + Sync + Abort), alloc: Global, row: &NextRow) -> bool {
    let version = version_after(rt, alloc, SEVERAL_RANGES);
    let mut shelf = Shelf::new(alloc, OF_SEVERAL);
    let workers = checkers(rt, alloc, &Open);
    let found = test_and_hold::<Bytewise, _, _, _>(&workers, &mut shelf, &version, 1).expect(
        rt,
        "a lawful version",
    );
    let mut held = found.tables;
    let before = shelf.calls();
    let is_held = hold_next(&workers, &mut shelf, &mut held, row.numbers).expect(rt, "memory");
    let lent = held.lend(alloc).expect(rt, "memory");
    is_held == row.is_held
        && are_tables(&lent, row.held)
        && are_lent(rt, alloc, &lent)
        && before.checked_add(row.calls) == Some(shelf.calls())
}

/// Whether tables are handed to a walk in their order.
fn are_lent(rt: &impl Abort, alloc: Global, tables: &[NumberedTable<'_, Bytewise>]) -> bool {
    let lent = lent_tables(alloc, tables).expect(rt, "memory");
    for (table, other) in lent.iter().zip(tables) {
        if table.smallest().sequence() != other.table().smallest().sequence() {
            return false;
        }
    }
    lent.len() == tables.len()
}

#[test]
fn tables_that_are_held_next(rt: HostRuntime) {
    for row in NEXT {
        assert!(rt; are_next(&rt, rt.alloc(), row), "{:?}", row.numbers);
    }
}
