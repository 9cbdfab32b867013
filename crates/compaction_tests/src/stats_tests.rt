//! How much versions have at their levels, with the tables of a folder in one range of user keys
//! and in several.

use crate::scan_tests::{DELETED, DELETION_ABOVE};
use crate::tested_tables::{
    A_AND_U, A_AT_THREE, B_AT_TWO, BUDGETS, Held, SEVERAL_RANGES, U_AT_SEVEN, VALUES, opened_after,
};
use board::Open;
use checks::checkers;
use coding::FaultName;
use scan::{Amounts, LevelStats, VersionStats, version_stats};
use shelf::Shelf;
use std::alloc::Global;
use std::process::Abort;
use std::test::*;
use std::thread::Threads;

/// The numbers of files, bytes, entries, deletions and hidden entries.
type Numbers = (u64, u64, u128, u128, u128);

/// A level, its smallest and its largest user key, and its numbers.
type Level = (u64, &'static [u8], &'static [u8], Numbers);

/// A version, the files of a folder, and what is told: each level with a file, and the numbers of
/// all; or the refusal.
struct Row {
    name: &'static str,
    edit: &'static [u8],
    files: &'static [Held],
    told: Result<(&'static [Level], Numbers), FaultName>,
}

const ROWS: &[Row] = &[
    Row {
        name: "older values below a deletion and below a value",
        edit: DELETION_ABOVE,
        files: DELETED,
        told: Ok((
            &[
                (0, b"u", b"u", (1, 113, 1, 1, 0)),
                (1, b"a", b"b", (2, 226, 2, 0, 0)),
                (2, b"a", b"u", (1, 125, 2, 0, 2)),
            ],
            (4, 464, 5, 1, 2),
        )),
    },
    Row {
        name: "three values of a user key",
        edit: SEVERAL_RANGES,
        files: VALUES,
        told: Ok((
            &[
                (0, b"u", b"u", (1, 114, 1, 0, 0)),
                (1, b"a", b"u", (3, 340, 3, 0, 1)),
                (2, b"a", b"u", (1, 125, 2, 0, 2)),
            ],
            (5, 579, 6, 0, 3),
        )),
    },
    Row {
        name: "a table is missing",
        edit: SEVERAL_RANGES,
        files: &[
            ("000009.ldb", A_AND_U),
            ("000010.ldb", A_AT_THREE),
            ("000011.ldb", B_AT_TWO),
            ("000012.ldb", U_AT_SEVEN),
        ],
        told: Err(FaultName::Missing),
    },
];

/// Whether amounts are these numbers.
fn are_numbers(found: Amounts, wanted: Numbers) -> bool {
    (
        found.files,
        found.bytes,
        found.entries,
        found.deletions,
        found.hidden,
    ) == wanted
}

/// Whether a level is told so.
fn is_level(found: &LevelStats, wanted: Level) -> bool {
    (
        found.level,
        found.smallest.as_key().user(),
        found.largest.as_key().user(),
    ) == (wanted.0, wanted.1, wanted.2)
        && are_numbers(found.amounts, wanted.3)
}

/// Whether the levels and all of them together are told so.
fn are_levels(found: &VersionStats, levels: &[Level], all: Numbers) -> bool {
    for (level, wanted) in found.levels.iter().zip(levels) {
        if !is_level(level, *wanted) {
            return false;
        }
    }
    found.levels.len() == levels.len() && are_numbers(found.all, all)
}

/// Whether a row is told as it says, with this budget.
fn tell<R: Threads + Sync + Abort>(rt: &R, alloc: Global, row: &Row, memory: u64) -> bool {
    let opened = opened_after(rt, alloc, row.edit);
    let mut shelf = Shelf::new(alloc, row.files);
    let workers = checkers(rt, alloc, &Open);
    let answer = version_stats(&workers, &mut shelf, &opened, memory);
    match (answer, row.told) {
        (Ok(found), Ok((levels, all))) => are_levels(&found, levels, all),
        (Err(fault), Err(name)) => fault.name == name,
        _ => false,
    }
}

#[test]
fn amounts_of_levels(rt: HostRuntime) {
    for row in ROWS {
        for memory in BUDGETS {
            assert!(rt;
                tell(&rt, rt.alloc(), row, *memory),
                "{} {memory}",
                row.name
            );
        }
    }
}
