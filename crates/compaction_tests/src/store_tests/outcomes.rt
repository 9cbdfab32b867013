//! Outcomes of folders in memory that are not installed, and the folders that they are written
//! into.

use crate::compact_tests::tables::{U4_DELETED, U4_DELETED_U2};
use crate::store_tests::rows::{CURRENT, Files, KEPT, NUMBER_10, ONE_FILE, Row};
use crate::store_tests::tests::{MEMORY, files_of, holds, is_answer};
use answers::{CompactionEnd, compaction_lines};
use coding::{Fault, FaultName};
use edit::Outcome;
use folder::open;
use shelf::Shelf;
use std::alloc::Global;
use std::process::Abort;
use std::test::*;
use std::thread::Threads;
use store::{
    Choice, CompactionOutcome, EDIT, Open, OutcomeSettings, checkers, files_to_compact, outcome,
    write_outcome,
};

/// The compaction of a folder, the first number that is asked for, the answer, and the files of the
/// folder that its outcome is written into.
#[derive(Clone, Copy)]
struct OutcomeRow {
    row: &'static Row,
    first: Option<u64>,
    answer: Result<&'static str, FaultName>,
    written: Files,
}

/// `edit: log 3, previous 0, next 301, last 4, pointer 1 u@2 put, delete 1 7, file 2 300 113 u@4
/// del .. u@4 del`
const NUMBER_300: &[u8] = b"\
    \x02\x03\x09\0\x03\xad\x02\x04\x04\x05\x01\x09u\x01\x02\0\0\0\0\0\0\x06\x01\x07\x07\x02\xac\
    \x02q\x09u\0\x04\0\0\0\0\0\0\x09u\0\x04\0\0\0\0\0\0";

/// The numbers that an installation gives, greater ones, and one that is not free. Next file is 9,
/// which is the number of a later manifest.
const OUTCOMES: &[OutcomeRow] = &[
    OutcomeRow {
        row: &KEPT,
        first: None,
        answer: Ok("output 10 113\ndeleted 1 7\nwritten EDIT\n"),
        written: &[("000010.ldb", U4_DELETED), (EDIT, NUMBER_10)],
    },
    OutcomeRow {
        row: &KEPT,
        first: Some(300),
        answer: Ok("output 300 113\ndeleted 1 7\nwritten EDIT\n"),
        written: &[("000300.ldb", U4_DELETED), (EDIT, NUMBER_300)],
    },
    NEXT_FILE,
];

/// That of next file as the first number.
const NEXT_FILE: OutcomeRow = OutcomeRow {
    row: &KEPT,
    first: Some(9),
    answer: Err(FaultName::Numbers),
    written: NO_FILES,
};

const NO_FILES: Files = &[];

/// The outcome of a row over a folder, with a test of its version or without.
fn outcome_of<R: Threads + Sync>(
    rt: &R,
    alloc: Global,
    folder: &mut Shelf<'_>,
    asked: &OutcomeRow,
    is_tested: bool,
) -> Result<CompactionOutcome, Fault> {
    let opened = open(alloc, folder)?;
    let choice = Choice::Picked(asked.row.level);
    let test = if is_tested { Some(MEMORY) } else { None };
    let kept = OutcomeSettings {
        first: asked.first,
        settings: asked.row.settings,
    };
    outcome(
        &checkers(rt, alloc, &Open),
        folder,
        &opened,
        choice,
        &kept,
        test,
    )
}

/// Whether an outcome is written as these files, by two calls each, one that names the edit, and
/// one for the folder before and after that.
fn is_written<R: Threads + Sync>(rt: &R, alloc: Global, outcome: &Outcome, files: Files) -> bool {
    let mut folder = Shelf::new(alloc, NO_FILES);
    let answer = write_outcome(rt, &mut folder, outcome);
    answer == Ok(()) && holds(&folder, files) && folder.calls() == 2 * files.len() as u64 + 3
}

/// The lines of an outcome.
fn outcome_lines(rt: &impl Abort, alloc: Global, made: &CompactionOutcome) -> Vec<u8> {
    let end = CompactionEnd::Written(EDIT);
    let lines = compaction_lines(alloc, &made.outputs, &made.deleted, end).expect(rt, "memory");
    lines.into_bytes()
}

/// Whether the outcome of a row is its answer, and leaves its folder as it was.
fn is_outcome<R: Threads + Sync + Abort>(
    rt: &R,
    alloc: Global,
    asked: &OutcomeRow,
    is_tested: bool,
) -> bool {
    let files = files_of(asked.row);
    let mut folder = Shelf::new(alloc, &files);
    let answer = outcome_of(rt, alloc, &mut folder, asked, is_tested);
    folder.steps().is_empty()
        && match answer {
            Ok(made) => {
                is_answer(&Ok(outcome_lines(rt, alloc, &made)), asked.answer)
                    && is_written(rt, alloc, &made.outcome, asked.written)
            }
            Err(fault) => is_answer(&Err(fault), asked.answer),
        }
}

#[test]
fn outcomes_that_are_written(rt: HostRuntime) {
    for asked in OUTCOMES {
        for is_tested in [true, false] {
            assert!(rt;
                is_outcome(&rt, rt.alloc(), asked, is_tested),
                "{:?} {is_tested}",
                asked.first
            );
        }
    }
}

/// A folder, a level, and the files that its compaction needs.
#[derive(Clone, Copy)]
struct FilesRow {
    files: Files,
    level: u64,
    answer: Result<&'static str, FaultName>,
}

/// The folder of one file, with its table under either name, and without it.
const NEEDED: &[FilesRow] = &[
    FilesRow {
        files: &[
            ("CURRENT", CURRENT),
            ("MANIFEST-000005", ONE_FILE),
            ("000007.sst", U4_DELETED_U2),
        ],
        level: 1,
        answer: Ok("CURRENT\nMANIFEST-000005\n000007.sst\n"),
    },
    FilesRow {
        files: &[("CURRENT", CURRENT), ("MANIFEST-000005", ONE_FILE)],
        level: 1,
        answer: Err(FaultName::Missing),
    },
];

/// Whether the files of a row are its answer.
fn are_needed(rt: &impl Abort, alloc: Global, asked: &FilesRow) -> bool {
    let mut folder = Shelf::new(alloc, asked.files);
    let opened = open(alloc, &mut folder).expect(rt, "an open folder");
    let answer = files_to_compact(alloc, &mut folder, &opened, asked.level);
    is_answer(&answer, asked.answer)
}

#[test]
fn files_that_a_compaction_needs(rt: HostRuntime) {
    for asked in NEEDED {
        assert!(rt; are_needed(&rt, rt.alloc(), asked));
    }
}
