//! Outcomes that are installed in folders in memory.

use crate::adoption_tests::rows::{FIRST_PART, INSTALLED, OWN, REFUSED_ROWS, Row, SECOND_PART};
use crate::store_tests::rows::{CURRENT, T_AND_V};
use crate::store_tests::tests::{MEMORY, holds, is_answer};
use adoption::{begin_taking, install_taken, take_outcome};
use answers::{CompactionEnd, compaction_lines};
use coding::{Fault, FaultName};
use folder::open;
use shelf::Shelf;
use std::alloc::Global;
use std::test::*;
use std::thread::Threads;
use store::{Open, SyncedVersion, checkers, sync_version};

/// The files of the folder of a row.
fn files_of(row: &Row) -> [(&'static str, &'static [u8]); 4] {
    [
        ("CURRENT", CURRENT),
        ("MANIFEST-000005", row.manifest),
        ("000007.ldb", row.seven),
        ("000008.ldb", T_AND_V),
    ]
}

/// What a folder is opened as, synced.
fn synced(alloc: Global, folder: &mut Shelf<'_>) -> Result<SyncedVersion, Fault> {
    let opened = open(alloc, folder)?;
    sync_version(alloc, folder, opened)
}

/// A folder in which an outcome was to be installed, and the answer.
#[derive(Drop)]
struct End<'f> {
    folder: Shelf<'f>,
    answer: Result<Vec<u8>, Fault>,
}

/// Installs the outcome of a row in a folder.
fn installed<'f, R: Threads + Sync>(
    rt: &R,
    alloc: Global,
    folder: Shelf<'f>,
    row: &Row,
) -> End<'f> {
    let mut folder = folder;
    let mut source = Shelf::new(alloc, row.outcome);
    let opened = match synced(alloc, &mut folder) {
        Ok(opened) => opened,
        Err(fault) => {
            return End {
                folder,
                answer: Err(fault),
            };
        }
    };
    let answer = taken_in(rt, alloc, &mut folder, &mut source, &opened, row);
    End { folder, answer }
}

/// Takes in the outcome of a row and installs it: the lines that tell of it.
fn taken_in<R: Threads + Sync>(
    rt: &R,
    alloc: Global,
    folder: &mut Shelf<'_>,
    source: &mut Shelf<'_>,
    opened: &SyncedVersion,
    row: &Row,
) -> Result<Vec<u8>, Fault> {
    let workers = checkers(rt, alloc, &Open);
    let none = begin_taking(&workers, folder, opened, row.comparison, MEMORY)?;
    let one = take_outcome(&workers, folder, source, none)?;
    let step = install_taken(&workers, folder, one.taken, MEMORY)?;
    let end = CompactionEnd::Installed(step.manifest);
    let lines = compaction_lines(alloc, &step.outputs, &step.deleted, end)?;
    Ok(lines.into_bytes())
}

/// Whether the installation of a row has its answer and leaves its files.
fn is_answered<R: Threads + Sync>(rt: &R, alloc: Global, row: &Row) -> bool {
    let files = files_of(row);
    let end = installed(rt, alloc, Shelf::new(alloc, &files), row);
    is_answer(&end.answer, row.answer) && holds(&end.folder, row.left)
}

/// Whether an outcome that was installed is refused if it is installed again, and the folder stays.
fn is_refused_twice<R: Threads + Sync>(rt: &R, alloc: Global, row: &Row) -> bool {
    let files = files_of(row);
    let first = installed(rt, alloc, Shelf::new(alloc, &files), row);
    let second = installed(rt, alloc, first.folder, row);
    is_answer(&second.answer, Err(FaultName::Apply)) && holds(&second.folder, row.left)
}

/// Whether the outcomes of two parts that were made of one version are installed one after the
/// other. The second manifest is numbered by the next file of the first outcome.
fn are_installed_in_turn<R: Threads + Sync>(rt: &R, alloc: Global) -> bool {
    let files = files_of(&FIRST_PART);
    let first = installed(rt, alloc, Shelf::new(alloc, &files), &FIRST_PART);
    let second = installed(rt, alloc, first.folder, &SECOND_PART);
    is_answer(&first.answer, FIRST_PART.answer)
        && is_answer(
            &second.answer,
            Ok("output 20 127\ndeleted 1 8\ninstalled MANIFEST-000011\n"),
        )
        && holds(&second.folder, &[("CURRENT", b"MANIFEST-000011\n")])
        && is_refused_twice(rt, alloc, &SECOND_PART)
}

#[test]
fn outcomes_that_are_installed(rt: HostRuntime) {
    for row in INSTALLED.iter().chain(REFUSED_ROWS) {
        assert!(rt; is_answered(&rt, rt.alloc(), row), "{}", row.name);
    }
    assert!(rt; is_refused_twice(&rt, rt.alloc(), &OWN));
    assert!(rt; are_installed_in_turn(&rt, rt.alloc()));
}
