//! Compactions of folders in memory.

use crate::compact_tests::tables::U4_DELETED_U2;
use crate::store_tests::rows::{
    CURRENT, DEFAULTS, Files, LINES, ONE_FILE, PLAIN, REFUSALS, ROWS, Row,
};
use answers::{CompactionEnd, compaction_lines};
use coding::{Fault, FaultName};
use folder::{FolderFault, Opened, file_numbers, open};
use ikey::Bytewise;
use keep::Snapshots;
use shelf::{Failing, Shelf};
use std::alloc::Global;
use std::process::Abort;
use std::test::*;
use std::thread::Threads;
use store::{
    CompactionStep, Open, Settings, checkers, compact_dir, compact_opened, opened_after,
    sync_version,
};

/// How many bytes of tables are held while a version is tested.
pub(crate) const MEMORY: u64 = 1_073_741_824;

/// These bytes, or `others` if they are empty.
fn or(bytes: &'static [u8], others: &'static [u8]) -> &'static [u8] {
    if bytes.is_empty() { others } else { bytes }
}

/// The files of the folder of a row.
pub(crate) fn files_of(row: &Row) -> [(&'static str, &'static [u8]); 4] {
    [
        ("CURRENT", CURRENT),
        ("MANIFEST-000005", or(row.manifest, ONE_FILE)),
        ("000007.ldb", or(row.seven, U4_DELETED_U2)),
        ("000008.ldb", row.eight),
    ]
}

/// What the compaction of a row answers over a folder.
fn answer_of<R: Threads + Sync>(
    rt: &R,
    alloc: Global,
    folder: &mut Shelf<'_>,
    row: &Row,
) -> Result<Vec<u8>, Fault> {
    let step = compact_dir(
        &checkers(rt, alloc, &Open),
        folder,
        row.level,
        &row.settings,
        MEMORY,
    )?;
    step_lines(alloc, &step)
}

/// The lines of a step.
pub(crate) fn step_lines(alloc: Global, step: &CompactionStep) -> Result<Vec<u8>, Fault> {
    let end = CompactionEnd::Installed(step.manifest);
    let lines = compaction_lines(alloc, &step.outputs, &step.deleted, end)?;
    Ok(lines.into_bytes())
}

/// Whether an answer is this text, or this refusal.
pub(crate) fn is_answer(answer: &Result<Vec<u8>, Fault>, wanted: Result<&str, FaultName>) -> bool {
    match (answer, wanted) {
        (Ok(lines), Ok(text)) => lines.as_slice() == text.as_bytes(),
        (Err(fault), Err(name)) => *fault == Fault::of(name),
        _ => false,
    }
}

/// Whether the compaction of a row answers this over a folder.
fn answers<R: Threads + Sync>(
    rt: &R,
    alloc: Global,
    folder: &mut Shelf<'_>,
    row: &Row,
    wanted: Result<&str, FaultName>,
) -> bool {
    is_answer(&answer_of(rt, alloc, folder, row), wanted)
}

/// Whether a folder holds these files.
pub(crate) fn holds(folder: &Shelf<'_>, files: Files) -> bool {
    for (name, bytes) in files {
        if folder.file(name) != Some(*bytes) {
            return false;
        }
    }
    true
}

/// Whether the compaction of a row has its answer and leaves its files.
fn is_compacted<R: Threads + Sync>(rt: &R, alloc: Global, row: &Row) -> bool {
    let files = files_of(row);
    let mut folder = Shelf::new(alloc, &files);
    answers(rt, alloc, &mut folder, row, row.answer) && holds(&folder, row.left)
}

/// Whether two openings are of one manifest, with the same counters and as many files.
fn are_same(rt: &impl Abort, alloc: Global, one: &Opened, other: &Opened) -> bool {
    let manifests = one.manifest == other.manifest && one.order == other.order;
    let counters = one.version.next_file() == other.version.next_file()
        && one.version.last_sequence() == other.version.last_sequence();
    let numbers = file_numbers::<Bytewise>(alloc, &one.version).expect(rt, "memory");
    let others = file_numbers::<Bytewise>(alloc, &other.version).expect(rt, "memory");
    manifests && counters && numbers.as_slice() == others.as_slice()
}

/// Whether the compaction of the inputs of a row alone has its answer and leaves its files. And
/// whether what the folder is opened as after it is known without reading it.
fn is_known_after<R: Threads + Sync + Abort>(rt: &R, alloc: Global, row: &Row) -> bool {
    let files = files_of(row);
    let mut folder = Shelf::new(alloc, &files);
    let opened = open(alloc, &mut folder).expect(rt, "an open folder");
    let opened = sync_version(alloc, &mut folder, opened).expect(rt, "a sync");
    let settings = &row.settings;
    let step = compact_opened(
        &checkers(rt, alloc, &Open),
        &mut folder,
        &opened,
        row.level,
        settings,
        None,
    )
    .expect(rt, "a compaction");
    let after = opened_after(alloc, &opened, &step)
        .expect(rt, "memory")
        .into_opened();
    let again = open(alloc, &mut folder).expect(rt, "an open folder");
    is_answer(&step_lines(alloc, &step), row.answer)
        && holds(&folder, row.left)
        && are_same(rt, alloc, &after, &again)
}

#[test]
fn inputs_that_are_compacted_alone(rt: HostRuntime) {
    for row in ROWS {
        assert!(rt; is_known_after(&rt, rt.alloc(), row), "{}", row.name);
    }
}

/// Whether settings are the default ones.
fn are_defaults(settings: &Settings<'_>) -> bool {
    (settings.workers, settings.ranges) == (DEFAULTS.workers, DEFAULTS.ranges)
        && matches!(settings.snapshots, Snapshots::Listed([]))
        && settings.options == DEFAULTS.options
}

#[test]
fn folders_that_are_compacted(rt: HostRuntime) {
    assert!(rt; are_defaults(&Settings::default()));
    for row in ROWS.iter().chain(REFUSALS) {
        assert!(rt; is_compacted(&rt, rt.alloc(), row), "{}", row.name);
    }
}

/// The ways in which a call fails: its fault, whether it is half done, and the refusal.
const FAILURES: &[(FolderFault, bool, FaultName)] = &[
    (FolderFault::Device, false, FaultName::Device),
    (FolderFault::Device, true, FaultName::Device),
    (FolderFault::Memory, false, FaultName::Memory),
    (FolderFault::Memory, true, FaultName::Memory),
];

/// The calls of the compaction of the deletion: two reads, five syncs, the read of the table, and
/// eight of the installation. The test holds that table for the compaction. The last but one of the
/// eight renames the new CURRENT.
const CALLS: u64 = 16;

/// What a second compaction answers: that no input is left if CURRENT was renamed, else the lines
/// of the first.
fn second(call: u64, is_half_done: bool) -> Result<&'static str, FaultName> {
    if call == CALLS || (call == CALLS - 1 && is_half_done) {
        return Err(FaultName::NoInput);
    }
    Ok(LINES)
}

/// Whether the compaction of the deletion makes no further call after one that fails, and a second
/// one goes on from what is left.
fn ends_well<R: Threads + Sync>(
    rt: &R,
    alloc: Global,
    call: u64,
    (fault, is_half_done, name): (FolderFault, bool, FaultName),
) -> bool {
    let row = &PLAIN;
    let files = files_of(row);
    let mut folder = Shelf::new(alloc, &files).failing(Failing {
        call,
        fault,
        is_half_done,
    });
    let is_refused = answers(rt, alloc, &mut folder, row, Err(name));
    let calls = folder.calls();
    let goes_on = answers(rt, alloc, &mut folder, row, second(call, is_half_done));
    is_refused && calls == call && goes_on
}

/// Whether this holds for each way in which a call fails.
fn end_well<R: Threads + Sync>(rt: &R, alloc: Global, call: u64) -> bool {
    for failure in FAILURES {
        if !ends_well(rt, alloc, call, *failure) {
            return false;
        }
    }
    true
}

#[test]
fn a_call_that_fails_ends_it(rt: HostRuntime) {
    for call in 1..CALLS + 1 {
        assert!(rt; end_well(&rt, rt.alloc(), call), "{call}");
    }
}
