//! Installations that are cut short at any moment, and of which any call fails.

use crate::crashes::{device_fails, wrong_moment};
use crate::install_rows::{BEFORE, FILES, ONE, READS, READS_AGAIN, ROWS, Row, SECOND};
use crate::known_versions::{made, read_as};
use coding::{Fault, FaultName};
use edit::{Outcome, Version};
use folder::{Folder, FolderFault, load, open};
use ikey::Bytewise;
use install::{install, install_manifest, manifest_bytes, write_group};
use shelf::{Failing, Shelf};
use std::alloc::Global;
use std::process::Abort;
use std::thread::Threads;

/// The outcome of a row.
fn outcome_of(alloc: Global, row: &Row) -> Result<Outcome, Fault> {
    let tables = made(alloc, row.tables)?;
    let edit = Vec::from_slice(alloc, row.edit)?;
    Ok(Outcome { tables, edit })
}

/// The version of a folder, whose tables are loaded.
fn loaded(alloc: Global, folder: &mut Shelf<'_>) -> Result<Version, Fault> {
    let version = open(alloc, folder)?.version;
    load::<Bytewise, Shelf<'_>>(alloc, folder, &version)?;
    Ok(version)
}

/// Installs the outcome of a row over a version in two groups.
fn install_groups<R: Threads + Sync>(
    rt: &R,
    alloc: Global,
    shelf: &mut Shelf<'_>,
    version: &Version,
    row: &Row,
    outcome: &Outcome,
) -> Result<(), Fault> {
    let manifest = manifest_bytes::<Bytewise>(alloc, version, &outcome.edit)?;
    let tables = outcome.tables.as_slice();
    let (first, rest) = tables.split_at(tables.len().saturating_sub(row.second.unwrap_or(0)));
    write_group(rt, shelf, first)?;
    write_group(rt, shelf, rest)?;
    install_manifest(alloc, shelf, row.opened, row.manifest, &manifest)
}

/// Installs the outcome of a row over a version.
fn installed<R: Threads + Sync>(
    rt: &R,
    alloc: Global,
    shelf: &mut Shelf<'_>,
    version: &Version,
    row: &Row,
) -> Result<(), Fault> {
    let outcome = outcome_of(alloc, row)?;
    if row.second.is_some() {
        return install_groups(rt, alloc, shelf, version, row, &outcome);
    }
    install::<Bytewise, Shelf<'_>, R>(
        rt,
        alloc,
        shelf,
        row.opened,
        version,
        row.manifest,
        &outcome,
    )
}

/// Opens a folder, loads its tables and installs the outcome of a row.
fn install_row<R: Threads + Sync>(
    rt: &R,
    alloc: Global,
    shelf: &mut Shelf<'_>,
    row: &Row,
) -> Result<(), Fault> {
    let version = loaded(alloc, shelf)?;
    installed(rt, alloc, shelf, &version, row)
}

/// The same, and then opens it and loads its tables again. The next file of what it reads as.
fn round<R: Threads + Sync>(
    rt: &R,
    alloc: Global,
    shelf: &mut Shelf<'_>,
    row: &Row,
) -> Result<u64, Fault> {
    install_row(rt, alloc, shelf, row)?;
    Ok(read_as(alloc, shelf))
}

/// The first moment of the installation of a row at which a crash leaves what it should not.
fn wrong_crash<R: Threads + Sync>(rt: &R, alloc: Global, row: &Row) -> Option<usize> {
    let mut shelf = Shelf::new(alloc, FILES);
    if install_row(rt, alloc, &mut shelf, row).is_err() {
        return Some(0);
    }
    wrong_moment(alloc, FILES, shelf.steps(), 0, &[BEFORE, row.edited])
}

/// Syncs a folder after a failure and installs again: the same outcome if it reads as the version
/// before, the second outcome over the version with one output. What the folder then reads as.
fn run_again<R: Threads + Sync>(rt: &R, alloc: Global, shelf: &mut Shelf<'_>, row: &Row) -> u64 {
    if shelf.sync_folder().is_err() {
        return 0;
    }
    match read_as(alloc, shelf) {
        BEFORE => round(rt, alloc, shelf, row).unwrap_or(0),
        10 => round(rt, alloc, shelf, SECOND).unwrap_or(0),
        other => other,
    }
}

/// Whether an answer is the fault of the call that fails, no call was made after it, and the device
/// failed once.
fn is_last(shelf: &Shelf<'_>, answer: Result<(), Fault>, failing: Failing) -> bool {
    answer == Err(Fault::from(failing.fault))
        && shelf.calls() == failing.call
        && shelf.failures() == 1
}

/// How many calls open a folder, load its tables and install the outcome of a row.
fn calls_of(row: &Row) -> u64 {
    READS.saturating_add(row.calls).saturating_add(READS_AGAIN)
}

/// Whether an installation ends at a call that fails. The folder reads as the version before, or
/// after the rename as the edited one. A second run goes on from there.
fn ends_there<R: Threads + Sync>(
    rt: &R,
    alloc: Global,
    shelf: &mut Shelf<'_>,
    row: &Row,
    failing: Failing,
) -> bool {
    let answer = install_row(rt, alloc, shelf, row);
    let rename = calls_of(row).saturating_sub(1);
    let is_renamed = failing.call > rename || (failing.call == rename && failing.is_half_done);
    let (read, again) = if is_renamed {
        (row.edited, row.again)
    } else {
        (BEFORE, row.edited)
    };
    is_last(shelf, answer, failing)
        && read_as(alloc, shelf) == read
        && run_again(rt, alloc, shelf, row) == again
}

/// The first call of reading and installing a row for whose failure this is wrong: half done or not
/// at all. `hostile` refuses memory.
fn wrong_failure<R: Threads + Sync>(rt: &R, alloc: Global, row: &Row) -> Option<usize> {
    let calls = calls_of(row);
    for way in 0..calls.saturating_mul(2) {
        let failing = device_fails(way / 2 + 1, way % 2 == 1);
        let mut shelf = Shelf::new(alloc, FILES).failing(failing);
        if !ends_there(rt, alloc, &mut shelf, row, failing) {
            return Some(failing.call as usize);
        }
    }
    None
}

/// Tests that nothing is wrong with a row.
fn is_none(rt: &impl Abort, wrong: Option<usize>, row: &Row) {
    assert_eq!(rt; wrong, None, "of {} calls", row.calls);
}

#[test]
fn crashes_and_calls_that_fail(rt: HostRuntime) {
    for row in ROWS {
        is_none(&rt, wrong_crash(&rt, rt.alloc(), row), row);
        is_none(&rt, wrong_failure(&rt, rt.alloc(), row), row);
    }
}

/// The first moment at which a crash leaves what it should not, of an installation whose last call
/// fails and of a second run after it, which begins with a sync of the folder.
fn wrong_after_the_last_sync<R: Threads + Sync>(
    rt: &R,
    alloc: Global,
    shelf: &mut Shelf<'_>,
) -> Option<usize> {
    if install_row(rt, alloc, shelf, ONE).is_err()
        && run_again(rt, alloc, shelf, ONE) == SECOND.edited
        && shelf.steps().len() == 19
    {
        wrong_moment(
            alloc,
            FILES,
            shelf.steps(),
            0,
            &[BEFORE, ONE.edited, SECOND.edited],
        )
    } else {
        Some(0)
    }
}

#[test]
fn folder_not_synced_first(rt: HostRuntime) {
    let last_sync = device_fails(READS + 9 + READS_AGAIN, false);
    let mut shelf = Shelf::new(rt.alloc(), FILES).failing(last_sync);
    is_none(
        &rt,
        wrong_after_the_last_sync(&rt, rt.alloc(), &mut shelf),
        SECOND,
    );
}

/// What another program may leave as CURRENT while the folder is open: that of another manifest,
/// one of a manifest's name that isn't written so, and none.
const REPLACED: &[Option<&[u8]>] = &[Some(b"MANIFEST-000007\n"), Some(b"MANIFEST-000005"), None];

/// Replaces CURRENT, or removes it.
fn replace(shelf: &mut Shelf<'_>, current: Option<&[u8]>) -> Result<(), FolderFault> {
    match current {
        Some(bytes) => shelf.create("CURRENT", bytes),
        None => shelf.remove("CURRENT"),
    }
}

/// Opens a folder, replaces CURRENT, and installs the outcome of a row.
fn install_late<R: Threads + Sync>(
    rt: &R,
    alloc: Global,
    shelf: &mut Shelf<'_>,
    row: &Row,
    current: Option<&[u8]>,
) -> Result<(), Fault> {
    let version = loaded(alloc, shelf)?;
    replace(shelf, current)?;
    installed(rt, alloc, shelf, &version, row)
}

/// Whether it is refused as Changed, after all calls but the last two, and leaves that CURRENT.
fn is_refused<R: Threads + Sync>(rt: &R, alloc: Global, row: &Row, current: Option<&[u8]>) -> bool {
    let mut shelf = Shelf::new(alloc, FILES);
    let answer = install_late(rt, alloc, &mut shelf, row, current);
    // The call that replaced CURRENT is counted too.
    answer == Err(Fault::of(FaultName::Changed))
        && shelf.calls() == calls_of(row).saturating_sub(1)
        && shelf.steps().len() as u64 == row.calls.saturating_sub(1)
        && shelf.file("CURRENT") == current
}

#[test]
fn current_that_changed(rt: HostRuntime) {
    for row in ROWS {
        for current in REPLACED {
            assert!(rt;
                is_refused(&rt, rt.alloc(), row, *current),
                "of {} calls",
                row.calls
            );
        }
    }
}
