//! The calls of what changes a folder that tells contracts nothing, and what stays of it: after a
//! call that fails, and after a crash at any moment.

use crate::acts::{Told, done};
use crate::calls::Call;
use crate::crashes::{device_fails, is_named, renames, wrong_moment};
use crate::known_versions::{Files, read_as};
use crate::rows::{ROWS, Row, Wrong};
use crate::silent_shelf::SilentShelf;
use coding::{Fault, FaultName};
use folder::Readings;
use shelf::{Failing, Shelf, ShelfCall, ShelfStep};
use std::alloc::Global;
use std::process::Abort;
use std::test::*;
use std::thread::Threads;

/// What was done to a folder, what was told of it, and the answer.
#[derive(Drop)]
struct Run {
    folder: SilentShelf<'static>,
    sources: Vec<SilentShelf<'static>>,
    told: Told,
    answer: Result<(), Fault>,
}

/// A folder in memory that tells nothing.
fn silent(
    alloc: Global,
    files: Files,
    failing: Option<Failing>,
    wrong: Wrong,
) -> SilentShelf<'static> {
    let shelf = Shelf::new(alloc, files);
    SilentShelf {
        shelf: match failing {
            Some(failing) => shelf.failing(failing),
            None => shelf,
        },
        short: match wrong {
            Wrong::Short(name) => name,
            _ => "",
        },
        readings: Readings::none(),
    }
}

/// The folders of a row that are only read.
fn sources_of(alloc: Global, row: &Row, wrong: Wrong) -> Result<Vec<SilentShelf<'static>>, Fault> {
    let mut sources = Vec::new(alloc);
    for (place, source) in row.sources.iter().enumerate() {
        let failing = match wrong {
            Wrong::SourceCall(at, call) if at == place => Some(device_fails(call, false)),
            _ => None,
        };
        sources.push(silent(alloc, source, failing, wrong))?;
    }
    Ok(sources)
}

/// Does what a row says.
fn tried<R: Threads + Sync>(
    rt: &R,
    alloc: Global,
    row: &'static Row,
    wrong: Wrong,
) -> Result<Run, Fault> {
    let failing = match wrong {
        Wrong::Call(failing) => Some(failing),
        _ => None,
    };
    let mut folder = silent(alloc, row.files, failing, wrong);
    let mut sources = sources_of(alloc, row, wrong)?;
    let mut told = Told::none(alloc, row);
    let answer = done(rt, &mut folder, &mut sources, &mut told);
    Ok(Run {
        folder,
        sources,
        told,
        answer,
    })
}

/// The calls of a row.
fn calls_of(alloc: Global, row: &Row) -> Result<Vec<Call>, Fault> {
    let mut calls = Vec::new(alloc);
    for piece in row.calls {
        piece.push_to(&mut calls)?;
    }
    Ok(calls)
}

/// Whether the calls that write, the newest first, are those of these.
fn are_calls(steps: &[ShelfStep], calls: &[Call]) -> bool {
    let mut left = steps;
    for call in calls {
        if call.0 != "read" {
            match left.split_last() {
                Some((step, newer)) if is_named(step, *call) => left = newer,
                _ => return false,
            }
        }
    }
    left.is_empty()
}

/// Whether all calls were done, the newest first, but for the newest one if it `has_failed`.
fn are_done(steps: &[ShelfStep], has_failed: bool) -> bool {
    for (place, step) in steps.iter().enumerate() {
        if step.is_done == (place == 0 && has_failed) {
            return false;
        }
    }
    true
}

/// How many files were renamed and how many removals were done by these calls.
fn shown(steps: &[ShelfStep]) -> (usize, usize) {
    let (mut renamed, mut removed): (usize, usize) = (0, 0);
    for step in steps {
        match step.call {
            ShelfCall::Rename(_, _) if step.is_shown => renamed = renamed.saturating_add(1),
            ShelfCall::Remove(_) if step.is_done => removed = removed.saturating_add(1),
            _ => {}
        }
    }
    (renamed, removed)
}

/// Whether what was told is what stays: the steps whose rename was synced, and the files whose
/// removal was done.
fn is_told(run: &Run) -> bool {
    let (synced, _begun) = renames(run.folder.steps());
    let (_renamed, removed) = shown(run.folder.steps());
    run.told.is_right && run.told.steps == synced && run.told.removed == removed
}

/// Whether that holds, and the folder reads as the version after the last rename that shows.
fn stays(alloc: Global, row: &Row, run: &mut Run) -> bool {
    let (renamed, _removed) = shown(run.folder.steps());
    let version = read_as(alloc, &mut run.folder.shelf);
    row.versions.get(renamed) == Some(&version) && is_told(run)
}

/// Whether of what a row does just the calls up to a place are made, if the one there fails, and
/// what was told stays.
fn ends_at<R: Threads + Sync>(
    rt: &R,
    alloc: Global,
    row: &'static Row,
    calls: &[Call],
    failing: Failing,
) -> Result<bool, Fault> {
    let mut run = tried(rt, alloc, row, Wrong::Call(failing))?;
    let made = calls.get(..failing.call as usize).unwrap_or(calls);
    let has_failed = match made.last() {
        Some(call) => call.0 != "read",
        None => false,
    };
    Ok(
        run.answer == Err(Fault::of(FaultName::Device))
            && run.folder.shelf.calls() == failing.call
            && are_calls(run.folder.steps(), made)
            && are_done(run.folder.steps(), has_failed)
            && stays(alloc, row, &mut run),
    )
}

/// The first call of a row, by its number, for whose failure this does not hold: half done or not
/// at all.
fn wrong_failure<R: Threads + Sync>(
    rt: &R,
    alloc: Global,
    row: &'static Row,
) -> Result<Option<u64>, Fault> {
    let calls = calls_of(alloc, row)?;
    for way in 0..(calls.len() as u64).saturating_mul(2) {
        let failing = device_fails(way / 2 + 1, way % 2 == 1);
        if !ends_at(rt, alloc, row, &calls, failing)? {
            return Ok(Some(failing.call));
        }
    }
    Ok(None)
}

#[test]
fn calls_that_fail(rt: HostRuntime) {
    for row in ROWS {
        let wrong = wrong_failure(&rt, rt.alloc(), row);
        assert_eq!(rt; wrong, Ok(None), "{}", row.name);
    }
}

/// Whether a row makes all its calls and tells all its steps.
fn is_made(alloc: Global, row: &Row, run: &mut Run) -> Result<bool, Fault> {
    let calls = calls_of(alloc, row)?;
    Ok(
        run.answer == Ok(())
            && run.folder.shelf.calls() == calls.len() as u64
            && are_calls(run.folder.steps(), &calls)
            && are_done(run.folder.steps(), false)
            && run.told.steps == row.steps.len()
            && stays(alloc, row, run),
    )
}

/// The first moment of a row at which a crash leaves what it should not.
fn wrong_crash<R: Threads + Sync>(
    rt: &R,
    alloc: Global,
    row: &'static Row,
) -> Result<Option<usize>, Fault> {
    let mut run = tried(rt, alloc, row, Wrong::Nothing)?;
    if !is_made(alloc, row, &mut run)? {
        return Ok(Some(0));
    }
    let steps = run.folder.steps();
    Ok(wrong_moment(alloc, row.files, steps, 0, row.versions))
}

#[test]
fn crashes_of_each_row(rt: HostRuntime) {
    for row in ROWS {
        let wrong = wrong_crash(&rt, rt.alloc(), row);
        assert_eq!(rt; wrong, Ok(None), "{}", row.name);
    }
}

/// Whether the answer is that of what went wrong: Device after a call on another folder that
/// failed, which was the last one there.
fn is_refused(run: &Run, wrong: Wrong) -> bool {
    match wrong {
        Wrong::SourceCall(place, call) => match run.sources.get(place) {
            Some(source) => {
                run.answer == Err(Fault::of(FaultName::Device)) && source.shelf.calls() == call
            }
            None => false,
        },
        _ => run.answer.is_err(),
    }
}

/// Whether what goes wrong ends what a row does after so many calls that write, none of them on a
/// folder that is only read.
fn ends_after(run: &Run, wrong: Wrong, writes: usize) -> bool {
    for source in run.sources.iter() {
        if !source.steps().is_empty() {
            return false;
        }
    }
    let steps = run.folder.steps();
    is_refused(run, wrong) && steps.len() == writes && are_done(steps, false) && is_told(run)
}

/// The first place of a row at which what goes wrong does something else.
fn wrong_end<R: Threads + Sync>(
    rt: &R,
    alloc: Global,
    row: &'static Row,
) -> Result<Option<usize>, Fault> {
    for (place, (wrong, writes)) in row.ends.iter().enumerate() {
        let run = tried(rt, alloc, row, *wrong)?;
        if !ends_after(&run, *wrong, *writes) {
            return Ok(Some(place));
        }
    }
    Ok(None)
}

#[test]
fn other_ends_of_each_row(rt: HostRuntime) {
    for row in ROWS {
        let wrong = wrong_end(&rt, rt.alloc(), row);
        assert_eq!(rt; wrong, Ok(None), "{}", row.name);
    }
}
