//! What a crash leaves of the calls that were made, for tests.

use crate::known_versions::{Files, read_as};
use folder::{Folder, FolderFault};
use shelf::{Failing, Shelf, ShelfCall, ShelfStep};
use std::alloc::Global;

/// The failure of the device in a call of a number, from 1.
pub(crate) fn device_fails(call: u64, is_half_done: bool) -> Failing {
    Failing {
        call,
        fault: FolderFault::Device,
        is_half_done,
    }
}

/// The calls made by a moment, the newest first. At an even moment half as many calls are done. At
/// an odd one the crash comes inside the next call, which is then among them.
///
/// None if a crash leaves the same as at the moment before. A call that makes, renames or removes a
/// file counts from inside it on. A sync of the folder counts after it is done, a sync of a file
/// with the next call.
fn made_at(steps: &[ShelfStep], moment: usize) -> Option<&[ShelfStep]> {
    let taken = moment.saturating_add(1) / 2;
    let (_later, made) = steps.split_at(steps.len().saturating_sub(taken));
    let is_another = match made.first() {
        Some(newest) => match newest.call {
            ShelfCall::Create(_, _) | ShelfCall::Rename(_, _) | ShelfCall::Remove(_) => {
                moment % 2 == 1
            }
            ShelfCall::SyncFolder => moment % 2 == 0,
            ShelfCall::Sync(_) => false,
        },
        None => true,
    };
    is_another.then_some(made)
}

/// Whether a call does this to this name.
pub(crate) fn is_named(step: &ShelfStep, (act, name): (&str, &str)) -> bool {
    let (done, of) = match &step.call {
        ShelfCall::Create(name, _) => ("create", name.as_str()),
        ShelfCall::Sync(name) => ("sync", name.as_str()),
        ShelfCall::Rename(_, to) => ("rename", to.as_str()),
        ShelfCall::Remove(name) => ("remove", name.as_str()),
        ShelfCall::SyncFolder => ("sync", "."),
    };
    done == act && of == name
}

/// Whether a crash leaves all of a call after which the `later` ones were made, the newest first:
/// what it writes was synced, and then the folder.
fn is_kept(step: &ShelfStep, later: &[ShelfStep]) -> bool {
    let made = match &step.call {
        ShelfCall::Create(name, _) => name.as_str(),
        ShelfCall::Rename(_, _) | ShelfCall::Remove(_) => "",
        _ => return true,
    };
    let mut is_synced = made.is_empty();
    for next in later.iter().rev() {
        match &next.call {
            ShelfCall::Sync(name) if name.as_str() == made => is_synced = is_synced || next.is_done,
            ShelfCall::SyncFolder if is_synced && next.is_done => return step.is_done,
            _ => {}
        }
    }
    false
}

/// What a crash leaves of a file that nothing keeps: it is missing or empty, or it has the first
/// half, other bytes, or all.
fn garbage(bytes: &[u8], picked: u64) -> Option<&[u8]> {
    match picked {
        0 => None,
        1 => Some(&[]),
        2 => Some(&bytes[..bytes.len() / 2]),
        3 => Some(b"other bytes"),
        _ => Some(bytes),
    }
}

/// Makes what is left of a call. At the last of five picks it is all.
fn make(shelf: &mut Shelf<'_>, call: &ShelfCall, picked: u64) -> Result<(), FolderFault> {
    match call {
        ShelfCall::Create(name, bytes) => match garbage(bytes, picked) {
            Some(left) => shelf.create(name.as_str(), left),
            None => shelf.remove(name.as_str()),
        },
        ShelfCall::Rename(from, to) if picked == 4 => shelf.rename(from.as_str(), to.as_str()),
        ShelfCall::Remove(name) if picked == 4 => shelf.remove(name.as_str()),
        _ => Ok(()),
    }
}

/// Makes what a crash leaves of calls, the newest first: those that are kept, and of each other
/// call what `choice` picks. Whether there is such a choice: from 0 on, choices pick every way, and
/// then there are no more.
pub(crate) fn make_left(
    shelf: &mut Shelf<'_>,
    steps: &[ShelfStep],
    choice: u64,
) -> Result<bool, FolderFault> {
    let mut choices = choice;
    for made in 0..steps.len() {
        let (later, now) = steps.split_at(steps.len().saturating_sub(made.saturating_add(1)));
        if let Some(step) = now.first() {
            let mut picked = 4;
            if !is_kept(step, later) {
                picked = choices % 5;
                choices /= 5;
            }
            make(shelf, &step.call, picked)?;
        }
    }
    Ok(choices == 0)
}

/// What a folder of these files reads as after a crash leaves of these calls what `choice` picks.
/// None if there is no such choice.
fn read_crashed(alloc: Global, files: Files, steps: &[ShelfStep], choice: u64) -> Option<u64> {
    let mut shelf = Shelf::new(alloc, files);
    match make_left(&mut shelf, steps, choice) {
        Ok(true) => Some(read_as(alloc, &mut shelf)),
        Ok(false) => None,
        Err(_) => Some(0),
    }
}

/// Whether crashes may leave one version of a folder of these files after these calls, and whether
/// the other one. None if some crash leaves neither. The versions are known by their next files.
pub(crate) fn found(
    alloc: Global,
    files: Files,
    steps: &[ShelfStep],
    (one, other): (u64, u64),
) -> Option<(bool, bool)> {
    let mut found = (false, false);
    for choice in 0..u64::MAX {
        match read_crashed(alloc, files, steps, choice) {
            None => break,
            Some(next_file) if next_file == one => found.0 = true,
            Some(next_file) if next_file == other => found.1 = true,
            Some(_) => return None,
        }
    }
    Some(found)
}

/// How many renames of these calls, the newest first, were synced; and how many were begun.
pub(crate) fn renames(steps: &[ShelfStep]) -> (usize, usize) {
    let (mut synced, mut begun): (usize, usize) = (0, 0);
    for step in steps.iter().rev() {
        match step.call {
            ShelfCall::Rename(_, _) => begun = begun.saturating_add(1),
            ShelfCall::SyncFolder if step.is_done => synced = begun,
            _ => {}
        }
    }
    (synced, begun)
}

/// Whether crashes after these calls leave just what they should of these versions, each after the
/// rename of the one before: that of the renames that were synced, and that of those begun.
fn leaves(alloc: Global, files: Files, steps: &[ShelfStep], versions: &[u64]) -> bool {
    let (synced, begun) = renames(steps);
    match (versions.get(synced), versions.get(begun)) {
        (Some(older), Some(newer)) => {
            found(alloc, files, steps, (*older, *newer)) == Some((true, synced < begun))
        }
        _ => false,
    }
}

/// The first moment, beginning with this one, at which a crash leaves what it should not.
pub(crate) fn wrong_moment(
    alloc: Global,
    files: Files,
    steps: &[ShelfStep],
    from: usize,
    versions: &[u64],
) -> Option<usize> {
    let end = steps.len().saturating_mul(2);
    for moment in from..end.saturating_add(1) {
        if let Some(made) = made_at(steps, moment)
            && !leaves(alloc, files, made, versions)
        {
            return Some(moment);
        }
    }
    None
}
