//! What is told if a compaction is refused for what was asked for.

use crate::words::Text;
use coding::FaultName;
use compact::{MAX_SNAPSHOTS, Settings, Snapshots};
use folder::MAX_WORKERS;
use ikey::MAX_SEQUENCE;
use session::RefusalText;
use split::MAX_RANGES;
use std::alloc::Global;
use table::{MAX_BLOCK_SIZE, MAX_TABLE_LEN};

/// What is told if the compaction of the folder at a path is refused by this name. None if it isn't
/// refused for what was asked for. The `level` is None if all were asked for.
pub(crate) fn settings_refusal(
    alloc: Global,
    folder: &str,
    level: Option<u64>,
    settings: &Settings<'_>,
    name: FaultName,
) -> Option<RefusalText> {
    let (wrong, remedy) = match name {
        FaultName::Level | FaultName::NoInput => level_text(alloc, level?, name)?,
        FaultName::Workers => outside(alloc, "--workers", settings.workers, MAX_WORKERS)?,
        FaultName::SplitCount => outside(alloc, "--ranges", settings.ranges, MAX_RANGES)?,
        FaultName::Options => options_text(alloc, settings)?,
        FaultName::Snapshot => snapshot_text(alloc, settings.snapshots)?,
        FaultName::SnapshotList => list_text(alloc, settings.snapshots)?,
        _ => return None,
    };
    RefusalText::new(alloc, folder, wrong, remedy)
}

/// What is told of a level that can't be compacted, or that has no file.
fn level_text(alloc: Global, level: u64, name: FaultName) -> Option<Text> {
    if name == FaultName::Level {
        let wrong = format!(in alloc; "level {level} cannot be compacted");
        return Some((wrong, "give a level from 0 to 5"));
    }
    let wrong = format!(in alloc; "there is nothing to compact at level {level}: it has no file");
    Some((wrong, "manifest shows which levels have files"))
}

/// What is told of an option that is outside its limits, 1 and `most`. None if it is within.
fn outside(alloc: Global, option: &str, value: u64, most: u64) -> Option<Text> {
    if (1..=most).contains(&value) {
        return None;
    }
    let wrong = format!(in alloc; "{option} {value} is outside 1 to {most}");
    Some((wrong, "give a number within these limits"))
}

/// What is told of the option of the outputs that is outside its limits. None if none is.
fn options_text(alloc: Global, settings: &Settings<'_>) -> Option<Text> {
    let (block, file) = (settings.options.block_size, settings.options.file_size);
    let file = outside(alloc, "--file-size", file, MAX_TABLE_LEN as u64);
    outside(alloc, "--block-size", block, MAX_BLOCK_SIZE).or(file)
}

/// What is told of a snapshot that is 2^56 - 1 or more. None if there is none.
fn snapshot_text(alloc: Global, snapshots: Snapshots<'_>) -> Option<Text> {
    let (option, sequence) = match snapshots {
        Snapshots::From(sequence) => ("--snapshot", sequence),
        Snapshots::Listed(list) => {
            let beyond = list.iter().find(|sequence| **sequence >= MAX_SEQUENCE);
            ("--snapshots", *beyond?)
        }
    };
    if sequence < MAX_SEQUENCE {
        return None;
    }
    let wrong = format!(in alloc;
        "{option} has {sequence}, and snapshots are below {MAX_SEQUENCE}"
    );
    Some((wrong, "give an earlier sequence"))
}

/// What is told of a list of snapshots that is too long, doesn't rise, or has one above the last
/// sequence: then the greatest.
fn list_text(alloc: Global, snapshots: Snapshots<'_>) -> Option<Text> {
    let Snapshots::Listed(list) = snapshots else {
        return None;
    };
    let count = list.len();
    if count > MAX_SNAPSHOTS {
        let wrong = format!(in alloc; "--snapshots has {count} sequences");
        return Some((wrong, "give at most 4096"));
    }
    if let Some((before, after)) = first_fall(list) {
        let wrong = format!(in alloc; "--snapshots does not rise: {after} comes after {before}");
        return Some((wrong, "give rising sequences"));
    }
    let greatest = list.last()?;
    let wrong = format!(in alloc; "--snapshots has {greatest}, which is above the last sequence");
    Some((wrong, "leave it out"))
}

/// The first two neighbours of a list that don't rise.
fn first_fall(list: &[u64]) -> Option<(u64, u64)> {
    for place in 1..list.len() {
        if list[place] <= list[place - 1] {
            return Some((list[place - 1], list[place]));
        }
    }
    None
}
