//! How a store makes one compaction by the call `compact`.
//!
//! The store has two tables at level 0 and one at level 1, and the edit that made its version. It
//! compacts level 0 by one worker, and once more by four workers over two ranges. Both answer the
//! same bytes. Then it applies the edit. `docs/EMBEDDING.md` explains the steps.
pub mod store;

use crate::embedding::store::{FILES, TABLES};
use anyhow::{Result, ensure};
use board::Open;
use coding::Fault;
use compact::{Request, compact};
use edit::{LEVELS, Outcome, Version, VersionEdit};
use ikey::Bytewise;
use keep::Snapshots;
use pick::inputs;
use split::Split;
use std::alloc::Global;
use std::thread::Threads;
use table::Options;

/// Only the last sequence and later ones stay readable.
const LAST_ALONE: Snapshots<'static> = Snapshots::Listed(&[]);

/// A version, after the edit of these bytes.
fn edited(alloc: Global, version: Version, bytes: &[u8]) -> Result<Version, Fault> {
    let edit = VersionEdit::decode(alloc, bytes)?;
    version.applied::<Bytewise>(edit)
}

/// All user keys as one range, or as those before and those from `boundary` on.
fn split_at(alloc: Global, boundary: Option<&[u8]>) -> Result<Split<Bytewise>, Fault> {
    let mut keys = Vec::new(alloc);
    if let Some(key) = boundary {
        keys.push(Vec::from_slice(alloc, key)?)?;
    }
    Split::from_keys(keys)
}

/// The compaction of level 0 of this version, whose inputs have the tables `TABLES`.
fn compacted<R: Threads + Sync>(
    rt: &R,
    alloc: Global,
    version: &Version,
    split: &Split<Bytewise>,
    workers: u64,
) -> Result<Outcome, Fault> {
    let picked = inputs::<Bytewise>(alloc, version, 0)?;
    let request = Request {
        picked: &picked,
        tables: TABLES,
        snapshots: LAST_ALONE,
        first_number: version.next_file().unwrap_or(0),
        log_number: version.log_number().unwrap_or(0),
        previous_log: version.previous_log().unwrap_or(0),
        last_sequence: version.last_sequence().unwrap_or(0),
        options: Options::default(),
    };
    compact(rt, alloc, &request, split, workers, &Open)
}

/// Whether two outcomes are the same tables and the same edit.
fn are_same(one: &Outcome, other: &Outcome) -> bool {
    let mut same = one.edit.as_slice() == other.edit.as_slice()
        && one.tables.len() == other.tables.len();
    for (place, table) in one.tables.iter().enumerate() {
        same = same
            && match other.tables.get(place) {
                Some(twin) => table.0 == twin.0 && table.1.as_slice() == twin.1.as_slice(),
                None => false,
            };
    }
    same
}

/// Compacts level 0 twice, and answers the outcome and whether it was the same.
fn compacted_twice<R: Threads + Sync>(
    rt: &R,
    alloc: Global,
    version: &Version,
) -> Result<(Outcome, bool), Fault> {
    let whole = split_at(alloc, None)?;
    let halves = split_at(alloc, Some(b"c"))?;
    let once = compacted(rt, alloc, version, &whole, 1)?;
    let again = compacted(rt, alloc, version, &halves, 4)?;
    let same = are_same(&once, &again);
    Ok((once, same))
}

/// Prints the outputs and the length of the edit.
fn print_outcome<R: Print>(rt: &R, outcome: &Outcome) -> Result<()> {
    for (number, table) in &outcome.tables {
        println!(rt; "output {number} of {} bytes", table.len())?;
    }
    println!(rt; "an edit of {} bytes", outcome.edit.len())?;
    Ok(())
}

/// Prints the files of a version.
fn print_files<R: AllocGlobal + Print>(rt: &R, version: &Version) -> Result<()> {
    for level in 0..LEVELS {
        for file in version.files::<Bytewise>(rt.alloc(), level)? {
            println!(rt; "file {} at level {level}", file.number)?;
        }
    }
    Ok(())
}

/// Makes the compaction, and prints what it makes, and the files of the version before and after.
pub fn embed<R: AllocGlobal + Print + Threads + Sync>(rt: &R) -> Result<()> {
    let alloc = rt.alloc();
    let version = edited(alloc, Version::empty(alloc), FILES)?;
    print_files(rt, &version)?;
    let (outcome, same) = compacted_twice(rt, alloc, &version)?;
    ensure!(same, "the second answer is another one");
    print_outcome(rt, &outcome)?;
    print_files(rt, &edited(alloc, version, &outcome.edit)?)
}
