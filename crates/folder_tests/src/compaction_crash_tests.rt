//! Crashes of a whole compaction, in a folder of which nothing was synced before. And of the next
//! one, if the last sync of the first failed.

use crate::acts::compact_dir;
use crate::crashes::{device_fails, found, wrong_moment};
use crate::known_versions::{A, Files};
use coding::Fault;
use folder::{Folder, FolderFault};
use shelf::{Shelf, ShelfStep};
use std::alloc::Global;
use std::process::Abort;
use std::test::*;
use std::thread::Threads;

/// `log: comparator leveldb.BytewiseComparator, log 3, previous 0, next 9, last 4, file 1 7 114 a@1
/// put .. a@1 put`
const MANIFEST: &[u8] = b"\
    \x21V\x25H\x3c\0\x01\x01\x1aleveldb.BytewiseComparator\x02\x03\x09\0\x03\x09\x04\x04\x07\x01\
    \x07r\x09a\x01\x01\0\0\0\0\0\0\x09a\x01\x01\0\0\0\0\0\0";

/// The files of the folder. File 7 has its older name.
pub(crate) const FILES: Files = &[
    ("CURRENT", b"MANIFEST-000005\n"),
    ("MANIFEST-000005", MANIFEST),
    ("000007.sst", A),
];

/// The next files of its version, of the edited one, whose file 10 is at level 2, and of the
/// successor, whose file 12 is at level 3.
const VERSIONS: &[u64] = &[9, 11, 13];

/// How many calls that write come before the first sync of the folder, if its files are made first.
/// Three make them, and four sync them.
const UNSYNCED: usize = 7;

/// The calls of a compaction.
const CALLS: u64 = 19;

/// The calls before the first sync of the folder, the newest first.
fn unsynced(steps: &[ShelfStep]) -> &[ShelfStep] {
    let (_later, made) = steps.split_at(steps.len().saturating_sub(UNSYNCED));
    made
}

/// Compacts a level of the folder.
fn compact<R: Threads + Sync>(
    rt: &R,
    alloc: Global,
    shelf: &mut Shelf<'_>,
    level: u64,
) -> Result<(), Fault> {
    compact_dir(rt, alloc, shelf, level)?;
    Ok(())
}

#[test]
fn crashes_of_a_folder_that_was_not_synced(rt: HostRuntime) {
    let mut shelf = Shelf::new(rt.alloc(), &[]);
    for (name, bytes) in FILES {
        assert_eq!(rt; shelf.create(name, bytes), Ok(()));
    }
    assert_eq!(rt; compact(&rt, rt.alloc(), &mut shelf, 1), Ok(()));
    let unsynced = unsynced(shelf.steps());
    assert_eq!(rt;
        found(rt.alloc(), &[], unsynced, (VERSIONS[0], VERSIONS[1])),
        None,
        "nothing is kept yet"
    );
    let from = 2 * UNSYNCED + 2;
    assert_eq!(rt;
        wrong_moment(rt.alloc(), &[], shelf.steps(), from, VERSIONS),
        None
    );
}

#[test]
fn crashes_after_a_last_sync_that_failed(rt: HostRuntime) {
    let mut shelf = Shelf::new(rt.alloc(), FILES).failing(device_fails(CALLS, false));
    assert_eq!(rt;
        compact(&rt, rt.alloc(), &mut shelf, 1),
        Err(Fault::from(FolderFault::Device))
    );
    assert_eq!(rt; compact(&rt, rt.alloc(), &mut shelf, 2), Ok(()));
    assert_eq!(rt;
        wrong_moment(rt.alloc(), FILES, shelf.steps(), 0, VERSIONS),
        None
    );
}
