//! Tables of folders, as their readers give them.

use crate::folder_disk_tests::{makes, new_path};
use crate::known_versions::Files;
use disk::{Disk, SystemFiles, WholeFiles};
use folder::*;
use shelf::Shelf;
use std::alloc::Global;
use std::fs;
use std::process::Abort;

/// The number of a table that is read, and its bytes; None if they can't be had.
type Read = (u64, Option<&'static [u8]>);

/// Tables that are read in one folder.
#[derive(Clone, Copy, Drop)]
struct Trial {
    files: Files,
    reads: &'static [Read],
}

const TRIALS: &[Trial] = &[
    // The newer name counts, and the older one if no file has the newer.
    Trial {
        files: &[
            ("000008.ldb", b"eight"),
            ("000005.sst", b"five, older"),
            ("000005.ldb", b"five"),
            ("000003.sst", b"three"),
            ("1234567.ldb", b"a longer name"),
            ("000009.ldb", b""),
        ],
        reads: &[
            (8, Some(b"eight")),
            (5, Some(b"five")),
            (3, Some(b"three")),
            (1_234_567, Some(b"a longer name")),
            (9, Some(b"")),
            (4, None),
            (8, Some(b"eight")),
        ],
    },
    // A folder has the newer name: the older one isn't asked for.
    Trial {
        files: &[("000006.sst", b"six, older"), ("000007.ldb", b"seven")],
        reads: &[(6, None), (7, Some(b"seven"))],
    },
    Trial {
        files: &[],
        reads: &[(0, None)],
    },
];

/// Whether a reader gives these tables.
fn gives<D: TableReader>(alloc: Global, reader: &D, reads: &[Read]) -> bool {
    for (number, wanted) in reads {
        let is_read = match reader.table(alloc, *number) {
            Some(bytes) => *wanted == Some(bytes.as_slice()),
            None => wanted.is_none(),
        };
        if !is_read {
            return false;
        }
    }
    true
}

/// Whether that holds in a folder that is made for it and then removed. A folder of the name
/// 000006.ldb is in it.
fn is_right_in<R: SystemFiles + WholeFiles + AllocGlobal>(
    rt: &R,
    (path, inner): (&str, &str),
    trial: &Trial,
) -> bool {
    let mut disk = Disk::new(rt, path);
    fs::create_dir(rt, path).is_ok()
        && fs::create_dir(rt, inner).is_ok()
        && makes(&mut disk, trial.files)
        && gives(rt.alloc(), &disk.reader(), trial.reads)
        && disk.failures() == 0
        && fs::remove_dir_all(rt, path).is_ok()
}

#[test]
fn tables_are_read(rt: HostRuntime) {
    let path = new_path(&rt, "reader").expect(&rt, "a path");
    let inner = new_path(&rt, "reader/000006.ldb").expect(&rt, "a path");
    for (place, trial) in TRIALS.iter().enumerate() {
        let paths = (path.as_str(), inner.as_str());
        assert!(rt; is_right_in(&rt, paths, trial), "{place}");
    }
}

/// Of folders that aren't there nothing is read, and neither is of one in memory, which has no
/// reader.
#[test]
fn nothing_is_read(rt: HostRuntime) {
    let alloc = rt.alloc();
    let none = &[(8, None)];
    assert!(rt; gives(alloc, &Disk::new(&rt, "").reader(), none));
    assert!(rt; gives(alloc, &Disk::new(&rt, "/nowhere/at/all").reader(), none));
    let shelf = Shelf::new(alloc, &[("000008.ldb", b"eight")]);
    assert!(rt; gives(alloc, &shelf.reader(), none));
}
