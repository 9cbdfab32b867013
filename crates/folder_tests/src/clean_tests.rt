//! The removal of files that a version doesn't need.

use crate::crashes::make_left;
use crate::install_rows::{BEFORE, MANIFEST};
use crate::known_versions::read_as;
use coding::Fault;
use folder::{FolderFault, Opened, open};
use install::{RemovalWatch, is_obsolete_file, pending_current, remove_obsolete};
use shelf::{Failing, Shelf, ShelfStep};
use std::alloc::Global;
use std::process::Abort;
use store::sync_version;

/// The files of a version whose next file is 8, and others beside them. These are an old table, a
/// table under its other name, an old manifest, a temporary file, a table from next file on, a
/// newer manifest and a log.
const FILES: &[(&str, &[u8])] = &[
    ("CURRENT", b"MANIFEST-000005\n"),
    ("MANIFEST-000005", MANIFEST),
    ("000006.sst", b"six"),
    ("000007.ldb", b"seven"),
    ("000002.ldb", b"two"),
    ("000007.sst", b"seven, older"),
    ("MANIFEST-000004", b"four"),
    ("000005.dbtmp", b"MANIFEST-000005\n"),
    ("000008.ldb", b"of another copy"),
    ("MANIFEST-000006", b"newer"),
    ("000003.log", b"writes"),
];

/// Those that the version doesn't need.
const OBSOLETE: &[&str] = &["000002.ldb", "MANIFEST-000004", "000005.dbtmp"];

/// The calls that open the folder and sync its version: two that read, and CURRENT, the manifest,
/// two names of two tables, and the folder.
const SYNCED: u64 = 9;

/// Those that write.
const SYNCS: usize = 7;

/// The calls that remove files.
const REMOVALS: u64 = 3;

/// Names, and whether that version doesn't need their files.
const NAMES: &[(&str, bool)] = &[
    ("000005.ldb", true),
    ("000005.sst", true),
    ("000007.ldb", false),
    ("000007.sst", false),
    ("000008.ldb", false),
    ("MANIFEST-000004", true),
    ("MANIFEST-000005", false),
    ("MANIFEST-000006", false),
    ("000005.dbtmp", true),
    ("000007.dbtmp", false),
    ("CURRENT", false),
    ("LOCK", false),
    ("000003.log", false),
    // Not as they are written.
    ("5.ldb", false),
    ("lost/000005.ldb", false),
];

/// Whether a name is told to be obsolete or not.
fn is_told(alloc: Global, opened: &Opened, name: &str, wanted: bool) -> bool {
    is_obsolete_file(alloc, opened, name) == Ok(wanted)
}

#[test]
fn obsolete_names(rt: HostRuntime) {
    let mut shelf = Shelf::new(rt.alloc(), FILES);
    let opened = open(rt.alloc(), &mut shelf).expect(&rt, "an open folder");
    for (name, wanted) in NAMES {
        assert!(rt; is_told(rt.alloc(), &opened, name, *wanted), "{name}");
    }
}

/// Names, and whether each is that of a CURRENT that isn't renamed yet.
const PENDING: &[(&str, bool)] = &[
    ("CURRENT.37", true),
    ("CURRENT.0", true),
    ("CURRENT.18446744073709551616", true),
    ("CURRENT", false),
    ("CURRENT.", false),
    ("CURRENT.bak", false),
    ("CURRENT.37.bak", false),
    ("CURRENT.-1", false),
    ("CURRENT.3 ", false),
    ("CURRENT37", false),
    ("current.37", false),
    ("OLD-CURRENT.37", false),
];

/// Whether such a name is found behind that of a table, or is not.
fn is_found(alloc: Global, name: &str, wanted: bool) -> Result<bool, Fault> {
    let names = names_of(alloc, &[("000007.ldb", b""), (name, b"")])?;
    Ok(match pending_current(&names) {
        Some(found) => wanted && found == name,
        None => !wanted,
    })
}

#[test]
fn pending_names(rt: HostRuntime) -> Result<(), Fault> {
    for (name, wanted) in PENDING {
        assert!(rt; is_found(rt.alloc(), name, *wanted)?, "{name}");
    }
    Ok(())
}

/// What was told of removed files: how many, and whether they are the obsolete ones in order.
#[derive(Drop)]
struct Told {
    count: usize,
    is_right: bool,
}

impl RemovalWatch for Told {
    fn removed(&mut self, name: &str) {
        self.is_right = self.is_right
            && match OBSOLETE.get(self.count) {
                Some(wanted) => *wanted == name,
                None => false,
            };
        self.count = self.count.saturating_add(1);
    }
}

/// The names of files.
fn names_of(alloc: Global, files: &[(&str, &[u8])]) -> Result<Vec<String>, Fault> {
    let mut names = Vec::new(alloc);
    for (name, _) in files {
        names.push(String::from_str(alloc, name)?)?;
    }
    Ok(names)
}

/// Opens a folder, syncs its version and removes the obsolete ones of these files.
fn clean(
    alloc: Global,
    shelf: &mut Shelf<'_>,
    files: &[(&str, &[u8])],
    told: &mut Told,
) -> Result<(), Fault> {
    let opened = open(alloc, shelf)?;
    let opened = sync_version(alloc, shelf, opened)?.into_opened();
    let names = names_of(alloc, files)?;
    remove_obsolete(alloc, shelf, &opened, &names, told)
}

/// Whether a name is that of an obsolete file.
fn is_among_obsolete(name: &str) -> bool {
    for obsolete in OBSOLETE {
        if *obsolete == name {
            return true;
        }
    }
    false
}

/// Whether a folder has all its files but the obsolete ones.
fn is_clean(shelf: &Shelf<'_>) -> bool {
    for (name, bytes) in FILES {
        let wanted = if is_among_obsolete(name) {
            None
        } else {
            Some(*bytes)
        };
        if shelf.file(name) != wanted {
            return false;
        }
    }
    true
}

/// Nothing was told yet.
fn nothing_told() -> Told {
    Told {
        count: 0,
        is_right: true,
    }
}

/// Whether the obsolete files are removed and told, and all others stay.
fn is_cleaned(alloc: Global, shelf: &mut Shelf<'_>) -> bool {
    let mut told = nothing_told();
    clean(alloc, shelf, FILES, &mut told) == Ok(())
        && told.is_right
        && told.count == OBSOLETE.len()
        && is_clean(shelf)
        && shelf.calls() == SYNCED + REMOVALS + 1
        && read_as(alloc, shelf) == BEFORE
}

/// Whether a folder is left alone if none of the names is obsolete.
fn is_left_alone(alloc: Global) -> bool {
    let mut told = nothing_told();
    let mut shelf = Shelf::new(alloc, FILES);
    let (needed, _) = FILES.split_at(4);
    clean(alloc, &mut shelf, needed, &mut told) == Ok(())
        && told.count == 0
        && shelf.calls() == SYNCED
}

/// Whether a crash after these calls leaves the version, and no obsolete file if `is_last`. None if
/// there is no such choice.
fn is_left(alloc: Global, steps: &[ShelfStep], choice: u64, is_last: bool) -> Option<bool> {
    let mut shelf = Shelf::new(alloc, FILES);
    match make_left(&mut shelf, steps, choice) {
        Ok(true) => Some((!is_last || is_clean(&shelf)) && read_as(alloc, &mut shelf) == BEFORE),
        Ok(false) => None,
        Err(_) => Some(false),
    }
}

/// Whether each crash after these calls leaves that.
fn are_left(alloc: Global, steps: &[ShelfStep], is_last: bool) -> bool {
    for choice in 0..u64::MAX {
        match is_left(alloc, steps, choice, is_last) {
            Some(true) => {}
            Some(false) => return false,
            None => return true,
        }
    }
    false
}

#[test]
fn obsolete_files(rt: HostRuntime) {
    let mut shelf = Shelf::new(rt.alloc(), FILES);
    assert!(rt; is_cleaned(rt.alloc(), &mut shelf));
    assert_eq!(rt; shelf.steps().len(), SYNCS + 4);
    assert!(rt; are_left(rt.alloc(), shelf.steps(), true));
    assert!(rt; is_left_alone(rt.alloc()));
}

/// Whether a removal ends at a call that fails, with that fault. Those before it were told, and the
/// folder reads as its version; so does what a crash leaves.
fn ends_there(alloc: Global, failing: Failing) -> bool {
    let mut told = nothing_told();
    let mut shelf = Shelf::new(alloc, FILES).failing(failing);
    clean(alloc, &mut shelf, FILES, &mut told) == Err(Fault::from(failing.fault))
        && shelf.calls() == failing.call
        && told.is_right
        && told.count as u64 == failing.call.saturating_sub(SYNCED + 1)
        && are_left(alloc, shelf.steps(), false)
        && read_as(alloc, &mut shelf) == BEFORE
}

#[test]
fn removals_that_fail(rt: HostRuntime) {
    for way in 0..(REMOVALS + 1) * 4 {
        let failing = Failing {
            call: SYNCED + 1 + way / 4,
            fault: if way % 2 == 0 {
                FolderFault::Device
            } else {
                FolderFault::Memory
            },
            is_half_done: way % 4 > 1,
        };
        assert!(rt; ends_there(rt.alloc(), failing), "{way}");
    }
}
