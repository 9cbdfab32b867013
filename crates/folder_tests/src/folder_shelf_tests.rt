//! The names in a folder, and a folder in memory that is written to.

use crate::crashes::device_fails;
use coding::{Fault, FaultName};
use folder::*;
use shelf::{Shelf, ShelfStep};
use std::alloc::Global;
use std::process::Abort;

/// Texts of CURRENT, and the numbers of the manifests that they name; None if a text is not a
/// manifest's name and one newline.
const NAMES: &[(&str, Option<u64>)] = &[
    ("MANIFEST-000009\n", Some(9)),
    ("MANIFEST-18446744073709551615\n", Some(u64::MAX)),
    ("MANIFEST-000009", None),
    ("MANIFEST-9\n", None),
    ("../MANIFEST-000009\n", None),
];

/// Whether CURRENT with this text names this manifest, or is refused as Apply.
fn is_named(alloc: Global, text: &str, wanted: Option<u64>) -> bool {
    match number_in_current(alloc, text.as_bytes()) {
        Ok(number) => wanted == Some(number),
        Err(fault) => fault.name == FaultName::Apply && wanted.is_none(),
    }
}

fn is_name(name: Result<String, Fault>, wanted: &str) -> bool {
    match name {
        Ok(name) => name.as_str() == wanted,
        Err(_) => false,
    }
}

#[test]
fn names_of_files(rt: HostRuntime) {
    let alloc = rt.alloc();
    assert!(rt;
        is_name(manifest_name(alloc, 9), "MANIFEST-000009")
            && is_name(current_text(alloc, 9), "MANIFEST-000009\n")
            && is_name(table_name(alloc, 9), "000009.ldb")
            && is_name(old_table_name(alloc, 1_234_567), "1234567.sst")
            && is_name(temporary_name(alloc, 9), "000009.dbtmp")
    );
    for (text, number) in NAMES {
        assert!(rt; is_named(alloc, text, *number), "{text}");
    }
}

/// Files of a folder in memory. The first of a name counts.
const FILES: &[(&str, &[u8])] = &[("1", b"one"), ("2", b"two"), ("1", b"another")];

/// Whether a folder in memory has these bytes under the names 1, 2 and 3.
fn holds(shelf: &Shelf<'_>, wanted: [Option<&[u8]>; 3]) -> bool {
    shelf.file("1") == wanted[0] && shelf.file("2") == wanted[1] && shelf.file("3") == wanted[2]
}

/// Whether four calls are done: a new file takes the name of another one; renaming a missing file
/// removes the file of the new name; a file may be empty.
fn are_done(shelf: &mut Shelf<'_>) -> bool {
    shelf.create("3", b"three").is_ok()
        && shelf.rename("3", "1").is_ok()
        && shelf.rename("3", "2").is_ok()
        && shelf.create("3", b"").is_ok()
}

/// Whether the fifth call fails, and those after it are done.
fn fifth_fails(shelf: &mut Shelf<'_>) -> bool {
    shelf.create("2", b"four") == Err(FolderFault::Device)
        && shelf.sync("1").is_ok()
        && shelf.sync_folder().is_ok()
        && shelf.calls() == 7
        && shelf.failures() == 1
}

/// Whether the fifth of seven calls was not done, and whether it shows.
fn is_fifth(steps: &[ShelfStep], is_shown: bool) -> bool {
    match steps.get(2) {
        Some(step) => steps.len() == 7 && !step.is_done && step.is_shown == is_shown,
        None => false,
    }
}

/// Whether a folder in memory has what was written to it, and under the name 2 what is left of its
/// fifth call, which fails.
fn is_written(alloc: Global, is_half_done: bool, half: Option<&[u8]>) -> bool {
    let mut shelf = Shelf::new(alloc, FILES).failing(device_fails(5, is_half_done));
    holds(&shelf, [Some(b"one"), Some(b"two"), None])
        && are_done(&mut shelf)
        && fifth_fails(&mut shelf)
        && holds(&shelf, [Some(b"three"), half, Some(b"")])
        && is_fifth(shelf.steps(), is_half_done)
}

#[test]
fn a_shelf_holds_what_was_written(rt: HostRuntime) {
    assert!(rt; is_written(rt.alloc(), false, None));
    assert!(rt; is_written(rt.alloc(), true, Some(b"fo")));
    let folder = Shelf::new(rt.alloc(), FILES);
    folder_laws(&folder);
    reading_laws(&folder);
    crash_laws();
}

/// Parts of the file "one", by offset and length, and their bytes.
const PARTS: &[(u64, usize, &[u8])] = &[
    (0, 0, b""),
    (0, 2, b"on"),
    (1, 2, b"ne"),
    (1, 9, b"ne"),
    (3, 1, b""),
    (u64::MAX, 1, b""),
];

/// Whether a folder gives these parts of a file of this `name`, and none of a missing file.
pub(crate) fn gives_parts(folder: &mut impl Folder, name: &str) -> bool {
    for (offset, len, wanted) in PARTS {
        match folder.read_part(name, *offset, *len) {
            Ok(Some(bytes)) if bytes.as_slice() == *wanted => {}
            _ => return false,
        }
    }
    matches!(folder.read_part("missing", 0, 1), Ok(None))
}

#[test]
fn parts_of_a_file(rt: HostRuntime) {
    assert!(rt; gives_parts(&mut Shelf::new(rt.alloc(), FILES), "1"));
    assert!(rt; part_of(b"abcdef", 4, 9) == b"ef".as_slice());
}
