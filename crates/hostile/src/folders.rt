//! Folders in memory, asked by calls that no command of the program makes, loaded and written.

use crate::case::are_outputs;
use crate::embedding::store::{FILES as STORED_FILES, LOWER, NEWER, OLDER};
use crate::fault::{is_memory, wanted};
use crate::worked_bytes::{CURRENT_FIVE, DELETION_LEFT, MANIFEST, TABLE_U_DELETED, TABLE_U_TWICE};
use answers::{ValueForm, get_dir, manifest, verify};
use board::{Open, Workers};
use coding::Fault;
use edit::{Outcome, Version, VersionEdit};
use folder::{load, open};
use ikey::Bytewise;
use install::install;
use shelf::Shelf;
use std::alloc::Global;
use std::thread::Threads;
use texts::Spelling;

/// A folder of one table: `u` deleted at 4 and put `x` at 2.
const FILES: &[(&str, &[u8])] = &[
    ("CURRENT", CURRENT_FIVE),
    ("MANIFEST-000005", MANIFEST),
    ("000007.ldb", TABLE_U_TWICE),
];

/// How many bytes of tables are held while a version is tested.
const MEMORY: u64 = 1_073_741_824;

/// How many workers test it.
const WORKERS: u64 = 4;

/// The lines of the folder's version.
const SHOWN: &[u8] =
    b"comparator leveldb.BytewiseComparator\nlog 3\nprevious 0\nnext 9\nlast 4\nfile 1 7 125\n";

/// The line of its test.
const LAWFUL: &[u8] = b"lawful: 1 files, 2 entries\n";

/// Whether the folder's version is shown.
fn is_shown<R: AllocGlobal>(rt: &R, shelf: &mut Shelf<'_>) -> Result<bool, Fault> {
    let lines = manifest(rt.alloc(), Spelling::Hexadecimal, shelf)?;
    Ok(lines.as_slice() == SHOWN)
}

fn is_lawful<R: AllocGlobal + Threads + Sync>(
    rt: &R,
    shelf: &mut Shelf<'_>,
) -> Result<bool, Fault> {
    let workers = Workers::new(rt, rt.alloc(), WORKERS, &Open)?;
    let lines = verify(&workers, shelf, MEMORY)?;
    Ok(lines.as_slice() == LAWFUL)
}

/// Whether this is the line of the value that `u` has at a sequence, the last one if none is given.
fn is_got<R: AllocGlobal + Threads + Sync>(
    rt: &R,
    shelf: &mut Shelf<'_>,
    at: Option<u64>,
    line: &[u8],
) -> Result<bool, Fault> {
    let form = ValueForm::Line(Spelling::Hexadecimal);
    let workers = Workers::new(rt, rt.alloc(), WORKERS, &Open)?;
    match get_dir(&workers, shelf, b"u", at, form, MEMORY)? {
        Some(found) => Ok(found.as_slice() == line),
        None => Ok(false),
    }
}

/// The folder, asked for its version, whether that is lawful, and for values of a key.
pub fn folder_asked<R: AllocGlobal + Threads + Sync>(rt: &R) -> Result<bool, Fault> {
    let mut shelf = Shelf::new(rt.alloc(), FILES);
    Ok(
        is_shown(rt, &mut shelf)?
            && is_lawful(rt, &mut shelf)?
            && is_got(rt, &mut shelf, Some(3), b"78\n")?
            && is_got(rt, &mut shelf, None, b"none\n")?,
    )
}

/// The tables of the store of `docs/EMBEDDING.md`, one under its older name.
const STORED: &[(&str, &[u8])] = &[
    ("000005.ldb", LOWER),
    ("000006.sst", OLDER),
    ("000007.ldb", NEWER),
];

/// Whether the tables of its version are loaded. Nothing may be written, whatever the answer is.
pub fn are_loaded(alloc: Global) -> Result<bool, Fault> {
    let edit = VersionEdit::decode(alloc, STORED_FILES)?;
    let version = Version::empty(alloc).applied::<Bytewise>(edit)?;
    let mut shelf = Shelf::new(alloc, STORED);
    let answer = load::<Bytewise, Shelf<'_>>(alloc, &mut shelf, &version);
    wanted(shelf.steps().is_empty())?;
    Ok(are_outputs(&answer?, &[(7, NEWER), (6, OLDER), (5, LOWER)]))
}

/// Whether the folder is opened as a version of this one table.
fn has_table(alloc: Global, shelf: &mut Shelf<'_>, table: (u64, &[u8])) -> Result<bool, Fault> {
    let opened = open(alloc, shelf)?;
    let tables = load::<Bytewise, Shelf<'_>>(alloc, shelf, &opened.version)?;
    Ok(are_outputs(&tables, &[table]))
}

/// Opens the folder, and installs the compaction that keeps the deletion, by manifest 8.
fn install_kept<R: AllocGlobal + Threads + Sync>(
    rt: &R,
    shelf: &mut Shelf<'_>,
) -> Result<(), Fault> {
    let alloc = rt.alloc();
    let opened = open(alloc, shelf)?;
    let mut tables = Vec::new(alloc);
    tables.push((9, Vec::from_slice(alloc, TABLE_U_DELETED)?))?;
    let edit = Vec::from_slice(alloc, DELETION_LEFT)?;
    let outcome = Outcome { tables, edit };
    install::<Bytewise, Shelf<'_>, R>(rt, alloc, shelf, 5, &opened.version, 8, &outcome)
}

/// Whether it is installed. If memory was refused, the folder has the version before, over which it
/// is installed again, or the edited one.
pub fn is_installed<R: AllocGlobal + Threads + Sync>(rt: &R) -> Result<bool, Fault> {
    let alloc = rt.alloc();
    let mut shelf = Shelf::new(alloc, FILES);
    let answer = install_kept(rt, &mut shelf);
    if !is_memory(&answer) {
        answer?;
    } else if has_table(alloc, &mut shelf, (7, TABLE_U_TWICE))? {
        install_kept(rt, &mut shelf)?;
    }
    has_table(alloc, &mut shelf, (9, TABLE_U_DELETED))
}
