//! Whether a choice of inputs is closed in the host's version.

ghost use Rattle.std.specs.Prelude.{◌≡◌, true, map, Ok, IfOk};
ghost use Rattle.ikey.specs.Answers.{EqualOrMemory};
ghost use Rattle.edit.specs.Edit.{HasValidLevels, edit_in};
ghost use Rattle.c_api.specs.Closed.{adding as adding_files, are_files as are_levelled};
ghost use Rattle.c_api.specs.Closed.{closed_answer, closed_reading};
ghost use Rattle.c_api.specs.Closed.{is_file as is_levelled, new_file as added_file};
ghost use Rattle.c_api.specs.Closed.{IsClosedAnswerOrMemory};
ghost use Rattle.c_api.specs.Orders.{by_order};

use crate::code::{DONE, MISUSE, OPEN_INPUTS, code_of};
use crate::file::{File, has_keys, meta_at};
use crate::order::{BYTEWISE, SHORTLEX};
use edit::{Fault, FaultName, LAST_LEVEL, NewFile, Version, VersionEdit};
use ikey::{Bytewise, Comparator, Shortlex};
use pick::{InputFile, first_missing};
use std::alloc::Global;
use std::collections::BTreeSet;

/// A file, by level and number.
#[repr(C)]
#[derive(Clone, Copy, Drop)]
pub struct FilePlace {
    /// From 0 to 6.
    pub level: u64,
    /// The number in the table's name.
    pub number: u64,
}

/// Asks whether a compaction of `level` may take the files of these numbers, at `level` and the
/// next one, and no others. `files` are all files of the host's version.
///
/// If not, the answer is `OPEN_INPUTS`, and `missing` is the first file that has to be taken, too.
#[unsafe(no_mangle)]
pub extern "C" fn proved_check_closed(
    alloc: Global,
    order: u32,
    level: u64,
    keys: &[u8],
    files: &[File],
    numbers: &[u64],
    missing: &mut FilePlace,
) -> u32
    ensures answer { IsClosedAnswerOrMemory result missing.old missing.new
        (closed_answer order level keys.now files.now numbers.now) }
{
    if !are_files(keys, files) {
        return MISUSE;
    }
    match missing_by(alloc, order, level, keys, files, numbers) {
        Ok(None) => DONE,
        Ok(Some(file)) => {
            *missing = FilePlace {
                level: file.level,
                number: file.meta.number,
            };
            OPEN_INPUTS
        }
        Err(fault) => code_of(fault),
    }
}

/// Whether each file has internal keys and a level from 0 to 6.
pub(crate) fn are_files(keys: &[u8], files: &[File]) -> bool
    ensures { result ≡ are_levelled keys.now files.now }
{
    files
        .iter()
        .all(|file| has_keys(keys, file) && file.level <= LAST_LEVEL)
}

/// The file that is missing, in the order of this number.
fn missing_by(
    alloc: Global,
    order: u32,
    level: u64,
    keys: &[u8],
    files: &[File],
    numbers: &[u64],
) -> Result<Option<InputFile>, Fault>
    requires { are_levelled keys.now files.now ≡ true }
    ensures { EqualOrMemory (λ file. file) result
        (by_order order (closed_reading level keys.now files.now numbers.now)) }
{
    match order {
        BYTEWISE => missing_in::<Bytewise>(alloc, level, keys, files, numbers),
        SHORTLEX => missing_in::<Shortlex>(alloc, level, keys, files, numbers),
        _ => Err(Fault::of(FaultName::Comparator)),
    }
}

/// The file that is missing.
fn missing_in<C: Comparator>(
    alloc: Global,
    level: u64,
    keys: &[u8],
    files: &[File],
    numbers: &[u64],
) -> Result<Option<InputFile>, Fault>
    requires { are_levelled keys.now files.now ≡ true }
    ensures { EqualOrMemory (λ file. file) result
        (closed_reading level keys.now files.now numbers.now C.cmp) }
{
    let edit = adding(alloc, keys, files)?;
    let version = Version::empty(alloc).applied::<C>(edit)?;
    first_missing::<C>(alloc, &version, level, numbers)
}

/// The edit that adds the files.
fn adding(alloc: Global, keys: &[u8], files: &[File]) -> Result<VersionEdit, Fault>
    requires { are_levelled keys.now files.now ≡ true }
    ensures edit { EqualOrMemory edit_in result
        (Ok (adding_files (map (added_file keys.now) files.now))) }
    ensures levels { IfOk result (λ edit. HasValidLevels (edit_in edit)) }
{
    let added = new_files(alloc, keys, files)?;
    Ok(VersionEdit {
        comparator: None,
        log_number: None,
        previous_log: None,
        next_file: None,
        last_sequence: None,
        pointers: Vec::new(alloc),
        deleted: BTreeSet::new(alloc),
        added,
    })
}

/// The files as new ones of a version.
pub(crate) fn new_files(alloc: Global, keys: &[u8], files: &[File]) -> Result<Vec<NewFile>, Fault>
    requires { are_levelled keys.now files.now ≡ true }
    ensures { EqualOrMemory (λ added. added.items) result
        (Ok (map (added_file keys.now) files.now)) }
{
    let mut added = Vec::with_capacity(alloc, files.len())?;
    for file in files {
        let meta = meta_at(alloc, keys, file)?;
        added.push(NewFile {
            level: file.level,
            meta,
        })?;
    }
    Ok(added)
}
