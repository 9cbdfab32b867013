//! The bytes of the version edit.

ghost use Rattle.std.specs.Prelude.{◌≡◌, ◌≤◌, true, Ok, IfOk};
ghost use Rattle.ikey.specs.Answers.{EqualOrMemory};
ghost use Rattle.edit.specs.Edit.{HasShortName, HasValidLevels, edit_bytes, edit_in};
ghost use Rattle.pick.specs.declared.input_choice.TheConstants.{LAST_INPUT_LEVEL};
ghost use Rattle.c_api.specs.Edits.{edit_answer, edit_over, edit_reading};
ghost use Rattle.c_api.specs.Edits.{edit_with as edit_with_key, have_levels as have_low_levels};
ghost use Rattle.c_api.specs.Edits.{is_edit_lent};
ghost use Rattle.c_api.specs.Held.{edit_held};
ghost use Rattle.c_api.specs.Orders.{by_order};
ghost use Rattle.c_api.specs.Requests.{files_of as all_files};
ghost use Rattle.c_api.specs.Rooms.{IsWrittenOrMemory};

use crate::closed_calls::{are_files, new_files};
use crate::code::{MEMORY, MISUSE, code_of};
use crate::file::File;
use crate::lent::Lent;
use crate::order::{BYTEWISE, SHORTLEX};
use crate::picked::{files_of, have_keys, input_files, pointer_of};
use crate::room::put;
use compact::deletions_of;
use edit::{CompactPointer, LAST_LEVEL, VersionEdit};
use ikey::{Bytewise, Comparator, Fault, FaultName, KeyBuf, Shortlex};
use pick::LAST_INPUT_LEVEL;
use std::alloc::Global;

/// The host's numbers, as they are when the edit is installed.
#[repr(C)]
#[derive(Clone, Copy, Drop)]
pub struct Numbers {
    /// The least number that no file has.
    pub next_file: u64,
    /// The number of the write-ahead log in use.
    pub log_number: u64,
    /// The number of the previous one.
    pub previous_log: u64,
    /// The greatest sequence in use.
    pub last_sequence: u64,
}

/// What an edit is asked for, and where that lies.
#[derive(Clone, Copy)]
pub(crate) struct LentEdit<'a> {
    pub lent: &'a Lent<'a, 'a>,
    pub numbers: &'a Numbers,
    /// The files of the inputs.
    pub files: &'a [File],
    pub added: &'a [File],
}

impl<'a> LentEdit<'a> {
    /// Whether all keys lie in what is lent, and all levels are from 0 to 6.
    fn is_lent(&self) -> bool
        ensures { result ≡ is_edit_lent (edit_held self.now) }
    {
        have_keys(self.lent.keys, self.files)
            && have_levels(self.files)
            && are_files(self.lent.keys, self.added)
    }
}

/// Writes the bytes of the edit of a compaction into `room`: the inputs go, and `added` come. `len`
/// is how many bytes they are, also if `room` is too small.
#[unsafe(no_mangle)]
pub extern "C" fn proved_edit(
    alloc: Global,
    lent: &Lent<'_, '_>,
    numbers: &Numbers,
    added: &[File],
    room: &mut [u8],
    len: &mut u64,
) -> u32
    ensures answer { IsWrittenOrMemory result room.old room.new len.old len.new (edit_answer
        (edit_over lent.now (all_files lent.now.inputs.now) numbers.now added.now)) }
{
    let Ok(files) = files_of(alloc, lent.inputs) else {
        return MEMORY;
    };
    let asked = LentEdit {
        lent,
        numbers,
        files: &files,
        added,
    };
    if !asked.is_lent() {
        return MISUSE;
    }
    match edit_by(alloc, &asked) {
        Ok(bytes) => put(&bytes, room, len),
        Err(fault) => code_of(fault),
    }
}

/// Whether each file has a level from 0 to 6.
fn have_levels(files: &[File]) -> bool
    ensures { result ≡ have_low_levels files.now }
{
    files.iter().all(|file| file.level <= LAST_LEVEL)
}

/// The bytes of the edit, in the request's order.
fn edit_by(alloc: Global, asked: &LentEdit<'_>) -> Result<Vec<u8>, Fault>
    requires { is_edit_lent (edit_held asked.now) ≡ true }
    ensures { EqualOrMemory (λ bytes. bytes.items) result
        (by_order asked.now.lent.now.request.order (edit_reading (edit_held asked.now))) }
{
    match asked.lent.request.order {
        BYTEWISE => edit_of::<Bytewise>(alloc, asked),
        SHORTLEX => edit_of::<Shortlex>(alloc, asked),
        _ => Err(Fault::of(FaultName::Comparator)),
    }
}

/// The bytes of the edit.
fn edit_of<C: Comparator>(alloc: Global, asked: &LentEdit<'_>) -> Result<Vec<u8>, Fault>
    requires { is_edit_lent (edit_held asked.now) ≡ true }
    ensures { EqualOrMemory (λ bytes. bytes.items) result
        (edit_reading (edit_held asked.now) C.cmp) }
{
    let level = asked.lent.request.level;
    if level > LAST_INPUT_LEVEL {
        return Err(Fault::of(FaultName::Level));
    }
    match pointer_of::<C>(alloc, asked.lent.keys, level, asked.files)? {
        Some(pointer) => encoded(alloc, asked, pointer),
        None if asked.files.is_empty() => Err(Fault::of(FaultName::NoInput)),
        None => Err(Fault::of(FaultName::Level)),
    }
}

/// The bytes of the edit whose compact pointer is known.
fn encoded(alloc: Global, asked: &LentEdit<'_>, pointer: KeyBuf) -> Result<Vec<u8>, Fault>
    requires low { asked.now.lent.now.request.level ≤ LAST_INPUT_LEVEL }
    requires lent { is_edit_lent (edit_held asked.now) ≡ true }
    ensures { EqualOrMemory (λ bytes. bytes.items) result
        (Ok (edit_bytes (edit_with_key (edit_held asked.now) pointer))) }
{
    let edit = edit_with(alloc, asked, pointer)?;
    edit.encode(alloc)
}

/// The edit whose compact pointer is known.
fn edit_with(alloc: Global, asked: &LentEdit<'_>, pointer: KeyBuf) -> Result<VersionEdit, Fault>
    requires low { asked.now.lent.now.request.level ≤ LAST_INPUT_LEVEL }
    requires lent { is_edit_lent (edit_held asked.now) ≡ true }
    ensures edit { EqualOrMemory edit_in result (Ok (edit_with_key (edit_held asked.now) pointer)) }
    ensures levels { IfOk result (λ edit. HasValidLevels (edit_in edit)) }
    ensures name { IfOk result (λ edit. HasShortName (edit_in edit)) }
{
    let keys = asked.lent.keys;
    let numbers = asked.numbers;
    let inputs = input_files(alloc, keys, asked.files)?;
    let deleted = deletions_of(alloc, &inputs)?;
    let added = new_files(alloc, keys, asked.added)?;
    let mut pointers = Vec::new(alloc);
    pointers.push(CompactPointer {
        level: asked.lent.request.level,
        key: pointer,
    })?;
    Ok(VersionEdit {
        comparator: None,
        log_number: Some(numbers.log_number),
        previous_log: Some(numbers.previous_log),
        next_file: Some(numbers.next_file),
        last_sequence: Some(numbers.last_sequence),
        pointers,
        deleted,
        added,
    })
}
