//! The tests of a request without its tables.

ghost use Rattle.std.specs.Prelude.{◌≡◌, true, map, Ok};
ghost use Rattle.ikey.specs.Answers.{EqualOrMemory};
ghost use Rattle.c_api.specs.Codes.{IsAnswerOrMemory};
ghost use Rattle.c_api.specs.Held.{have_all_keys, tested_in};
ghost use Rattle.c_api.specs.Orders.{by_order};
ghost use Rattle.c_api.specs.Requests.{files_of as all_files, request_answer};
ghost use Rattle.c_api.specs.Requests.{no_table, request_with, snapshots_of};
ghost use Rattle.compact.specs.Request.{request_test};

use crate::code::{DONE, MEMORY, MISUSE, code_of};
use crate::file::File;
use crate::lent::{Lent, LentFiles};
use crate::order::{BYTEWISE, SHORTLEX};
use crate::picked::{files_of, pointer_of, tested_inputs};
use compact::Request;
use ikey::{Bytewise, Comparator, Fault, FaultName, KeyBuf, Shortlex};
use std::alloc::Global;

/// Tests a request without its tables.
#[unsafe(no_mangle)]
pub extern "C" fn proved_check_request(alloc: Global, lent: &Lent<'_, '_>) -> u32
    ensures answer { IsAnswerOrMemory result tt tt (request_answer lent.now.keys.now
        lent.now.request (snapshots_of lent.now.request lent.now.snapshots)
        (all_files lent.now.inputs.now) lent.now.deeper.now) }
{
    let Ok(files) = files_of(alloc, lent.inputs) else {
        return MEMORY;
    };
    let asked = LentFiles {
        lent,
        files: &files,
    };
    if !asked.have_keys() {
        return MISUSE;
    }
    match tested_by(alloc, &asked) {
        Ok(()) => DONE,
        Err(fault) => code_of(fault),
    }
}

/// The tests of a request in its order.
fn tested_by(alloc: Global, asked: &LentFiles<'_>) -> Result<(), Fault>
    requires { have_all_keys asked.now ≡ true }
    ensures { EqualOrMemory (λ none. none) result
        (by_order asked.now.lent.now.request.order (tested_in asked.now)) }
{
    match asked.lent.request.order {
        BYTEWISE => tested::<Bytewise>(alloc, asked),
        SHORTLEX => tested::<Shortlex>(alloc, asked),
        _ => Err(Fault::of(FaultName::Comparator)),
    }
}

/// The tests of a request.
pub(crate) fn tested<C: Comparator>(alloc: Global, asked: &LentFiles<'_>) -> Result<(), Fault>
    requires { have_all_keys asked.now ≡ true }
    ensures { EqualOrMemory (λ none. none) result (tested_in asked.now C.cmp) }
{
    let lent = asked.lent;
    match pointer_of::<C>(alloc, lent.keys, lent.request.level, asked.files)? {
        Some(pointer) => pointed::<C>(alloc, asked, pointer),
        None if asked.files.is_empty() => Err(Fault::of(FaultName::NoInput)),
        None => Err(Fault::of(FaultName::Level)),
    }
}

/// The tests of a request whose compact pointer is known.
fn pointed<C: Comparator>(
    alloc: Global,
    asked: &LentFiles<'_>,
    pointer: KeyBuf,
) -> Result<(), Fault>
    requires { have_all_keys asked.now ≡ true }
    ensures { EqualOrMemory (λ none. none) result (request_test C.cmp
        (request_with C.cmp asked.now.lent.now.keys.now asked.now.lent.now.request
        (snapshots_of asked.now.lent.now.request asked.now.lent.now.snapshots) asked.now.files.now
        asked.now.lent.now.deeper.now pointer)) }
{
    let lent = asked.lent;
    let picked = tested_inputs::<C>(alloc, asked, pointer)?;
    let tables = no_tables(alloc, asked.files)?;
    let request = Request {
        picked: &picked,
        tables: &tables,
        snapshots: lent.request.snapshots(lent.snapshots),
        first_number: 0,
        log_number: 0,
        previous_log: 0,
        last_sequence: lent.request.last_sequence,
        options: lent.request.options(),
    };
    request.check::<C>()
}

/// An empty table for each file.
fn no_tables(alloc: Global, files: &[File]) -> Result<Vec<&'static [u8]>, Fault>
    ensures { EqualOrMemory (λ tables. map (λ table. table.now) tables.items) result
        (Ok (map no_table files.now)) }
{
    let mut tables = Vec::with_capacity(alloc, files.len())?;
    for file in files {
        tables.push(empty_table(file))?;
    }
    Ok(tables)
}

/// The table of an input of which no byte is lent yet.
fn empty_table(file: &File) -> &'static [u8]
    ensures { result.now ≡ no_table file.now }
{
    let _ = file;
    &[]
}
