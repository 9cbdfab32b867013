//! The check of an input.

ghost use Rattle.std.specs.Prelude.{◌≡◌, true, Ok};
ghost use Rattle.ikey.specs.Answers.{EqualOrMemory};
ghost use Rattle.c_api.specs.Codes.{IsAnswerOrMemory};
ghost use Rattle.c_api.specs.Files.{meta_at as stated_at};
ghost use Rattle.c_api.specs.Orders.{by_order};
ghost use Rattle.c_api.specs.Places.{part_at};
ghost use Rattle.c_api.specs.Tables.{counts_reading, is_input as lies_lent, table_answer};

use crate::code::{DONE, MISUSE, code_of};
use crate::file::meta_at;
use crate::input::{Counts, Input, is_input};
use crate::order::{BYTEWISE, SHORTLEX};
use crate::place::part_of;
use compact::matches_metadata;
use edit::FileMeta;
use ikey::{Bytewise, Comparator, Fault, FaultName, Shortlex};
use std::alloc::Global;
use table::check;

/// Tests an input: each byte of its table, and whether its length and bounds are as its file
/// states. `input.counts` is set if the answer is 0, and then the input may be merged.
#[unsafe(no_mangle)]
pub extern "C" fn proved_check_table(
    alloc: Global,
    order: u32,
    keys: &[u8],
    tables: &[u8],
    input: &mut Input,
) -> u32
    ensures answer { IsAnswerOrMemory result input.old.counts input.new.counts
        (table_answer order keys.now tables.now input.old) }
    ensures checked { result ≡ 0 →
        table_answer order keys.now tables.now input.new ≡ Ok input.new.counts }
    ensures file { input.new.file ≡ input.old.file }
    ensures table { input.new.table ≡ input.old.table }
{
    if !is_input(keys, tables, input) {
        return MISUSE;
    }
    match counted_by(alloc, order, keys, tables, input) {
        Ok(counts) => {
            input.counts = counts;
            DONE
        }
        Err(fault) => code_of(fault),
    }
}

/// What is counted of an input in the order of this number.
fn counted_by(
    alloc: Global,
    order: u32,
    keys: &[u8],
    tables: &[u8],
    input: &Input,
) -> Result<Counts, Fault>
    requires { lies_lent keys.now tables.now input.now ≡ true }
    ensures { EqualOrMemory (λ counts. counts) result (by_order order
        (counts_reading (stated_at keys.now input.now.file) (part_at tables.now input.now.table))) }
{
    let meta = meta_at(alloc, keys, &input.file)?;
    let bytes = part_of(tables, input.table);
    match order {
        BYTEWISE => counted::<Bytewise>(alloc, &meta, bytes),
        SHORTLEX => counted::<Shortlex>(alloc, &meta, bytes),
        _ => Err(Fault::of(FaultName::Comparator)),
    }
}

/// What is counted of an input, or the first test that it fails.
fn counted<C: Comparator>(alloc: Global, meta: &FileMeta, bytes: &[u8]) -> Result<Counts, Fault>
    ensures { EqualOrMemory (λ counts. counts) result (counts_reading meta.now bytes.now C.cmp) }
{
    let table = check::<C>(alloc, bytes)?;
    if !matches_metadata(meta, &table) {
        return Err(Fault::of(FaultName::Bounds));
    }
    Ok(Counts::of(table.tally()))
}
