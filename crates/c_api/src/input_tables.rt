//! Cursors over the tables of inputs that were checked.

ghost use Rattle.std.specs.Prelude.{◌≡◌, true, map, IfErr, IfOk, Ok};
ghost use Rattle.std.specs.List.{AllByRecursion};
ghost use Rattle.ikey.specs.Answers.{EqualOrMemory, fault};
ghost use Rattle.ikey.specs.fault.FaultName.TheVariants.{Memory};
ghost use Rattle.merge.specs.InRange.{entries_in};
ghost use Rattle.keep.specs.MergedLists.{entries_of_lists};
ghost use Rattle.reads.specs.Ranges.{key_range};
ghost use Rattle.c_api.specs.Boundaries.{tables_read};
ghost use Rattle.c_api.specs.Files.{has_keys};
ghost use Rattle.c_api.specs.InputTables.{AreRead, bounds_at, entries_at, IsRead};
ghost use Rattle.c_api.specs.Merges.{are_inputs};
ghost use Rattle.c_api.specs.Places.{part_at};
ghost use Rattle.c_api.specs.Tables.{is_input};
ghost use Rattle.table.specs.TableContents.{contents_reading};

use crate::file::key_at;
use crate::input::Input;
use crate::place::part_of;
use ikey::{Comparator, Fault, KeyBuf};
use keep::{Range, TableCursor};
use merge::add_cursor;
use std::alloc::Global;
use table::{Bounds, SoundTable, Tally, reopen_table};

/// What the check of an input found beside its bytes.
fn bounds_of(alloc: Global, keys: &[u8], input: &Input) -> Result<Bounds, Fault>
    requires { has_keys keys.now input.now.file ≡ true }
    ensures { EqualOrMemory (λ bounds. bounds) result (Ok (bounds_at keys.now input.now)) }
{
    let smallest = KeyBuf::of(alloc, key_at(keys, input.file.smallest))?;
    let largest = KeyBuf::of(alloc, key_at(keys, input.file.largest))?;
    Ok(Bounds {
        smallest,
        largest,
        tally: input.counts.tally(),
    })
}

/// The table of an input that was checked. No test is made again.
fn input_table<'t, C: Comparator>(
    alloc: Global,
    keys: &[u8],
    tables: &'t [u8],
    input: &Input,
) -> Result<SoundTable<'t, C>, Fault>
    requires lent { is_input keys.now tables.now input.now ≡ true }
    requires read { IsRead C.cmp keys.now tables.now input.now }
    ensures entries { EqualOrMemory (λ table. table.entries) result
        (Ok (entries_at C.cmp keys.now tables.now input.now)) }
    ensures contents { IfOk result
        (λ table. contents_reading C.cmp (part_at tables.now input.now.table) ≡ Ok table) }
{
    let bounds = bounds_of(alloc, keys, input)?;
    let bytes = part_of(tables, input.table);
    Ok(reopen_table::<C>(bytes, bounds))
}

/// The tables of inputs that were checked.
pub(crate) fn input_tables<'t, C: Comparator>(
    alloc: Global,
    keys: &[u8],
    tables: &'t [u8],
    inputs: &[Input],
) -> Result<Vec<SoundTable<'t, C>>, Fault>
    requires lent { are_inputs keys.now tables.now inputs.now ≡ true }
    requires read { AreRead C.cmp keys.now tables.now inputs.now }
    ensures { EqualOrMemory (λ all. all.items) result
        (Ok (tables_read C.cmp tables.now inputs.now)) }
{
    let mut all = Vec::with_capacity(alloc, inputs.len())?;
    for input in inputs {
        all.push(input_table::<C>(alloc, keys, tables, input)?)?;
    }
    Ok(all)
}

/// A cursor over each input's table that reaches into `range`, without the entries before the
/// range. Together they have the entries of the inputs in the range, in their order.
pub(crate) fn cursors_over<'t, C: Comparator + 't>(
    alloc: Global,
    keys: &[u8],
    tables: &'t [u8],
    inputs: &[Input],
    range: Range<'_>,
) -> Result<Vec<TableCursor<'t, C>>, Fault>
    requires lent { are_inputs keys.now tables.now inputs.now ≡ true }
    requires read { AreRead C.cmp keys.now tables.now inputs.now }
    ensures held { IfOk result
        (λ v. entries_in C.cmp (key_range range.entry) (entries_of_lists v.items)
        ≡ entries_in C.cmp (key_range range.entry)
        (entries_of_lists (map (entries_at C.cmp keys.now tables.now) inputs.now))) }
    ensures memory { IfErr result (λ e. e ≡ fault Memory) }
{
    let mut cursors = Vec::new(alloc);
    for input in inputs {
        let table = input_table::<C>(alloc, keys, tables, input)?;
        add_cursor(alloc, &mut cursors, &table, range)?;
    }
    Ok(cursors)
}
