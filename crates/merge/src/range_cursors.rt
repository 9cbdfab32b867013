//! Cursors over the tables that reach into a range.

ghost use Rattle.std.specs.Prelude.{◌≡◌, ◌++◌, [], true, map, Ok};
ghost use Rattle.std.specs.Prelude.{IfOk, IfErr, OnOk, OnErr, IsOkUnless};
ghost use Rattle.table.specs.Answers.{fault};
ghost use Rattle.table.specs.fault.FaultName.TheVariants.{Memory};
ghost use Rattle.table.specs.TableContents.{table_reading};
ghost use Rattle.merge.specs.MergedLists.{entries_of_lists};
ghost use Rattle.split.specs.Ranges.{key_range};
ghost use Rattle.merge.specs.InRange.{entries_in};

use crate::range_start::seek_range;
use split::{Range, is_before};
use std::alloc::Global;
use table::{Comparator, Fault, SoundTable, TableCursor};

/// A cursor over each table that reaches into `range`, without the entries before the range.
/// Together they have the entries of the tables in the range, in their order.
///
/// That no cursor is made over a table that misses the range, no contract says.
pub fn cursors_from<'t, C: Comparator + 't>(
    alloc: Global,
    tables: &[&SoundTable<'t, C>],
    range: Range<'_>,
) -> Result<Vec<TableCursor<'t, C>>, Fault>
    ensures held { IfOk result
        (λ v. entries_in C.cmp (key_range range.entry) (entries_of_lists v.items)
        ≡ entries_in C.cmp (key_range range.entry)
        (entries_of_lists (map (λ t. t.now.entries) tables.now))) }
    ensures memory { IfErr result (λ e. e ≡ fault Memory) }
{
    let mut cursors = Vec::new(alloc);
    for table in tables {
        add_cursor(alloc, &mut cursors, table, range)?;
    }
    Ok(cursors)
}

/// Appends a cursor over `table`, without the entries before `range`, if the table reaches into the
/// range.
///
/// That no cursor is made over a table that misses the range, no contract says.
pub fn add_cursor<'t, C: Comparator + 't>(
    alloc: Global,
    cursors: &mut Vec<TableCursor<'t, C>>,
    table: &SoundTable<'t, C>,
    range: Range<'_>,
) -> Result<(), Fault>
    ensures held { OnOk result
        (entries_in C.cmp (key_range range.entry) (entries_of_lists cursors.new.items)
        ≡ entries_in C.cmp (key_range range.entry) (entries_of_lists cursors.old.items)
        ++ entries_in C.cmp (key_range range.entry) table.now.entries) }
    ensures unchanged { OnErr result (cursors.new.items ≡ cursors.old.items) }
    ensures memory { IsOkUnless result (fault Memory) }
{
    if misses(table, range) {
        return Ok(());
    }
    let cursor = cursor_from(alloc, table, range)?;
    cursors.push(cursor)?;
    Ok(())
}

/// Whether the table ends before the range or begins after it, so that the range has none of its
/// entries.
fn misses<C: Comparator>(table: &SoundTable<'_, C>, range: Range<'_>) -> bool
    ensures { result ≡ true → entries_in C.cmp (key_range range.entry) table.now.entries ≡ [] }
{
    let _ = table.bytes();
    let begins = is_before::<C>(table.smallest(), range.upper, true);
    let ends = is_before::<C>(table.largest(), range.lower, false);
    if ends {
        return true;
    }
    !begins
}

/// A cursor over `table`, without the entries before `range`.
pub fn cursor_from<'t, C: Comparator + 't>(
    alloc: Global,
    table: &SoundTable<'t, C>,
    range: Range<'_>,
) -> Result<TableCursor<'t, C>, Fault>
    ensures held { IfOk result (λ cursor. entries_in C.cmp (key_range range.entry) cursor
        ≡ entries_in C.cmp (key_range range.entry) table.now.entries) }
    ensures memory { IfErr result (λ e. e ≡ fault Memory) }
{
    let mut cursor = TableCursor::new(alloc, table)?;
    seek_table(alloc, table.bytes(), &mut cursor, range)?;
    Ok(cursor)
}

/// Takes the entries before `range` off a cursor over the table of `bytes`.
fn seek_table<'t, C: Comparator + 't>(
    alloc: Global,
    bytes: &[u8],
    cursor: &mut TableCursor<'t, C>,
    range: Range<'_>,
) -> Result<(), Fault>
    requires { table_reading C.cmp bytes.now ≡ Ok cursor.old }
    ensures held { entries_in C.cmp (key_range range.entry) cursor.new
        ≡ entries_in C.cmp (key_range range.entry) cursor.old }
    ensures memory { IsOkUnless result (fault Memory) }
{
    let _ = bytes;
    seek_range::<C, _>(alloc, cursor, range)
}
