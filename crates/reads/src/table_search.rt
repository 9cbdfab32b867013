//! Finding the tables of files, and an entry in a table.

ghost use Rattle.std.specs.Prelude.{◌≡◌, List, true, Ok, IfOk, IfErr};
ghost use Rattle.std.specs.List.{list_all};
ghost use Rattle.std.specs.Option.{option_map, is_some};
ghost use Rattle.ikey.specs.Answers.{EqualOrMemory, fault};
ghost use Rattle.ikey.specs.fault.FaultName.TheVariants.{Memory};
ghost use Rattle.ikey.specs.Key.{user_of, sequence_of, kind_of};
ghost use Rattle.ikey.specs.declared.kind.Kind.TheVariants.{Put};
ghost use Rattle.table.specs.EncodedEntry.{Entry};
ghost use Rattle.table.specs.EntriesFrom.{entries_from};
ghost use Rattle.reads.specs.Tables.{table_of_number, tables_test};
ghost use Rattle.reads.specs.Visible.{visible_in, IsAnswer};

use crate::found_entry::Found;
use crate::table_places::TablePlaces;
use edit::{FileMeta, LEVELS, Version};
use ikey::{Comparator, Fault, FaultName, InternalKey};
use std::alloc::Global;
use table::{Cursor, SoundTable, TableCursor};

/// Whether each of the files has a table.
fn have_tables<C: Comparator>(files: &[&FileMeta], tables: &TablePlaces<'_, '_, C>) -> bool
    ensures { result ≡ list_all (λ f. is_some (table_of_number tables.now f.now.number)) files.now }
{
    for file in files {
        let found = tables.table(file.number).is_some();
        if !found {
            return false;
        }
    }
    true
}

/// Missing if a file of the version has no table.
pub(crate) fn tables_test<C: Comparator>(
    alloc: Global,
    version: &Version,
    tables: &TablePlaces<'_, '_, C>,
) -> Result<(), Fault>
    ensures { EqualOrMemory (λ none. none) result (tables_test tables.now version.now.files) }
{
    for level in 0..LEVELS {
        let files = version.files::<C>(alloc, level)?;
        if !have_tables(&files, tables) {
            return Err(Fault::of(FaultName::Missing));
        }
    }
    Ok(())
}

/// The newest entry of a user key that a sequence sees, in one table; None if there is none.
///
/// `target` is that user key and sequence, as a put. The first entry at or above it is that entry,
/// if it has the same user key.
pub(crate) fn newest_in_table<'a, C: Comparator>(
    alloc: Global,
    table: &SoundTable<'a, C>,
    target: InternalKey<'_>,
) -> Result<Option<Found<'a>>, Fault>
    requires { kind_of target.bytes.now ≡ Put }
    ensures found { IfOk result (λ found. IsAnswer table.now.entries
        (user_of target.entry.bytes.now) (sequence_of target.entry.bytes.now)
        (option_map visible_in found)) }
    ensures memory { IfErr result (λ e. e ≡ fault Memory) }
{
    let mut cursor = TableCursor::new(alloc, table)?;
    cursor.seek(target)?;
    Ok(first_of_user(&cursor, target))
}

/// The cursor's first entry, if it has the user key of `target`.
fn first_of_user<'a, C: Comparator>(
    cursor: &TableCursor<'a, C>,
    target: InternalKey<'_>,
) -> Option<Found<'a>>
    requires { kind_of target.bytes.now ≡ Put }
    // After a seek in a table's entries it is their answer.
    ensures { (entries : List Entry) →
        cursor.now ≡ entries_from C.cmp target.entry.bytes.now entries →
        IsAnswer entries (user_of target.entry.bytes.now) (sequence_of target.entry.bytes.now)
        (option_map visible_in result) }
{
    if !cursor.valid() {
        return None;
    }
    let key = cursor.key();
    if key.user() != target.user() {
        return None;
    }
    Some(Found {
        sequence: key.sequence(),
        kind: key.kind(),
        value: cursor.value(),
    })
}
