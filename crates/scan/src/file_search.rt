//! A search in a table's file.

ghost use Rattle.std.specs.Prelude.{◌≡◌, ℕ, List, [], Ok, length, slice_get};
ghost use Rattle.std.specs.List.{AllByRecursion};
ghost use Rattle.std.specs.Option.{option_map};
ghost use Rattle.block.specs.EncodedEntry.{Entry};
ghost use Rattle.folder.specs.Reports.{OnlyReads, ReportsDevice};
ghost use Rattle.table.specs.Key.{kind_of, sequence_of, user_of};
ghost use Rattle.reads.specs.kind.Kind.TheVariants.{Put};
ghost use Rattle.reads.specs.Visible.{IsAnswer, visible_of};
ghost use Rattle.table.specs.fault.FaultName.TheVariants.{Empty};
ghost use Rattle.table.specs.IndexWalk.{Indexes, NamesBlock, all_named};
ghost use Rattle.table.specs.EntriesFrom.{EntriesRise, entries_from};
ghost use Rattle.table.specs.TableContents.{Contents, contents_reading, index_in};
ghost use Rattle.scan.specs.FolderTables.{HoldsTable};
ghost use Rattle.scan.specs.Excuses.{Gives};
ghost use Rattle.scan.specs.SearchAnswers.{IsFileOfBytes, Refuses};

use crate::block_search::{entries_ahead, first_in_block};
use crate::file_parts::{TableFile, name_of};
use crate::owned_entry::OwnedEntry;
use crate::table_blocks::{data_block, index_block};
use block::BlockCursor;
use folder::{FileMeta, Folder};
use std::alloc::Global;
use table::{Comparator, Fault, InternalKey};

/// The newest entry of a user key that a sequence sees, in the table of a file. `target` is both,
/// as a put.
pub(crate) fn newest_in_file<C: Comparator, F: Folder>(
    alloc: Global,
    folder: &mut F,
    file: &FileMeta,
    target: InternalKey<'_>,
) -> Result<Option<OwnedEntry>, Fault>
    requires { kind_of target.bytes.now ≡ Put }
    ensures given { (table : Contents) →
        HoldsTable (F.tells folder.old) file.now.number table.bytes →
        contents_reading C.cmp table.bytes ≡ Ok table → file.now.size ≡ length table.bytes →
        Gives result (λ found. IsAnswer table.entries
        (user_of target.entry.bytes.now) (sequence_of target.entry.bytes.now)
        (option_map visible_of found)) }
    // A table whose index has no entry is refused.
    ensures empty { (bytes : List ℕ) → HoldsTable (F.tells folder.old) file.now.number bytes →
        file.now.size ≡ length bytes → index_in bytes ≡ Ok [] → Refuses result Empty }
    ensures device { ReportsDevice F.Folder folder.old folder.new result }
    ensures reads { OnlyReads F.Folder folder.old folder.new }
{
    let name = name_of(alloc, folder, file.number)?;
    let size = file.size;
    let first = first_in_table::<C, F>(alloc, folder, &TableFile { name, size }, target)?;
    Ok(of_user::<C>(first, target))
}

/// The entry, if it has the user key of `target`.
fn of_user<C: Comparator>(first: Option<OwnedEntry>, target: InternalKey<'_>) -> Option<OwnedEntry>
    requires { kind_of target.bytes.now ≡ Put }
    // If it is the first one at or above it, it is the answer.
    ensures { (entries : List Entry) → EntriesRise C.cmp entries →
        first ≡ slice_get (entries_from C.cmp target.entry.bytes.now entries) 0 →
        IsAnswer entries (user_of target.entry.bytes.now) (sequence_of target.entry.bytes.now)
        (option_map visible_of result) }
{
    let Some(entry) = first else {
        return None;
    };
    if entry.key.as_key().user() != target.user() {
        return None;
    }
    Some(entry)
}

/// The first entry of a table at or above `target`. None if all are below; Empty if its index has
/// no entry.
fn first_in_table<C: Comparator, F: Folder>(
    alloc: Global,
    folder: &mut F,
    file: &TableFile,
    target: InternalKey<'_>,
) -> Result<Option<OwnedEntry>, Fault>
    ensures given { (bytes : List ℕ) (names entries : List Entry) →
        IsFileOfBytes (F.tells folder.old) file.now bytes → index_in bytes ≡ Ok names →
        Indexes C.cmp bytes names entries →
        Gives result
        (λ found. found ≡ slice_get (entries_from C.cmp target.entry.bytes.now entries) 0) }
    ensures empty { (bytes : List ℕ) → IsFileOfBytes (F.tells folder.old) file.now bytes →
        index_in bytes ≡ Ok [] → Refuses result Empty }
    ensures device { ReportsDevice F.Folder folder.old folder.new result }
    ensures reads { OnlyReads F.Folder folder.old folder.new }
{
    let stored = index_block(folder, file)?;
    let mut index = entries_ahead::<C>(alloc, &stored, target)?;
    first_ahead::<C, F>(alloc, folder, file, &mut index, target)
}

/// The first entry at or above `target` in the data blocks that these entries of the index name.
///
/// It is in the first of them, or it is the first entry of the next one: an index key may be above
/// all keys of its block.
fn first_ahead<C: Comparator, F: Folder>(
    alloc: Global,
    folder: &mut F,
    file: &TableFile,
    index: &mut BlockCursor<'_>,
    target: InternalKey<'_>,
) -> Result<Option<OwnedEntry>, Fault>
    ensures given { (bytes : List ℕ) → IsFileOfBytes (F.tells folder.old) file.now bytes →
        AllByRecursion (NamesBlock C.cmp bytes) index.old →
        Gives result (λ found. found
        ≡ slice_get (entries_from C.cmp target.entry.bytes.now (all_named bytes index.old)) 0) }
    ensures device { ReportsDevice F.Folder folder.old folder.new result }
    ensures reads { OnlyReads F.Folder folder.old folder.new }
{
    'names: while index.valid() {
        let stored = data_block(folder, file, index.value())?;
        let first = first_in_block::<C>(alloc, &stored, target)?;
        if first.is_some() {
            return Ok(first);
        }
        index.advance()?;
    }
    Ok(None)
}
