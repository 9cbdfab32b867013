//! All entries of a user key in the table of a file.

ghost use Rattle.std.specs.Prelude.{◌≡◌, ◌≤◌, ◌<◌, ◌+◌, ◌^◌, List, Ok, length, min};
ghost use Rattle.std.specs.Option.{MatchOption, option_map};
ghost use Rattle.folder.specs.Reports.{OnlyReads, ReportsDevice};
ghost use Rattle.reads.specs.Visible.{IsAnswer, visible_of};
ghost use Rattle.table.specs.TableContents.{Contents, contents_reading};
ghost use Rattle.reads.specs.Lawful.{IsFileOf};
ghost use Rattle.reads.specs.Tables.{NumberedContents, table_entries};
ghost use Rattle.scan.specs.FolderTables.{HoldTables, HoldsTable};
ghost use Rattle.scan.specs.Excuses.{Gives};
ghost use Rattle.scan.specs.UserHistory.{AreEntriesOf};

use crate::file_search::newest_in_file;
use crate::owned_entry::{OwnedEntry, sequence};
use folder::{FileMeta, Folder};
use reads::{Kind, may_hold};
use std::alloc::Global;
use table::{Comparator, Fault, KeyBuf, MAX_SEQUENCE};

/// All entries that the table of a file has of a `user` key, at most 65,535 bytes: the newest
/// first. It only reads.
///
/// Nothing is read if the file's range of user keys doesn't hold the key. Of each entry it reads
/// what [`get_unverified`](crate::get_unverified) reads of a table, and it has the same faults.
pub fn entries_in_file<C: Comparator, F: Folder>(
    alloc: Global,
    folder: &mut F,
    file: &FileMeta,
    user: &[u8],
) -> Result<Vec<OwnedEntry>, Fault>
    requires { length user.now ≤ 65535 }
    // If the folder tells the tables, and that of the file is what the version states.
    ensures given { (tables : List NumberedContents) → HoldTables (F.tells folder.old) tables →
        IsFileOf C.cmp tables file.now →
        Gives result
        (λ found. AreEntriesOf user.now (table_entries tables file.now.number) found.items) }
    ensures device { ReportsDevice F.Folder folder.old folder.new result }
    ensures reads { OnlyReads F.Folder folder.old folder.new }
{
    let mut found = Vec::new(alloc);
    if !may_hold::<C>(file, user) {
        return Ok(found);
    }
    let mut next = Some(MAX_SEQUENCE);
    'older: while let Some(at) = next {
        let newest = newest_of_user::<C, F>(alloc, folder, file, user, at)?;
        let Some(entry) = newest else {
            return Ok(found);
        };
        next = before(at, sequence(&entry));
        found.push(entry)?;
    }
    Ok(found)
}

/// The sequence before the lower one of these two. None if it is 0.
fn before(at: u64, sequence: u64) -> Option<u64>
    ensures { MatchOption result (min sequence at ≡ 0) (λ next. next + 1 ≡ min sequence at) }
{
    match sequence.min(at) {
        0 => None,
        lower => Some(lower - 1),
    }
}

/// The newest entry of a `user` key that the sequence `at` sees, in the table of a file.
fn newest_of_user<C: Comparator, F: Folder>(
    alloc: Global,
    folder: &mut F,
    file: &FileMeta,
    user: &[u8],
    at: u64,
) -> Result<Option<OwnedEntry>, Fault>
    requires user_fits { length user.now ≤ 65535 }
    requires sequence_fits { at < 2 ^ 56 }
    ensures given { (table : Contents) →
        HoldsTable (F.tells folder.old) file.now.number table.bytes →
        contents_reading C.cmp table.bytes ≡ Ok table → file.now.size ≡ length table.bytes →
        Gives result (λ found. IsAnswer table.entries user.now at (option_map visible_of found)) }
    ensures device { ReportsDevice F.Folder folder.old folder.new result }
    ensures reads { OnlyReads F.Folder folder.old folder.new }
{
    let target = KeyBuf::new(alloc, user, at, Kind::Put)?;
    newest_in_file::<C, F>(alloc, folder, file, target.as_key())
}
