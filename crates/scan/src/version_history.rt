//! All entries of a user key in a version.

ghost use Rattle.std.specs.Prelude.{◌≡◌, ◌≤◌, ◌++◌, List, length, map, IfErr, OnOk};
ghost use Rattle.std.specs.List.{All, IsDistinct};
ghost use Rattle.std.specs.Ordering.{nat_cmp};
ghost use Rattle.folder.specs.Reports.{OnlyReads, ReportsDevice};
ghost use Rattle.table.specs.Answers.{fault};
ghost use Rattle.table.specs.Key.{sequence_of};
ghost use Rattle.table.specs.fault.FaultName.TheVariants.{Memory};
ghost use Rattle.reads.specs.FileList.{level_file_in, same_file};
ghost use Rattle.reads.specs.Lawful.{IsFileOf};
ghost use Rattle.reads.specs.Tables.{NumberedContents};
ghost use Rattle.scan.specs.FolderTables.{HoldTables};
ghost use Rattle.scan.specs.Excuses.{Gives};
ghost use Rattle.scan.specs.KeyHistory.{AreHistory, ArePlaced};
ghost use Rattle.scan.specs.PlacedEntries.{placed, same_place};

use crate::owned_entry::{OwnedEntry, sequence};
use crate::placed_entry::PlacedEntry;
use crate::user_entries::entries_in_file;
use folder::{Folder, Version};
use reads::{LevelFile, MAX_USER_KEY, all_files};
use std::alloc::Global;
use std::cmp::Ordering;
use table::{Comparator, Fault};

/// All entries of a user `key` in a version whose tables are in a folder, each with its level and
/// file: the newest first. It only reads.
///
/// Of each file whose range of user keys holds the key it reads what [`entries_in_file`] reads, and
/// it has the same faults. The version need not be lawful: entries of one sequence may stand in
/// several files, in any order. What it takes of memory grows with the entries that are found.
pub fn key_history<C: Comparator, F: Folder>(
    alloc: Global,
    folder: &mut F,
    version: &Version,
    key: &[u8],
) -> Result<Vec<PlacedEntry>, Fault>
    // If the folder tells the tables, and each file's is what the version states.
    ensures given { (tables : List NumberedContents) → HoldTables (F.tells folder.old) tables →
        All (λ f. IsFileOf C.cmp tables f.meta) version.now.files →
        Gives result (λ found. AreHistory key.now tables version.now.files found.items) }
    ensures device { ReportsDevice F.Folder folder.old folder.new result }
    ensures reads { OnlyReads F.Folder folder.old folder.new }
{
    if key.len() > MAX_USER_KEY {
        return Ok(Vec::new(alloc));
    }
    let files = all_files::<C>(alloc, version)?;
    let mut found = entries_in_files::<C, F>(alloc, folder, &files, key)?;
    found.sort_unstable_by(|one, other| newer_first(one, other));
    Ok(found)
}

/// All entries of a user key in these files, a file after the other.
fn entries_in_files<C: Comparator, F: Folder>(
    alloc: Global,
    folder: &mut F,
    files: &[LevelFile<'_>],
    user: &[u8],
) -> Result<Vec<PlacedEntry>, Fault>
    requires { length user.now ≤ 65535 }
    ensures given { (tables : List NumberedContents) → HoldTables (F.tells folder.old) tables →
        All (λ f. IsFileOf C.cmp tables f.meta.now) files.now →
        IsDistinct same_file (map level_file_in files.now) →
        Gives result (λ found. ArePlaced user.now tables (map level_file_in files.now) found.items
        × IsDistinct same_place found.items) }
    ensures device { ReportsDevice F.Folder folder.old folder.new result }
    ensures reads { OnlyReads F.Folder folder.old folder.new }
{
    let mut found = Vec::new(alloc);
    for file in files {
        let entries = entries_in_file::<C, F>(alloc, folder, file.meta, user)?;
        push_placed(&mut found, file.level, file.meta.number, entries)?;
    }
    Ok(found)
}

/// Appends the entries of a file.
fn push_placed(
    found: &mut Vec<PlacedEntry>,
    level: u64,
    file: u64,
    entries: Vec<OwnedEntry>,
) -> Result<(), Fault>
    ensures ok { OnOk result
        (found.new.items ≡ found.old.items ++ map (placed level file) entries.items) }
    ensures memory { IfErr result (λ e. e ≡ fault Memory) }
{
    for entry in entries {
        found.push(PlacedEntry { level, file, entry })?;
    }
    Ok(())
}

/// The order in which the entry of the greater sequence comes first.
fn newer_first(one: &PlacedEntry, other: &PlacedEntry) -> Ordering
    ensures { result
        ≡ nat_cmp (sequence_of other.now.entry.key) (sequence_of one.now.entry.key) }
{
    let newer = sequence(&one.entry);
    sequence(&other.entry).cmp(&newer)
}
