//! What a version answers of a user key, level by level.

ghost use Rattle.std.specs.Prelude.{◌≡◌, List, Ok, IfErr};
ghost use Rattle.std.specs.List.{All, flat_map};
ghost use Rattle.std.specs.Option.{option_map};
ghost use Rattle.folder.specs.OpenAnswer.{FolderAnswers};
ghost use Rattle.folder.specs.Reports.{OnlyReads, ReportsDevice};
ghost use Rattle.table.specs.Key.{kind_of, sequence_of, user_of};
ghost use Rattle.reads.specs.kind.Kind.TheVariants.{Put};
ghost use Rattle.reads.specs.Gets.{get_of};
ghost use Rattle.reads.specs.Lawful.{IsFileOf, IsLawful};
ghost use Rattle.reads.specs.Tables.{NumberedContents, all_entries, table_entries};
ghost use Rattle.reads.specs.Visible.{IsAnswer, visible_of};
ghost use Rattle.scan.specs.FolderTables.{HoldTables};
ghost use Rattle.scan.specs.Excuses.{Gives};

use crate::file_search::newest_in_file;
use crate::owned_entry::{OwnedEntry, newer, value_of};
use folder::{FileMeta, Folder, LEVELS, Version};
use reads::{Kind, MAX_USER_KEY, may_hold};
use std::alloc::Global;
use table::{Comparator, Fault, InternalKey, KeyBuf, MAX_SEQUENCE};

/// The value of a user `key` at the sequence `at`, in a version whose tables are in a folder. It
/// only reads. If the folder tells tables with which the version is lawful, it is what `get`
/// answers of them.
///
/// It goes from level to level, and stops at the first one that has an entry. Of each table whose
/// range of user keys holds the key it reads the footer, the index block and one or two data
/// blocks. These are the one in which the entry has to be, or that one and the next.
///
/// Faults: those by which `table::check` refuses what was read; Missing if such a table is missing;
/// Short if a file is shorter than the version states; Device; Memory. No other table is looked at.
pub fn get_unverified<C: Comparator, F: Folder>(
    alloc: Global,
    folder: &mut F,
    version: &Version,
    key: &[u8],
    at: u64,
) -> Result<Option<Vec<u8>>, Fault>
    ensures lawful { (tables : List NumberedContents) → HoldTables (F.tells folder.old) tables →
        IsLawful C.cmp version.now tables →
        FolderAnswers (option_map (λ value. value.items)) (F.failed folder.old)
        (F.failed folder.new) result
        (λ answer. answer ≡ Ok (get_of version.now tables key.now at)) }
    ensures device { ReportsDevice F.Folder folder.old folder.new result }
    ensures reads { OnlyReads F.Folder folder.old folder.new }
{
    if key.len() > MAX_USER_KEY {
        return Ok(None);
    }
    let target = KeyBuf::new(alloc, key, at.min(MAX_SEQUENCE), Kind::Put)?;
    let found = newest_in_version::<C, F>(alloc, folder, version, target.as_key())?;
    Ok(value_of(found))
}

/// The newest entry of a user key that a sequence sees, at the first level that has one. `target`
/// is both, as a put.
fn newest_in_version<C: Comparator, F: Folder>(
    alloc: Global,
    folder: &mut F,
    version: &Version,
    target: InternalKey<'_>,
) -> Result<Option<OwnedEntry>, Fault>
    requires { kind_of target.bytes.now ≡ Put }
    ensures given { (tables : List NumberedContents) → HoldTables (F.tells folder.old) tables →
        IsLawful C.cmp version.now tables →
        Gives result (λ found. IsAnswer (all_entries tables version.now.files)
        (user_of target.entry.bytes.now) (sequence_of target.entry.bytes.now)
        (option_map visible_of found)) }
    ensures device { ReportsDevice F.Folder folder.old folder.new result }
    ensures reads { OnlyReads F.Folder folder.old folder.new }
{
    for level in 0..LEVELS {
        let files = version.files::<C>(alloc, level)?;
        let newest = newest_at_level::<C, F>(alloc, folder, &files, target)?;
        if newest.is_some() {
            return Ok(newest);
        }
    }
    Ok(None)
}

/// The newest entry of a user key that a sequence sees, among the files of a level. `target` is
/// both, as a put.
fn newest_at_level<C: Comparator, F: Folder>(
    alloc: Global,
    folder: &mut F,
    files: &[&FileMeta],
    target: InternalKey<'_>,
) -> Result<Option<OwnedEntry>, Fault>
    requires { kind_of target.bytes.now ≡ Put }
    ensures given { (tables : List NumberedContents) → HoldTables (F.tells folder.old) tables →
        All (λ f. IsFileOf C.cmp tables f.now) files.now →
        Gives result
        (λ found. IsAnswer (flat_map (λ f. table_entries tables f.now.number) files.now)
        (user_of target.entry.bytes.now) (sequence_of target.entry.bytes.now)
        (option_map visible_of found)) }
    ensures device { ReportsDevice F.Folder folder.old folder.new result }
    ensures reads { OnlyReads F.Folder folder.old folder.new }
{
    let mut newest = None;
    for file in files {
        if !may_hold::<C>(file, target.user()) {
            continue;
        }
        let found = newest_in_file::<C, F>(alloc, folder, file, target)?;
        newest = newer(newest, found);
    }
    Ok(newest)
}
