//! Reading a version's tables.

ghost use Rattle.std.specs.Prelude.{◌≡◌, ◌++◌, map, Ok, OnOk, IsOkUnless};
ghost use Rattle.ikey.specs.Answers.{EqualOrMemory, fault};
ghost use Rattle.ikey.specs.fault.FaultName.TheVariants.{Memory};
ghost use Rattle.folder.specs.Levels.{file_numbers};
ghost use Rattle.folder.specs.LoadedTables.{IsLoaded, IsTableAnswer};
ghost use Rattle.folder.specs.OpenAnswer.{FolderAnswers};
ghost use Rattle.folder.specs.Reports.{OnlyReads, ReportsDevice};

use crate::current_version::bytes_under;
use crate::folder::Folder;
use crate::names::{old_table_name, table_name};
use edit::{FileMeta, LEVELS, Version};
use ikey::{Comparator, Fault};
use std::alloc::Global;

/// The tables of a version's files with their numbers: by level, and in each level in version
/// order.
///
/// A table is the file `%06d.ldb`, or `%06d.sst` if there is no such file. It only reads.
///
/// - Missing: at the first table that has neither file.
/// - Device: a call failed. It makes no further call.
/// - Memory: out of memory.
pub fn load<C: Comparator, F: Folder>(
    alloc: Global,
    folder: &mut F,
    version: &Version,
) -> Result<Vec<(u64, Vec<u8>)>, Fault>
    ensures answer { FolderAnswers (λ v. map (λ t. (t.0, t.1.items)) v.items) (F.failed folder.old)
        (F.failed folder.new) result
        (IsLoaded (F.tells folder.old) (file_numbers C.cmp version.now)) }
    ensures device { ReportsDevice F.Folder folder.old folder.new result }
    ensures reads { OnlyReads F.Folder folder.old folder.new }
{
    let numbers = file_numbers::<C>(alloc, version)?;
    load_numbers(alloc, folder, &numbers)
}

/// The tables of these `numbers` in order, with their numbers. It only reads.
///
/// A table is read, and refused, as [`load`] does it of all files of a version.
pub fn load_numbers<F: Folder>(
    alloc: Global,
    folder: &mut F,
    numbers: &[u64],
) -> Result<Vec<(u64, Vec<u8>)>, Fault>
    ensures answer { FolderAnswers (λ v. map (λ t. (t.0, t.1.items)) v.items) (F.failed folder.old)
        (F.failed folder.new) result
        (IsLoaded (F.tells folder.old) numbers.now) }
    ensures device { ReportsDevice F.Folder folder.old folder.new result }
    ensures reads { OnlyReads F.Folder folder.old folder.new }
{
    let mut tables = Vec::with_capacity(alloc, numbers.len())?;
    for number in numbers {
        let bytes = table(alloc, folder, *number)?;
        tables.push((*number, bytes))?;
    }
    Ok(tables)
}

/// The bytes of the table of a `number`.
fn table<F: Folder>(alloc: Global, folder: &mut F, number: u64) -> Result<Vec<u8>, Fault>
    ensures answer { FolderAnswers (λ v. v.items) (F.failed folder.old) (F.failed folder.new) result
        (IsTableAnswer (F.tells folder.old) number) }
    ensures device { ReportsDevice F.Folder folder.old folder.new result }
    ensures reads { OnlyReads F.Folder folder.old folder.new }
{
    let name = table_name(alloc, number)?;
    let old_name = old_table_name(alloc, number)?;
    match folder.read(name.as_str())? {
        Some(bytes) => Ok(bytes),
        None => bytes_under(folder, old_name.as_str()),
    }
}

/// The numbers of a version's files: by level, and in each level in version order.
pub fn file_numbers<C: Comparator>(alloc: Global, version: &Version) -> Result<Vec<u64>, Fault>
    ensures { EqualOrMemory (λ v. v.items) result (Ok (file_numbers C.cmp version.now)) }
{
    let mut numbers = Vec::new(alloc);
    for level in 0..LEVELS {
        push_numbers(&mut numbers, &version.files::<C>(alloc, level)?)?;
    }
    Ok(numbers)
}

/// Appends the numbers of the files.
fn push_numbers(numbers: &mut Vec<u64>, files: &[&FileMeta]) -> Result<(), Fault>
    ensures ok { OnOk result (numbers.new.items ≡ numbers.old.items
        ++ map (λ f. f.now.number) files.now) }
    ensures memory { IsOkUnless result (fault Memory) }
{
    for file in files {
        numbers.push(file.number)?;
    }
    Ok(())
}
