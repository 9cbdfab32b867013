//! The test of a file's table in a folder.

ghost use Rattle.std.specs.Prelude.{◌≡◌, map, Ok, IfOk};
ghost use Rattle.table.specs.Answers.{EqualOrMemory};
ghost use Rattle.folder.specs.Calls.{Files, Tells};
ghost use Rattle.folder.specs.OpenAnswer.{FolderAnswers};
ghost use Rattle.folder.specs.Reports.{OnlyReads, ReportsDevice};
ghost use Rattle.table.specs.TableContents.{contents_reading};
ghost use Rattle.reads.specs.FileList.{level_file_in};
ghost use Rattle.faults.specs.FileFaults.{file_reading};
ghost use Rattle.faults.specs.Findings.{IsTestAnswer, finding_of, finding_under, found_in};

use folder::{FileMeta, Folder, old_table_name, table_name};
use reads::LevelFile;
use std::alloc::Global;
use table::{Comparator, Fault, FaultName, MAX_TABLE_LEN, SoundTable, check};

/// What the test of a file's table finds.
#[derive(Clone, Copy)]
pub(crate) enum TableFinding {
    /// The table is missing, or invalid: the name of the first test that it fails.
    Unreadable(FaultName),
    /// It can be read.
    Readable {
        /// Its bytes.
        length: u64,
        /// Whether its smallest key is the one that the version states.
        has_smallest: bool,
        /// Whether its largest key is the one that the version states.
        has_largest: bool,
    },
}

/// A file of a version, and what the test of its table finds.
#[derive(Clone, Copy)]
pub(crate) struct TestedFile<'v> {
    pub file: LevelFile<'v>,
    pub finding: TableFinding,
}

/// The files in order, each with what the test of its table finds. It only reads.
///
/// One table is in memory at a time. If the device fails a call, the answer is Device and no
/// further call is made. The only other fault is Memory.
pub(crate) fn tested_files<'v, C: Comparator, F: Folder>(
    alloc: Global,
    folder: &mut F,
    files: &[LevelFile<'v>],
) -> Result<Vec<TestedFile<'v>>, Fault>
    ensures answer { (held : Files) → Tells (F.tells folder.old) held →
        FolderAnswers (λ v. map found_in v.items) (F.failed folder.old) (F.failed folder.new) result
        (IsTestAnswer C.cmp held (map level_file_in files.now)) }
    ensures files { IfOk result
        (λ v. map (λ t. level_file_in t.file) v.items ≡ map level_file_in files.now) }
    ensures device { ReportsDevice F.Folder folder.old folder.new result }
    ensures reads { OnlyReads F.Folder folder.old folder.new }
{
    let mut tested = Vec::with_capacity(alloc, files.len())?;
    for file in files {
        let finding = table_finding::<C, F>(alloc, folder, file.meta)?;
        tested.push(TestedFile {
            file: *file,
            finding,
        })?;
    }
    Ok(tested)
}

/// What the test of a file's table finds. It only reads.
fn table_finding<C: Comparator, F: Folder>(
    alloc: Global,
    folder: &mut F,
    file: &FileMeta,
) -> Result<TableFinding, Fault>
    ensures answer { (held : Files) → Tells (F.tells folder.old) held →
        FolderAnswers (λ finding. finding) (F.failed folder.old) (F.failed folder.new) result
        (λ answer. answer ≡ Ok (finding_of file.now (file_reading C.cmp held file.now.number))) }
    ensures device { ReportsDevice F.Folder folder.old folder.new result }
    ensures reads { OnlyReads F.Folder folder.old folder.new }
{
    let name = table_name(alloc, file.number)?;
    let old_name = old_table_name(alloc, file.number)?;
    let first = named_finding::<C, F>(alloc, folder, name.as_str(), file)?;
    if let Some(finding) = first {
        return Ok(finding);
    }
    let second = named_finding::<C, F>(alloc, folder, old_name.as_str(), file)?;
    Ok(second.unwrap_or(TableFinding::Unreadable(FaultName::Missing)))
}

/// What the test of a file's table under a name finds. None if no file has this name. It only
/// reads: one byte at most of a table that is too long.
fn named_finding<C: Comparator, F: Folder>(
    alloc: Global,
    folder: &mut F,
    name: &str,
    file: &FileMeta,
) -> Result<Option<TableFinding>, Fault>
    ensures answer { (held : Files) → Tells (F.tells folder.old) held →
        FolderAnswers (λ finding. finding) (F.failed folder.old) (F.failed folder.new) result
        (λ answer. answer ≡ Ok (finding_under C.cmp file.now (held name.now))) }
    ensures device { ReportsDevice F.Folder folder.old folder.new result }
    ensures reads { OnlyReads F.Folder folder.old folder.new }
{
    let Some(part) = folder.read_part(name, MAX_TABLE_LEN as u64, 1)? else {
        return Ok(None);
    };
    if !part.as_slice().is_empty() {
        return Ok(Some(TableFinding::Unreadable(FaultName::Size)));
    }
    match folder.read(name)? {
        Some(bytes) => Ok(Some(finding_in::<C>(alloc, file, &bytes)?)),
        None => Ok(None),
    }
}

/// What the test of the bytes of a file's table finds.
fn finding_in<C: Comparator>(
    alloc: Global,
    file: &FileMeta,
    bytes: &[u8],
) -> Result<TableFinding, Fault>
    ensures { EqualOrMemory (λ finding. finding) result
        (Ok (finding_of file.now (contents_reading C.cmp bytes.now))) }
{
    match check::<C>(alloc, bytes) {
        Ok(table) => Ok(readable(file, &table)),
        Err(refused) => match refused.name {
            FaultName::Memory => Err(Fault::of(FaultName::Memory)),
            name => Ok(TableFinding::Unreadable(name)),
        },
    }
}

/// What is found of a file's table that can be read.
fn readable<C: Comparator>(file: &FileMeta, table: &SoundTable<'_, C>) -> TableFinding
    ensures { result ≡ finding_of file.now (Ok table.now) }
{
    let smallest = table.smallest();
    let largest = table.largest();
    TableFinding::Readable {
        length: table.bytes().len() as u64,
        has_smallest: file.smallest.as_key().bytes() == smallest.bytes(),
        has_largest: file.largest.as_key().bytes() == largest.bytes(),
    }
}
