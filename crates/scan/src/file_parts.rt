//! Parts of a table's file.

ghost use Rattle.std.specs.Prelude.{◌≡◌, ◌+◌, ◌≤◌, ℕ, List, Ok, Some, length, take, drop, IfOk};
ghost use Rattle.std.specs.Prelude.{string_bytes};
ghost use Rattle.folder.specs.Reports.{OnlyReads, ReportsDevice};
ghost use Rattle.table.specs.IndexReading.{stored_at};
ghost use Rattle.scan.specs.FolderTables.{HoldsTable, TellsJust};
ghost use Rattle.scan.specs.Excuses.{Gives};
ghost use Rattle.scan.specs.SearchAnswers.{IsFileOfBytes, len_with_trailer};
ghost use Rattle.table.specs.declared.trailer.TheConstants.{TRAILER_LEN};

use folder::{Folder, old_table_name, table_name};
use std::alloc::Global;
use table::{BlockHandle, FOOTER_LEN, Fault, FaultName, TRAILER_LEN};

#[derive(Drop)]
pub(crate) struct TableFile {
    pub name: String,
    /// Its length in bytes, as the version states it.
    pub size: u64,
}

/// The name of the file of a table: the first one, or the older one if no file has that.
pub(crate) fn name_of<F: Folder>(
    alloc: Global,
    folder: &mut F,
    number: u64,
) -> Result<String, Fault>
    ensures given { (bytes : List ℕ) → HoldsTable (F.tells folder.old) number bytes →
        Gives result (λ name. TellsJust (F.tells folder.old) (string_bytes name) (Some bytes)) }
    ensures device { ReportsDevice F.Folder folder.old folder.new result }
    ensures reads { OnlyReads F.Folder folder.old folder.new }
{
    let name = table_name(alloc, number)?;
    let older = old_table_name(alloc, number)?;
    match folder.read_part(name.as_str(), 0, 0)? {
        Some(_) => Ok(name),
        None => Ok(older),
    }
}

/// The `len` bytes of a file from `offset` on. Missing if no file has the name, Short if it ends
/// before them.
pub(crate) fn part<F: Folder>(
    folder: &mut F,
    name: &str,
    offset: u64,
    len: usize,
) -> Result<Vec<u8>, Fault>
    ensures given { (bytes : List ℕ) → TellsJust (F.tells folder.old) name.now (Some bytes) →
        offset + len ≤ length bytes →
        Gives result (λ part. part.items ≡ take len (drop offset bytes)) }
    ensures long { IfOk result (λ part. length part.items ≡ len) }
    ensures device { ReportsDevice F.Folder folder.old folder.new result }
    ensures reads { OnlyReads F.Folder folder.old folder.new }
{
    let Some(bytes) = folder.read_part(name, offset, len)? else {
        return Err(Fault::of(FaultName::Missing));
    };
    if bytes.len() != len {
        return Err(Fault::of(FaultName::Short));
    }
    Ok(bytes)
}

/// The block that `handle` points at, as it is stored in a table's file. Range unless it is before
/// the footer.
pub(crate) fn stored_block<F: Folder>(
    folder: &mut F,
    file: &TableFile,
    handle: BlockHandle,
) -> Result<Vec<u8>, Fault>
    ensures given { (bytes stored : List ℕ) → IsFileOfBytes (F.tells folder.old) file.now bytes →
        stored_at bytes handle ≡ Ok stored → Gives result (λ part. part.items ≡ stored) }
    ensures long { IfOk result (λ part. TRAILER_LEN ≤ length part.items) }
    ensures device { ReportsDevice F.Folder folder.old folder.new result }
    ensures reads { OnlyReads F.Folder folder.old folder.new }
{
    let len = stored_len(file.size, handle)?;
    part(folder, file.name.as_str(), handle.offset, len)
}

/// The length of that block with its trailer. Range unless it is before the footer of a table of
/// `size` bytes.
pub(crate) fn stored_len(size: u64, handle: BlockHandle) -> Result<usize, Fault>
    ensures { result ≡ len_with_trailer size handle }
{
    let Some(room) = size.checked_sub((FOOTER_LEN + TRAILER_LEN) as u64) else {
        return Err(Fault::of(FaultName::Range));
    };
    if handle.size > room || handle.offset > room - handle.size {
        return Err(Fault::of(FaultName::Range));
    }
    Ok(handle.size as usize + TRAILER_LEN)
}
