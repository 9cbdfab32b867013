//! The blocks of a table, read from its file.

ghost use Rattle.std.specs.Prelude.{◌≡◌, ◌≢◌, ◌≤◌, ℕ, List, Ok, length, IfOk, IfErr};
ghost use Rattle.table.specs.fault.FaultName.TheVariants.{Device};
ghost use Rattle.block.specs.EncodedEntry.{Entry};
ghost use Rattle.folder.specs.Reports.{OnlyReads, ReportsDevice};
ghost use Rattle.table.specs.Handle.{handle_reading};
ghost use Rattle.table.specs.Footer.{footer_reading};
ghost use Rattle.table.specs.declared.footer.TheConstants.{FOOTER_LEN};
ghost use Rattle.table.specs.declared.trailer.TheConstants.{TRAILER_LEN};
ghost use Rattle.table.specs.IndexWalk.{block_named};
ghost use Rattle.table.specs.IndexReading.{block_in, one_handle};
ghost use Rattle.table.specs.TableContents.{index_in};
ghost use Rattle.scan.specs.Excuses.{Gives};
ghost use Rattle.scan.specs.SearchAnswers.{IsFileOfBytes, index_handle};

use crate::file_parts::{TableFile, part, stored_block, stored_len};
use folder::Folder;
use table::{BlockHandle, FOOTER_LEN, Fault, FaultName, Footer, MAX_TABLE_LEN};

/// The index block of a table, as it is stored. Tested are the length, the footer, and that the
/// metaindex and the index are before it.
pub(crate) fn index_block<F: Folder>(folder: &mut F, file: &TableFile) -> Result<Vec<u8>, Fault>
    ensures given { (bytes : List ℕ) (names : List Entry) →
        IsFileOfBytes (F.tells folder.old) file.now bytes → index_in bytes ≡ Ok names →
        Gives result (λ stored. block_in stored.items ≡ Ok names) }
    ensures long { IfOk result (λ stored. TRAILER_LEN ≤ length stored.items) }
    ensures device { ReportsDevice F.Folder folder.old folder.new result }
    ensures reads { OnlyReads F.Folder folder.old folder.new }
{
    if file.size > MAX_TABLE_LEN as u64 {
        return Err(Fault::of(FaultName::Size));
    }
    if file.size < FOOTER_LEN as u64 {
        return Err(Fault::of(FaultName::Short));
    }
    let start = file.size - FOOTER_LEN as u64;
    let footer = part(folder, file.name.as_str(), start, FOOTER_LEN)?;
    let handle = index_handle(&footer, file.size)?;
    stored_block(folder, file, handle)
}

/// The handle of the index in a footer. Refused as a table of `size` bytes with this footer is.
fn index_handle(footer: &[u8], size: u64) -> Result<BlockHandle, Fault>
    requires { length footer.now ≡ FOOTER_LEN }
    ensures { result ≡ index_handle size footer.now }
{
    let footer = Footer::read(footer)?;
    stored_len(size, footer.metaindex)?;
    stored_len(size, footer.index)?;
    Ok(footer.index)
}

/// The data block whose handle `value` spells, as it is stored.
pub(crate) fn data_block<F: Folder>(
    folder: &mut F,
    file: &TableFile,
    value: &[u8],
) -> Result<Vec<u8>, Fault>
    ensures given { (bytes : List ℕ) (entries : List Entry) →
        IsFileOfBytes (F.tells folder.old) file.now bytes →
        block_named bytes value.now ≡ Ok entries →
        Gives result (λ stored. block_in stored.items ≡ Ok entries) }
    ensures long { IfOk result (λ stored. TRAILER_LEN ≤ length stored.items) }
    ensures device { ReportsDevice F.Folder folder.old folder.new result }
    ensures reads { OnlyReads F.Folder folder.old folder.new }
{
    let handle = handle_in(value)?;
    stored_block(folder, file, handle)
}

/// The one handle that bytes are; Handle if they are invalid.
fn handle_in(value: &[u8]) -> Result<BlockHandle, Fault>
    ensures { result ≡ one_handle (handle_reading value.now) }
{
    let Some(found) = BlockHandle::read(value) else {
        return Err(Fault::of(FaultName::Handle));
    };
    if !found.rest.is_empty() {
        return Err(Fault::of(FaultName::Handle));
    }
    Ok(found.handle)
}
