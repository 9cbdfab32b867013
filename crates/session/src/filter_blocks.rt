//! Whether tables have filter blocks. No contract says which ones do.

ghost use Rattle.folder.specs.Reports.{OnlyReads};

use coding::Fault;
use folder::{Folder, old_table_name, table_name};
use std::alloc::Global;
use table::{BlockHandle, FOOTER_LEN, Footer};

/// How the name of a filter block begins in a table's metaindex.
const FILTER: &[u8] = b"filter.";

/// How many bytes of a metaindex are read: LevelDB's has one short name.
const METAINDEX_LEN: u64 = 4_096;

/// Whether one of these tables of a folder, given by number and length, has a filter block, by the
/// name of one in its metaindex. It only reads: of each table its footer and its metaindex, until
/// one has a filter.
///
/// A table that can't be read has none. Device: a call failed, and no further call is made. Memory:
/// out of memory.
pub fn have_filter<F: Folder>(
    alloc: Global,
    folder: &mut F,
    files: &[(u64, u64)],
) -> Result<bool, Fault>
    ensures reads { OnlyReads F.Folder folder.old folder.new }
{
    for file in files {
        if has_filter(alloc, folder, *file)? {
            return Ok(true);
        }
    }
    Ok(false)
}

/// Whether a table has a filter block.
fn has_filter<F: Folder>(alloc: Global, folder: &mut F, file: (u64, u64)) -> Result<bool, Fault>
    ensures reads { OnlyReads F.Folder folder.old folder.new }
{
    let Some(handle) = metaindex_of(alloc, folder, file)? else {
        return Ok(false);
    };
    let len = handle.size.min(METAINDEX_LEN) as usize;
    match part_of(alloc, folder, file.0, handle.offset, len)? {
        Some(bytes) => Ok(names_filter(&bytes)),
        None => Ok(false),
    }
}

/// Where a table's metaindex is. None if its footer can't be read.
fn metaindex_of<F: Folder>(
    alloc: Global,
    folder: &mut F,
    file: (u64, u64),
) -> Result<Option<BlockHandle>, Fault>
    ensures reads { OnlyReads F.Folder folder.old folder.new }
{
    let (number, size) = file;
    let offset = size.saturating_sub(FOOTER_LEN as u64);
    let Some(bytes) = part_of(alloc, folder, number, offset, FOOTER_LEN)? else {
        return Ok(None);
    };
    if bytes.len() != FOOTER_LEN {
        return Ok(None);
    }
    Ok(Footer::read(&bytes).ok().map(|footer| footer.metaindex))
}

/// The `len` bytes from `offset` on of the table of a number, or as many as it has there. None if
/// there is no such table.
fn part_of<F: Folder>(
    alloc: Global,
    folder: &mut F,
    number: u64,
    offset: u64,
    len: usize,
) -> Result<Option<Vec<u8>>, Fault>
    ensures reads { OnlyReads F.Folder folder.old folder.new }
{
    let name = table_name(alloc, number)?;
    let part = folder.read_part(name.as_str(), offset, len)?;
    if part.is_some() {
        return Ok(part);
    }
    let name = old_table_name(alloc, number)?;
    Ok(folder.read_part(name.as_str(), offset, len)?)
}

/// Whether the bytes of a metaindex name a filter.
fn names_filter(metaindex: &[u8]) -> bool {
    for place in 0..metaindex.len() {
        if metaindex[place..].starts_with(FILTER) {
            return true;
        }
    }
    false
}
