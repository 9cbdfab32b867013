//! The file of a table, and which new table is not as an edit states it. No contract says which one
//! it is.

ghost use Rattle.folder.specs.Reports.{OnlyReads};

use coding::Fault;
use edit::{FileMeta, VersionEdit};
use faults::FileFault;
use folder::{Folder, Order, old_table_name, table_name};
use ikey::{Bytewise, Comparator, Shortlex};
use std::alloc::Global;
use table::check;

/// The number of the first new table of an edit that is not as the edit states it, in its order,
/// and what is wrong with it. None if there is none before one that can't be read. It only reads.
pub fn unlike_edit<F: Folder>(
    alloc: Global,
    folder: &mut F,
    order: Order,
    edit: &VersionEdit,
) -> Result<Option<(u64, FileFault)>, Fault>
    ensures reads { OnlyReads F.Folder folder.old folder.new }
{
    for file in &edit.added {
        let found = match order {
            Order::Bytewise => unlike_stated::<Bytewise, F>(alloc, folder, &file.meta)?,
            Order::Shortlex => unlike_stated::<Shortlex, F>(alloc, folder, &file.meta)?,
        };
        if let Some(fault) = found {
            return Ok(Some((file.meta.number, fault)));
        }
    }
    Ok(None)
}

/// In what a table is not as it is stated. None if it is, or if it is missing.
fn unlike_stated<C: Comparator, F: Folder>(
    alloc: Global,
    folder: &mut F,
    meta: &FileMeta,
) -> Result<Option<FileFault>, Fault>
    ensures reads { OnlyReads F.Folder folder.old folder.new }
{
    let Some((_, bytes)) = table_file(alloc, folder, meta.number)? else {
        return Ok(None);
    };
    let sound = check::<C>(alloc, &bytes)?;
    let held = bytes.len() as u64;
    let stated = meta.size;
    if held != stated {
        return Ok(Some(FileFault::Length { held, stated }));
    }
    if sound.smallest().bytes() != meta.smallest.as_key().bytes() {
        return Ok(Some(FileFault::Smallest));
    }
    if sound.largest().bytes() != meta.largest.as_key().bytes() {
        return Ok(Some(FileFault::Largest));
    }
    Ok(None)
}

/// The name and the bytes of the table of a number, under its name or its older one.
pub(crate) fn table_file<F: Folder>(
    alloc: Global,
    folder: &mut F,
    number: u64,
) -> Result<Option<(String, Vec<u8>)>, Fault>
    ensures reads { OnlyReads F.Folder folder.old folder.new }
{
    let name = table_name(alloc, number)?;
    if let Some(bytes) = folder.read(name.as_str())? {
        return Ok(Some((name, bytes)));
    }
    let name = old_table_name(alloc, number)?;
    match folder.read(name.as_str())? {
        Some(bytes) => Ok(Some((name, bytes))),
        None => Ok(None),
    }
}
