//! The sizes of a version's tables, before they are read.

use crate::system::{MAX_FILE_LEN, length_in};
use folder::{old_table_name, table_name};
use ikey::Fault;
use std::alloc::Global;
use std::rt::Files;

/// What is known of a table before it is read.
#[derive(Clone, Copy, Drop, PartialEq, Eq)]
enum Size {
    Missing,
    Readable,
    TooLarge,
    /// The system doesn't tell.
    Unknown,
}

/// What is known of tables before they are read.
#[derive(Clone, Copy)]
pub(crate) enum Sizes {
    /// Each is there and can be read.
    Readable,
    /// Each is there, and that of this number is the first with more than 2^30 bytes.
    TooLarge(u64),
    /// That of this number is the first that is missing.
    Missing(u64),
}

/// What is known of the tables of these `numbers`. Those from the first one on that the system
/// tells nothing of are left out.
pub(crate) fn sizes_in<R: Files>(
    rt: &R,
    alloc: Global,
    folder: &str,
    numbers: &[u64],
) -> Result<Sizes, Fault> {
    let mut sizes = Sizes::Readable;
    for number in numbers {
        match (size_in(rt, alloc, folder, *number)?, sizes) {
            (Size::Missing, _) => return Ok(Sizes::Missing(*number)),
            (Size::Unknown, _) => return Ok(sizes),
            (Size::TooLarge, Sizes::Readable) => sizes = Sizes::TooLarge(*number),
            _ => {}
        }
    }
    Ok(sizes)
}

/// What is known of the table of a number.
fn size_in<R: Files>(rt: &R, alloc: Global, folder: &str, number: u64) -> Result<Size, Fault> {
    let size = size_of(rt, alloc, folder, table_name(alloc, number)?.as_str());
    if size == Size::Missing {
        let older = old_table_name(alloc, number)?;
        return Ok(size_of(rt, alloc, folder, older.as_str()));
    }
    Ok(size)
}

/// What is known of the table of this `name`.
fn size_of<R: Files>(rt: &R, alloc: Global, folder: &str, name: &str) -> Size {
    match length_in(rt, alloc, folder, name) {
        Ok(None) => Size::Missing,
        Ok(Some(length)) if length > MAX_FILE_LEN => Size::TooLarge,
        Ok(Some(_)) => Size::Readable,
        Err(_) => Size::Unknown,
    }
}
