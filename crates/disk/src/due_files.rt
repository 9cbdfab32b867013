//! The files on which a version rests.

use crate::pending_files::Due;
use edit::Version;
use folder::{CURRENT, Order, file_numbers, manifest_name, old_table_name, table_name};
use ikey::{Bytewise, Fault, Shortlex};
use std::alloc::Global;

/// The files on which a version rests: CURRENT, the `manifest` of that number, and each table under
/// its first name, or its older one. None is synced yet.
pub(crate) fn files_due(
    alloc: Global,
    order: Order,
    version: &Version,
    manifest: u64,
) -> Result<Vec<Due>, Fault> {
    let numbers = numbers_in(alloc, order, version)?;
    let mut files = Vec::with_capacity(alloc, numbers.len().saturating_add(2))?;
    files.push(due(String::from_str(alloc, CURRENT)?, None))?;
    files.push(due(manifest_name(alloc, manifest)?, None))?;
    for number in numbers.iter() {
        let older = old_table_name(alloc, *number)?;
        files.push(due(table_name(alloc, *number)?, Some(older)))?;
    }
    Ok(files)
}

/// A file that is not synced yet.
fn due(name: String, older: Option<String>) -> Due {
    Due {
        name,
        older,
        answer: None,
    }
}

/// The numbers of a version's files in an order, as [`load`](folder::load) asks for their tables.
pub(crate) fn numbers_in(
    alloc: Global,
    order: Order,
    version: &Version,
) -> Result<Vec<u64>, Fault> {
    match order {
        Order::Bytewise => file_numbers::<Bytewise>(alloc, version),
        Order::Shortlex => file_numbers::<Shortlex>(alloc, version),
    }
}
