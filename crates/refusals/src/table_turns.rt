//! The tables of a version, of which one is too large to be read: each is refused in its turn.

use crate::stated_tables::table_file;
use coding::{Fault, FaultName};
use disk::{Disk, SystemFiles};
use folder::{Opened, Order, Version, file_numbers};
use ikey::{Bytewise, Comparator, Shortlex};
use session::{Refusal, large_table, path_in, refused_opened, size_refusal};
use std::alloc::Global;
use table::check;

/// Tests whether each table of a version is there and has at most 2^30 bytes. Missing if one is
/// missing. If one is too large, the first table is refused, by level and in version order, that is
/// invalid: that one as Size, or one before it. No table is read if none is too large.
pub fn sizes_in_turn<R: SystemFiles + AllocGlobal>(
    rt: &R,
    path: &str,
    opened: &Opened,
) -> Result<(), Refusal> {
    let Some(large) = large_table(rt, path, opened)? else {
        return Ok(());
    };
    let alloc = rt.alloc();
    let mut folder = Disk::new(rt, path);
    let version = &opened.version;
    let found = match opened.order {
        Order::Bytewise => refused_before::<Bytewise, R>(alloc, &mut folder, version, large),
        Order::Shortlex => refused_before::<Shortlex, R>(alloc, &mut folder, version, large),
    };
    match found {
        Ok(None) => Err(size_refusal(rt, path, large)),
        Ok(Some((file, fault))) => {
            let file = path_in(alloc, path, file.as_str())?;
            Err(Refusal::of_file(alloc, file.as_str(), fault))
        }
        Err(fault) => Err(refused_opened(rt, path, &folder, Some(opened.manifest), fault)),
    }
}

/// The name of the first table that is invalid before that of the number `end`, and why it is.
fn refused_before<C: Comparator, R: SystemFiles + AllocGlobal>(
    alloc: Global,
    folder: &mut Disk<'_, R>,
    version: &Version,
    end: u64,
) -> Result<Option<(String, Fault)>, Fault> {
    for number in &file_numbers::<C>(alloc, version)? {
        if *number == end {
            return Ok(None);
        }
        let Some((name, bytes)) = table_file(alloc, folder, *number)? else {
            return Err(Fault::of(FaultName::Missing));
        };
        match check::<C>(alloc, &bytes) {
            Ok(_) => {}
            Err(fault) if fault.name == FaultName::Memory => return Err(fault),
            Err(fault) => return Ok(Some((name, fault))),
        }
    }
    Ok(None)
}
