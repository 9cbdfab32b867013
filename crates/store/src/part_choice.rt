//! The parts of a level.

ghost use Rattle.std.specs.Prelude.{map};
ghost use Rattle.folder.specs.Answers.{HoldsOrMemory};
ghost use Rattle.folder.specs.Orders.{order_cmp};
ghost use Rattle.pick.specs.PickedInputs.{picked_in};
ghost use Rattle.store.specs.InputsCompaction.{ArePartsFound};

use crate::version_files::test_files;
use folder::{Bytewise, Comparator, Fault, Opened, Order, Shortlex, Version};
use pick::{Inputs, finest_parts};
use std::alloc::Global;

/// The finest parts of a `level` of what a folder was `opened` as, in the order of their first
/// files. No table is read. None if the level has no file.
///
/// The first that applies: Lawless, if a file's number isn't below next file, or the files of a
/// level from 1 on don't rise; Level, if the level is above 5; Lawless, if a file of the level or
/// the next one ends before it begins, by user keys.
pub fn parts_to_compact(alloc: Global, opened: &Opened, level: u64) -> Result<Vec<Inputs>, Fault>
    ensures { HoldsOrMemory (λ v. map picked_in v.items) result
        (ArePartsFound (order_cmp opened.now.order) opened.now.version level) }
{
    match opened.order {
        Order::Bytewise => tested_parts::<Bytewise>(alloc, &opened.version, level),
        Order::Shortlex => tested_parts::<Shortlex>(alloc, &opened.version, level),
    }
}

/// The finest parts of a `level` of a version whose files are tested first.
fn tested_parts<C: Comparator>(
    alloc: Global,
    version: &Version,
    level: u64,
) -> Result<Vec<Inputs>, Fault>
    ensures { HoldsOrMemory (λ v. map picked_in v.items) result
        (ArePartsFound C.cmp version.now level) }
{
    test_files::<C>(alloc, version)?;
    finest_parts::<C>(alloc, version, level)
}
