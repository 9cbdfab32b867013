//! Putting the places of new files into the map of places by number.

ghost use Rattle.std.specs.Prelude.{◌≡◌, ◌+◌, ◌<◌, ◌^◌, length, fold, IfOk, IfErr, OnOk};
ghost use Rattle.std.specs.BTreeMap.{IsOrdered};
ghost use Rattle.std.specs.Ordering.{nat_cmp};
ghost use Rattle.coding.specs.Answers.{fault};
ghost use Rattle.coding.specs.declared.fault.FaultName.TheVariants.{Memory};
ghost use Rattle.edit.specs.FilePlaces.{file_places_from, with_place};

use crate::meta::NewFile;
use coding::Fault;
use std::alloc::Global;
use std::collections::BTreeMap;

/// Up to this many files are few, whatever the map holds.
const FEW: usize = 16;

/// Files are few if the map holds at least this many times as many.
const SHARE: usize = 4;

/// Puts the places of `files`, which count from `first`, into the map under their numbers. A place
/// under the same number is replaced.
///
/// Few files take, each, a time that grows with the logarithm of the map's length. More are merged
/// with the map in one pass.
pub(crate) fn insert_all(
    alloc: Global,
    places: &mut BTreeMap<u64, usize>,
    first: usize,
    files: &[NewFile],
) -> Result<(), Fault>
    requires { first + length files.now < 2 ^ 64 }
    ensures ok { OnOk result
        (places.new.entries
        ≡ fold with_place places.old.entries (file_places_from first files.now)) }
    ensures memory { IfErr result (λ e. e ≡ fault Memory) }
{
    if files.len() <= FEW.max(places.len() / SHARE) {
        insert_each(places, first, files)
    } else {
        insert_together(alloc, places, first, files)
    }
}

/// `insert_all`, one file after the other.
fn insert_each(
    places: &mut BTreeMap<u64, usize>,
    first: usize,
    files: &[NewFile],
) -> Result<(), Fault>
    requires { first + length files.now < 2 ^ 64 }
    ensures ok { OnOk result
        (places.new.entries
        ≡ fold with_place places.old.entries (file_places_from first files.now)) }
    ensures memory { IfErr result (λ e. e ≡ fault Memory) }
{
    let mut place = first;
    for file in files {
        places.insert(file.meta.number, place)?;
        place += 1;
    }
    Ok(())
}

/// `insert_all`, by merging the map with one of the new places.
fn insert_together(
    alloc: Global,
    places: &mut BTreeMap<u64, usize>,
    first: usize,
    files: &[NewFile],
) -> Result<(), Fault>
    requires room { first + length files.now < 2 ^ 64 }
    requires ordered { IsOrdered nat_cmp places.old }
    ensures ok { OnOk result
        (places.new.entries
        ≡ fold with_place places.old.entries (file_places_from first files.now)) }
    ensures memory { IfErr result (λ e. e ≡ fault Memory) }
{
    let entries = numbered(alloc, first, files)?;
    let mut new: BTreeMap<u64, usize> = entries.into_iter().collect(alloc)?;
    places.append(&mut new)?;
    Ok(())
}

/// The numbers of `files`, each with its place, counted from `first`.
fn numbered(alloc: Global, first: usize, files: &[NewFile]) -> Result<Vec<(u64, usize)>, Fault>
    requires { first + length files.now < 2 ^ 64 }
    ensures ok { IfOk result (λ v. v.items ≡ file_places_from first files.now) }
    ensures memory { IfErr result (λ e. e ≡ fault Memory) }
{
    let mut entries = Vec::with_capacity(alloc, files.len())?;
    let mut place = first;
    for file in files {
        entries.push((file.meta.number, place))?;
        place += 1;
    }
    Ok(entries)
}
