//! Copies of what edits and versions hold.

ghost use Rattle.std.specs.Prelude.{◌≡◌, IfOk, IfErr};
ghost use Rattle.std.specs.Option.{option_map};
ghost use Rattle.std.specs.String.{string_bytes};
ghost use Rattle.coding.specs.Answers.{fault};
ghost use Rattle.coding.specs.declared.fault.FaultName.TheVariants.{Memory};

use crate::meta::{CompactPointer, NewFile};
use coding::Fault;
use ikey::KeyBuf;
use std::alloc::Global;
use std::collections::BTreeMap;

/// Copies of `files`.
pub(crate) fn copied_files(alloc: Global, files: &[NewFile]) -> Result<Vec<NewFile>, Fault>
    ensures ok { IfOk result (λ v. v.items ≡ files.now) }
    ensures memory { IfErr result (λ e. e ≡ fault Memory) }
{
    let mut copies = Vec::with_capacity(alloc, files.len())?;
    for file in files {
        copies.push(file.copy(alloc)?)?;
    }
    Ok(copies)
}

/// Copies of the pointers of an edit.
pub(crate) fn copied_pointers(
    alloc: Global,
    pointers: &[CompactPointer],
) -> Result<Vec<CompactPointer>, Fault>
    ensures ok { IfOk result (λ v. v.items ≡ pointers.now) }
    ensures memory { IfErr result (λ e. e ≡ fault Memory) }
{
    let mut copies = Vec::with_capacity(alloc, pointers.len())?;
    for pointer in pointers {
        copies.push(CompactPointer {
            level: pointer.level,
            key: KeyBuf::of(alloc, pointer.key.as_key())?,
        })?;
    }
    Ok(copies)
}

/// A copy of the places of files.
pub(crate) fn copied_places(places: &BTreeMap<u64, usize>) -> Result<BTreeMap<u64, usize>, Fault>
    ensures ok { IfOk result (λ m. m.entries ≡ places.now.entries) }
    ensures memory { IfErr result (λ e. e ≡ fault Memory) }
{
    Ok(places.clone()?)
}

/// A copy of the pointers of a version, by level.
pub(crate) fn copied_by_level(
    alloc: Global,
    pointers: &BTreeMap<u64, KeyBuf>,
) -> Result<BTreeMap<u64, KeyBuf>, Fault>
    ensures ok { IfOk result (λ m. m.entries ≡ pointers.now.entries) }
    ensures memory { IfErr result (λ e. e ≡ fault Memory) }
{
    let mut copy = BTreeMap::new(alloc);
    for (level, key) in pointers.iter() {
        copy.insert(*level, KeyBuf::of(alloc, key.as_key())?)?;
    }
    Ok(copy)
}

/// A copy of a name, if there is one.
pub(crate) fn copied_name(alloc: Global, name: &Option<String>) -> Result<Option<String>, Fault>
    ensures ok { IfOk result (λ n. option_map string_bytes n ≡ option_map string_bytes name.now) }
    ensures memory { IfErr result (λ e. e ≡ fault Memory) }
{
    match name {
        Some(name) => Ok(Some(String::from_str(alloc, name.as_str())?)),
        None => Ok(None),
    }
}
