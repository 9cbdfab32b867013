//! The edit that makes a version of an empty one.

ghost use Rattle.std.specs.Prelude.{◌≡◌, ◌++◌, map, IfOk, IfErr, OnOk};
ghost use Rattle.coding.specs.Answers.{fault};
ghost use Rattle.coding.specs.declared.fault.FaultName.TheVariants.{Memory};
ghost use Rattle.edit.specs.VersionOrder.{in_version_order, files_at, pointer_entry, at_level};
ghost use Rattle.edit.specs.VersionOrder.{added_from};
ghost use Rattle.edit.specs.declared.meta.TheConstants.{LEVELS};

use crate::files::Files;
use crate::meta::{CompactPointer, FileMeta, LEVELS, NewFile};
use crate::version_order::ordered_at;
use coding::Fault;
use ikey::{Comparator, KeyBuf};
use std::alloc::Global;
use std::collections::BTreeMap;

/// All files as new files, by level and in version order.
pub(crate) fn all_added<C: Comparator>(alloc: Global, files: &Files) -> Result<Vec<NewFile>, Fault>
    ensures ok { IfOk result (λ v. v.items ≡ added_from C.cmp files.now 0 LEVELS) }
    ensures memory { IfErr result (λ e. e ≡ fault Memory) }
{
    let mut added = Vec::with_capacity(alloc, files.len())?;
    for level in 0..LEVELS {
        push_level::<C>(alloc, &mut added, files, level)?;
    }
    Ok(added)
}

/// The compact pointers by level.
pub(crate) fn all_pointers(
    alloc: Global,
    pointers: &BTreeMap<u64, KeyBuf>,
) -> Result<Vec<CompactPointer>, Fault>
    ensures ok { IfOk result (λ v. v.items ≡ map pointer_entry pointers.now.entries) }
    ensures memory { IfErr result (λ e. e ≡ fault Memory) }
{
    let mut all = Vec::new(alloc);
    for (level, key) in pointers.iter() {
        all.push(CompactPointer {
            level: *level,
            key: KeyBuf::of(alloc, key.as_key())?,
        })?;
    }
    Ok(all)
}

/// Appends the files of `level` as new files, in version order.
fn push_level<C: Comparator>(
    alloc: Global,
    added: &mut Vec<NewFile>,
    files: &Files,
    level: u64,
) -> Result<(), Fault>
    ensures ok { OnOk result (added.new.items ≡
        added.old.items
        ++ map (at_level level) (in_version_order C.cmp (files_at files.now level))) }
    ensures memory { IfErr result (λ e. e ≡ fault Memory) }
{
    let ordered = ordered_at::<C>(alloc, files, level)?;
    push_at_level(alloc, added, level, &ordered)?;
    Ok(())
}

/// Appends copies of `files` as new files of `level`.
fn push_at_level(
    alloc: Global,
    added: &mut Vec<NewFile>,
    level: u64,
    files: &[&FileMeta],
) -> Result<(), Fault>
    ensures ok { OnOk result
        (added.new.items ≡ added.old.items ++ map (λ f. at_level level f.now) files.now) }
    ensures memory { IfErr result (λ e. e ≡ fault Memory) }
{
    for file in files {
        let meta = file.copy(alloc)?;
        added.push(NewFile { level, meta })?;
    }
    Ok(())
}
