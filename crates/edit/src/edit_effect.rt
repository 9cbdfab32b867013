//! What an edit makes of the files and the compact pointers of a version.

ghost use Rattle.std.specs.Prelude.{◌≡◌, true, false, if◌then◌else◌, Some, None, fold, IfOk, IfErr};
ghost use Rattle.std.specs.Prelude.{OnOk};
ghost use Rattle.std.specs.List.{list_all};
ghost use Rattle.std.specs.Option.{ok_or};
ghost use Rattle.coding.specs.Answers.{EqualOrMemory, fault};
ghost use Rattle.coding.specs.declared.fault.FaultName.TheVariants.{Apply, Memory};
ghost use Rattle.edit.specs.Version.{files_after, undeleted_files, has_place, are_new, with_file};
ghost use Rattle.edit.specs.Version.{with_pointer};

use crate::files::Files;
use crate::meta::{CompactPointer, DeletedFile, NewFile};
use coding::{Fault, FaultName};
use ikey::KeyBuf;
use std::collections::{BTreeMap, BTreeSet};

/// The files that no deletion names, and then the new ones.
///
/// Apply if a deletion names no file of its level, or if two new files have one number. Apply too
/// if a file that stays has the number of a new one.
pub(crate) fn files_after(
    files: Files,
    deleted: BTreeSet<DeletedFile>,
    added: Vec<NewFile>,
) -> Result<Files, Fault>
    ensures { EqualOrMemory (λ v. v) result
        (ok_or (files_after files deleted.keys added.items) (fault Apply)) }
{
    let mut kept = files;
    take_out_all(&mut kept, &deleted)?;
    put_in_all(kept, added)
}

/// Takes out each file that a deletion names. Apply, the only fault, if one names no file of its
/// level.
fn take_out_all(files: &mut Files, deleted: &BTreeSet<DeletedFile>) -> Result<(), Fault>
    ensures kept { OnOk result (files.new ≡ undeleted_files deleted.now.keys files.old) }
    ensures there { OnOk result (list_all (has_place files.old) deleted.now.keys ≡ true) }
    ensures refused { IfErr result (λ e. (e ≡ fault Apply) ×
        (list_all (has_place files.old) deleted.now.keys ≡ false)) }
{
    for place in deleted.iter() {
        if !files.take_out(*place) {
            return Err(Fault::of(FaultName::Apply));
        }
    }
    Ok(())
}

/// Puts in the new files. Apply if one has the number of another, old or new.
fn put_in_all(files: Files, added: Vec<NewFile>) -> Result<Files, Fault>
    ensures { EqualOrMemory (λ v. v) result
        (ok_or (if are_new files added.items then Some (fold with_file files added.items) else None)
        (fault Apply)) }
{
    files.with_all(added)?.ok_or(Fault::of(FaultName::Apply))
}

/// The pointers, with each new one in place of that of its level.
pub(crate) fn pointers_after(
    pointers: BTreeMap<u64, KeyBuf>,
    new: Vec<CompactPointer>,
) -> Result<BTreeMap<u64, KeyBuf>, Fault>
    ensures ok { IfOk result (λ m. m.entries ≡ fold with_pointer pointers.entries new.items) }
    ensures memory { IfErr result (λ e. e ≡ fault Memory) }
{
    let mut pointers = pointers;
    for pointer in new {
        pointers.insert(pointer.level, pointer.key)?;
    }
    Ok(pointers)
}
