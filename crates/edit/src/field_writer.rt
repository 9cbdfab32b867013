//! Writing the fields of an edit. The only fault of these calls is Memory.

ghost use Rattle.std.specs.Prelude.{◌≡◌, ◌++◌, ◌<◌, ◌≤◌, ◌^◌, length, map, [], OnOk, IsOkUnless};
ghost use Rattle.std.specs.Prelude.{All, IfSome};
ghost use Rattle.std.specs.List.{flat_map, AllByRecursion};
ghost use Rattle.std.specs.List.Sorted.{IsStrictlySortedBy};
ghost use Rattle.std.specs.Option.{ForSome, option_map, option_map_or};
ghost use Rattle.std.specs.String.{string_bytes};
ghost use Rattle.coding.specs.Answers.{fault};
ghost use Rattle.coding.specs.Varint.{varint};
ghost use Rattle.coding.specs.declared.fault.FaultName.TheVariants.{Memory};
ghost use Rattle.edit.specs.Edit.{deleted_cmp, optional_field};
ghost use Rattle.edit.specs.Field.{IsField, SetComparator, SetPointer, DeleteFile, AddFile};
ghost use Rattle.edit.specs.Field.{spelling};
ghost use Rattle.edit.specs.Tag.{tag_number};
ghost use Rattle.edit.specs.declared.meta.TheConstants.{LAST_LEVEL};

use crate::meta::{CompactPointer, DeletedFile, NewFile};
use crate::tag::Tag;
use coding::{Fault, push_slice, push_varint};
use std::collections::BTreeSet;

/// Appends the comparator's name, if there is one.
pub(crate) fn push_comparator(out: &mut Vec<u8>, name: &Option<String>) -> Result<(), Fault>
    requires { ForSome (option_map string_bytes name.now) (λ n. length n < 2 ^ 32) }
    ensures ok { OnOk result (out.new.items ≡
        out.old.items
        ++ flat_map spelling
        (optional_field SetComparator (option_map string_bytes name.now))) }
    ensures lawful { OnOk result
        (AllByRecursion IsField (optional_field SetComparator (option_map string_bytes name.now))) }
    ensures memory { IsOkUnless result (fault Memory) }
{
    let Some(name) = name else {
        return Ok(());
    };
    push_varint(out, Tag::Comparator.number())?;
    push_slice(out, name.as_str().as_bytes())
}

/// Appends a field that is one number, if it is set.
pub(crate) fn push_optional(out: &mut Vec<u8>, tag: Tag, number: Option<u64>) -> Result<(), Fault>
    ensures ok { OnOk result (out.new.items ≡
        out.old.items ++ option_map_or (λ n. varint (tag_number tag) ++ varint n) number []) }
    ensures fits { IfSome number (λ n. n < 2 ^ 64) }
    ensures memory { IsOkUnless result (fault Memory) }
{
    let Some(number) = number else {
        return Ok(());
    };
    push_varint(out, tag.number())?;
    push_varint(out, number)
}

/// Appends each compact pointer.
pub(crate) fn push_pointers(out: &mut Vec<u8>, pointers: &[CompactPointer]) -> Result<(), Fault>
    requires { All (λ pointer. pointer.level ≤ LAST_LEVEL) pointers.now }
    ensures ok { OnOk result
        (out.new.items ≡ out.old.items ++ flat_map spelling (map SetPointer pointers.now)) }
    ensures lawful { OnOk result (AllByRecursion IsField (map SetPointer pointers.now)) }
    ensures memory { IsOkUnless result (fault Memory) }
{
    for pointer in pointers {
        push_pointer(out, pointer)?;
    }
    Ok(())
}

/// Appends a compact pointer.
fn push_pointer(out: &mut Vec<u8>, pointer: &CompactPointer) -> Result<(), Fault>
    requires { pointer.now.level ≤ LAST_LEVEL }
    ensures ok { OnOk result (out.new.items ≡ out.old.items ++ spelling (SetPointer pointer.now)) }
    ensures lawful { OnOk result (IsField (SetPointer pointer.now)) }
    ensures memory { IsOkUnless result (fault Memory) }
{
    let key = pointer.key.as_key();
    push_varint(out, Tag::Pointer.number())?;
    push_varint(out, pointer.level)?;
    push_slice(out, key.bytes())
}

/// Appends each deleted file, by level and number.
pub(crate) fn push_deleted(out: &mut Vec<u8>, deleted: &BTreeSet<DeletedFile>) -> Result<(), Fault>
    requires { All (λ file. file.level ≤ LAST_LEVEL) deleted.now.keys }
    ensures ok { OnOk result
        (out.new.items ≡ out.old.items ++ flat_map spelling (map DeleteFile deleted.now.keys)) }
    ensures lawful { OnOk result (AllByRecursion IsField (map DeleteFile deleted.now.keys)) }
    ensures ordered { OnOk result (IsStrictlySortedBy deleted_cmp deleted.now.keys) }
    ensures memory { IsOkUnless result (fault Memory) }
{
    for file in deleted.iter() {
        push_deletion(out, *file)?;
    }
    Ok(())
}

/// Appends a deleted file.
fn push_deletion(out: &mut Vec<u8>, file: DeletedFile) -> Result<(), Fault>
    requires { file.level ≤ LAST_LEVEL }
    ensures ok { OnOk result (out.new.items ≡ out.old.items ++ spelling (DeleteFile file)) }
    ensures lawful { OnOk result (IsField (DeleteFile file)) }
    ensures memory { IsOkUnless result (fault Memory) }
{
    push_varint(out, Tag::Deleted.number())?;
    push_varint(out, file.level)?;
    push_varint(out, file.number)
}

/// Appends each new file.
pub(crate) fn push_added(out: &mut Vec<u8>, added: &[NewFile]) -> Result<(), Fault>
    requires { All (λ file. file.level ≤ LAST_LEVEL) added.now }
    ensures ok { OnOk result
        (out.new.items ≡ out.old.items ++ flat_map spelling (map AddFile added.now)) }
    ensures lawful { OnOk result (AllByRecursion IsField (map AddFile added.now)) }
    ensures memory { IsOkUnless result (fault Memory) }
{
    for file in added {
        push_file(out, file)?;
    }
    Ok(())
}

/// Appends a new file.
fn push_file(out: &mut Vec<u8>, file: &NewFile) -> Result<(), Fault>
    requires { file.now.level ≤ LAST_LEVEL }
    ensures ok { OnOk result (out.new.items ≡ out.old.items ++ spelling (AddFile file.now)) }
    ensures lawful { OnOk result (IsField (AddFile file.now)) }
    ensures memory { IsOkUnless result (fault Memory) }
{
    let smallest = file.meta.smallest.as_key();
    let largest = file.meta.largest.as_key();
    push_varint(out, Tag::Added.number())?;
    push_varint(out, file.level)?;
    push_number(out, file.meta.number)?;
    push_number(out, file.meta.size)?;
    push_slice(out, smallest.bytes())?;
    push_slice(out, largest.bytes())
}

/// Appends a number below 2^64.
fn push_number(out: &mut Vec<u8>, number: u64) -> Result<(), Fault>
    ensures ok { OnOk result (out.new.items ≡ out.old.items ++ varint number) }
    ensures fits { number < 2 ^ 64 }
    ensures memory { IsOkUnless result (fault Memory) }
{
    push_varint(out, number)
}
