//! Whether an edit fits a version.

ghost use Rattle.std.specs.Prelude.{◌≡◌, ◌↔◌, ◌≤◌, ◌&&◌, nat_eq, nat_lt, IsTrue, IfOk, IfErr};
ghost use Rattle.std.specs.Prelude.{Ok, OnOk};
ghost use Rattle.std.specs.List.{list_all};
ghost use Rattle.std.specs.Option.{option_copied};
ghost use Rattle.edit.specs.Answers.{EqualOrMemory, HoldsOrMemory, fault};
ghost use Rattle.edit.specs.fault.FaultName.TheVariants.{Memory};
ghost use Rattle.edit.specs.Edit.{edit_in};
ghost use Rattle.edit.specs.Version.{IsState};
ghost use Rattle.pick.specs.PickedInputs.{picked_in};
ghost use Rattle.pick.specs.declared.input_choice.TheConstants.{LAST_INPUT_LEVEL};
ghost use Rattle.compact.specs.EditOf.{deletions_of};
ghost use Rattle.adoption.specs.EditFit.{IsChoiceOf, IsEditFor, IsFitting, IsNumbered, are_counted};
ghost use Rattle.adoption.specs.EditFit.{deleted_numbers, is_reached, only_pointer, rise_between};
ghost use Rattle.adoption.specs.EditFit.{rise_within};

use compact::deletions_of;
use edit::{CompactPointer, Comparator, Fault, FaultName, NewFile, Version, VersionEdit};
use pick::{InputFile, Inputs, first_missing, numbered_inputs};
use std::alloc::Global;

/// The inputs of the compaction that has this edit: the files of `version` that it deletes. Apply
/// if they aren't closed or the edit isn't one for them. The only other fault is Memory.
pub(crate) fn fitting_inputs<C: Comparator>(
    alloc: Global,
    version: &Version,
    edit: &VersionEdit,
) -> Result<Inputs, Fault>
    ensures picked { HoldsOrMemory picked_in result
        (IsFitting C.cmp version.now (edit_in edit.now)) }
    ensures state { OnOk result (IsState version.now.pointers version.now.files) }
{
    let Some(pointer) = only_pointer(&edit.pointers) else {
        return Err(Fault::of(FaultName::Apply));
    };
    let numbers = deleted_numbers(alloc, edit)?;
    let picked = closed_inputs::<C>(alloc, version, pointer, &numbers)?;
    if !is_edit_for(alloc, version, &picked, edit)? {
        return Err(Fault::of(FaultName::Apply));
    }
    Ok(picked)
}

/// The only compact pointer; None if there isn't just one.
fn only_pointer(pointers: &[CompactPointer]) -> Option<&CompactPointer>
    ensures { option_copied result ≡ only_pointer pointers.now }
{
    if pointers.len() == 1 {
        Some(&pointers[0])
    } else {
        None
    }
}

/// The numbers of the files that an edit deletes. The only fault is Memory.
fn deleted_numbers(alloc: Global, edit: &VersionEdit) -> Result<Vec<u64>, Fault>
    ensures { EqualOrMemory (λ v. v.items) result (Ok (deleted_numbers (edit_in edit.now))) }
{
    let mut numbers = Vec::new(alloc);
    for file in edit.deleted.iter() {
        numbers.push(file.number)?;
    }
    Ok(numbers)
}

/// The inputs that have these numbers, for a compaction that sets this compact pointer. Apply if
/// there are none, or they aren't closed. The only other fault is Memory.
fn closed_inputs<C: Comparator>(
    alloc: Global,
    version: &Version,
    pointer: &CompactPointer,
    numbers: &[u64],
) -> Result<Inputs, Fault>
    ensures picked { HoldsOrMemory picked_in result
        (IsChoiceOf C.cmp version.now pointer.now numbers.now) }
    ensures state { OnOk result (IsState version.now.pointers version.now.files) }
    ensures level { IfOk result (λ p. p.level ≤ LAST_INPUT_LEVEL) }
{
    let picked = inputs_of::<C>(alloc, version, pointer, numbers)?;
    let missing = first_missing::<C>(alloc, version, picked.level, numbers)?;
    if missing.is_some() {
        return Err(Fault::of(FaultName::Apply));
    }
    Ok(picked)
}

/// The inputs that have these numbers. Apply if there are none. The only other fault is Memory.
fn inputs_of<C: Comparator>(
    alloc: Global,
    version: &Version,
    pointer: &CompactPointer,
    numbers: &[u64],
) -> Result<Inputs, Fault>
    ensures picked { HoldsOrMemory picked_in result
        (IsNumbered C.cmp version.now pointer.now numbers.now) }
    ensures state { OnOk result (IsState version.now.pointers version.now.files) }
{
    match numbered_inputs::<C>(alloc, version, pointer, numbers) {
        Ok(picked) => Ok(picked),
        Err(refused) => match refused.name {
            FaultName::Memory => Err(Fault::of(FaultName::Memory)),
            _ => Err(Fault::of(FaultName::Apply)),
        },
    }
}

/// Whether an edit is one of a compaction of `picked` inputs of a version.
fn is_edit_for(
    alloc: Global,
    version: &Version,
    picked: &Inputs,
    edit: &VersionEdit,
) -> Result<bool, Fault>
    requires { picked.now.level ≤ LAST_INPUT_LEVEL }
    ensures exact { IfOk result (λ b. IsTrue b
        ↔ IsEditFor version.now (picked_in picked.now) (edit_in edit.now)) }
    ensures memory { IfErr result (λ e. e ≡ fault Memory) }
{
    let deletes = deletes_all(alloc, edit, &picked.files)?;
    let stands = are_at_level(&edit.added, picked.level + 1);
    let counts = are_counted(version, edit);
    Ok(edit.comparator.is_none() && deletes && stands && counts)
}

/// Whether an edit deletes these inputs, and no other file.
fn deletes_all(alloc: Global, edit: &VersionEdit, files: &[InputFile]) -> Result<bool, Fault>
    ensures exact { IfOk result (λ b. IsTrue b ↔ ((edit_in edit.now).deleted
        ≡ deletions_of files.now)) }
    ensures memory { IfErr result (λ e. e ≡ fault Memory) }
{
    let deleted = deletions_of(alloc, files)?;
    Ok(edit.deleted == deleted)
}

/// Whether files are all at this `level`.
fn are_at_level(files: &[NewFile], level: u64) -> bool
    ensures { result ≡ list_all (λ f. nat_eq f.level level) files.now }
{
    files.iter().all(|file| file.level == level)
}

/// Whether the counters of an edit fit a version.
fn are_counted(version: &Version, edit: &VersionEdit) -> bool
    ensures { result ≡ are_counted version.now (edit_in edit.now) }
{
    rise_within(version.next_file(), edit.next_file, &edit.added)
        && is_reached(edit.last_sequence, version.last_sequence())
}

/// Whether the numbers of files rise from above `low` to below `high`, which are both set.
fn rise_within(low: Option<u64>, high: Option<u64>, files: &[NewFile]) -> bool
    ensures { result ≡ rise_within low high files.now }
{
    match (low, high) {
        (Some(low), Some(high)) => rise_between(low, high, files),
        _ => false,
    }
}

/// Whether the numbers of files rise from above `low` to below `high`.
fn rise_between(low: u64, high: u64, files: &[NewFile]) -> bool
    ensures { result ≡ rise_between low high files.now }
{
    let mut last = low;
    for file in files {
        let number = file.meta.number;
        if !is_between(last, number, high) {
            return false;
        }
        last = number;
    }
    true
}

/// Whether a number is above `low` and below `high`.
fn is_between(low: u64, number: u64, high: u64) -> bool
    ensures { result ≡ (nat_lt low number && nat_lt number high) }
{
    low < number && number < high
}

/// Whether a sequence is set, and isn't above the last one `now`, which is 0 if it isn't set.
fn is_reached(sequence: Option<u64>, now: Option<u64>) -> bool
    ensures { result ≡ is_reached sequence now }
{
    match sequence {
        Some(sequence) => sequence <= now.unwrap_or(0),
        None => false,
    }
}
