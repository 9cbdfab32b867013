//! An edit that fits a version, as it is installed.

ghost use Rattle.std.specs.Prelude.{◌≡◌, max, IfOk, Ok, OnOk};
ghost use Rattle.edit.specs.Answers.{EqualOrMemory, HoldsOrMemory, fault};
ghost use Rattle.edit.specs.fault.FaultName.TheVariants.{Memory};
ghost use Rattle.edit.specs.Edit.{HasValidLevels, IsEdit, edit_in};
ghost use Rattle.edit.specs.Version.{IsState};
ghost use Rattle.pick.specs.PickedInputs.{picked_in};
ghost use Rattle.adoption.specs.Adoption.{IsAdoption, adopted, adoption_by};
ghost use Rattle.adoption.specs.Adoption.{counted_edit, outputs_in_edit};
ghost use Rattle.adoption.specs.AdoptionIn.{adoption_in};

use crate::edit_fit::fitting_inputs;
use edit::{Comparator, Fault, FaultName, NewFile, Version, VersionEdit};
use pick::{InputFile, Inputs};
use std::alloc::Global;
use store::{manifest_of, test_files};

/// An edit that fits a version, as it is installed.
#[derive(Drop)]
pub(crate) struct AdoptedEdit {
    /// The inputs of its compaction.
    pub picked: Inputs,
    /// Its new files: the outputs.
    pub outputs: Vec<InputFile>,
    /// Its bytes.
    pub edit: Vec<u8>,
    /// The edited version.
    pub next: Version,
    /// The last sequence of the version that was compacted.
    pub last_sequence: u64,
}

/// Adopts the `edit` of a compaction of a `version`, as it was then or has become.
///
/// The first that applies:
///
/// - Lawless: a file's number isn't below next file, or the files of a level from 1 on don't rise;
/// - Apply: the edit isn't one of a compaction of closed inputs of the version;
/// - Numbers: next file is 2^64 - 1;
/// - Apply: the edit doesn't apply;
/// - Lawless: the files of a level of the edited version don't rise.
///
/// The only other fault is Memory.
pub(crate) fn adopted_edit<C: Comparator>(
    alloc: Global,
    version: &Version,
    edit: VersionEdit,
) -> Result<AdoptedEdit, Fault>
    requires { HasValidLevels (edit_in edit) }
    ensures answer { HoldsOrMemory adoption_in result
        (IsAdoption C.cmp version.now (edit_in edit)) }
    // The bytes read as the edit that is installed.
    ensures read { IfOk result
        (λ a. IsEdit a.edit.items (adopted version.now (edit_in edit))) }
    ensures state { OnOk result (IsState version.now.pointers version.now.files) }
{
    test_files::<C>(alloc, version)?;
    let picked = fitting_inputs::<C>(alloc, version, &edit)?;
    let adopted = adopt::<C>(alloc, version, picked, edit)?;
    test_files::<C>(alloc, &adopted.next)?;
    Ok(adopted)
}

/// Adopts an edit that fits. Numbers if next file is 2^64 - 1; Apply if the edit doesn't apply. The
/// only other fault is Memory.
fn adopt<C: Comparator>(
    alloc: Global,
    version: &Version,
    picked: Inputs,
    edit: VersionEdit,
) -> Result<AdoptedEdit, Fault>
    requires { HasValidLevels (edit_in edit) }
    ensures answer { EqualOrMemory adoption_in result
        (adoption_by version.now (picked_in picked) (edit_in edit)) }
    ensures read { IfOk result
        (λ a. IsEdit a.edit.items (adopted version.now (edit_in edit))) }
{
    let last_sequence = edit.last_sequence.unwrap_or(0);
    let adopted = counted_edit(version, edit)?;
    let bytes = adopted.encode(alloc)?;
    let next = version.apply::<C>(alloc, &adopted)?;
    let outputs = outputs_of(alloc, adopted.added)?;
    Ok(AdoptedEdit {
        picked,
        outputs,
        edit: bytes,
        next,
        last_sequence,
    })
}

/// An edit with the counters of a version. Its next file is above the manifest's number, which is
/// the version's next file: Numbers if that is 2^64 - 1. It takes no memory.
fn counted_edit(version: &Version, edit: VersionEdit) -> Result<VersionEdit, Fault>
    requires { HasValidLevels (edit_in edit) }
    ensures counted { EqualOrMemory edit_in result (counted_edit version.now (edit_in edit)) }
    ensures levels { IfOk result (λ e. HasValidLevels (edit_in e)) }
{
    let Some(least) = manifest_of(version).checked_add(1) else {
        return Err(Fault::of(FaultName::Numbers));
    };
    Ok(VersionEdit {
        comparator: None,
        log_number: Some(version.log_number().unwrap_or(0)),
        previous_log: Some(version.previous_log().unwrap_or(0)),
        next_file: Some(greater(edit.next_file.unwrap_or(0), least)),
        last_sequence: Some(version.last_sequence().unwrap_or(0)),
        pointers: edit.pointers,
        deleted: edit.deleted,
        added: edit.added,
    })
}

/// The greater of two numbers.
fn greater(one: u64, other: u64) -> u64
    ensures { result ≡ max one other }
{
    if one < other { other } else { one }
}

/// New files as files whose tables are read.
fn outputs_of(alloc: Global, added: Vec<NewFile>) -> Result<Vec<InputFile>, Fault>
    ensures { EqualOrMemory (λ v. v.items) result (Ok (outputs_in_edit added.items)) }
{
    let mut outputs = Vec::with_capacity(alloc, added.len())?;
    for file in added {
        outputs.push(InputFile {
            level: file.level,
            meta: file.meta,
        })?;
    }
    Ok(outputs)
}
