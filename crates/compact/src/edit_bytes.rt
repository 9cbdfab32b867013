//! The edit of a plan, as bytes.

ghost use Rattle.std.specs.Prelude.{◌≡◌, ◌+◌, ◌<◌, ◌^◌, true, map, length, Ok, IfOk, IfErr};
ghost use Rattle.ikey.specs.Answers.{EqualOrMemory, fault};
ghost use Rattle.ikey.specs.fault.FaultName.TheVariants.{Memory};
ghost use Rattle.edit.specs.Edit.{edit_bytes};
ghost use Rattle.cut.specs.OutputMeta.{IsMetaOf};
ghost use Rattle.cut.specs.Plan.{OutputView};
ghost use Rattle.pick.specs.PickedInputs.{picked_in};
ghost use Rattle.compact.specs.Request.{has_levels, request_in};
ghost use Rattle.compact.specs.EditOf.{edit_of};
ghost use Rattle.compact.specs.WrittenOutputs.{planned_file, planned_files};

use crate::request::Request;
use cut::{OutputMeta, Plan};
use edit::{FileMeta, NewFile};
use ikey::{Comparator, Fault, KeyBuf};
use std::alloc::Global;

/// An output as a new file of a level.
fn new_file(alloc: Global, output: OutputMeta<'_>, level: u64) -> Result<NewFile, Fault>
    ensures ok { (p : OutputView) → IsMetaOf p output.entry →
        IfOk result (λ file. file ≡ planned_file level p) }
    ensures memory { IfErr result (λ e. e ≡ fault Memory) }
{
    Ok(NewFile {
        level,
        meta: FileMeta {
            number: output.number,
            size: output.len,
            smallest: KeyBuf::of(alloc, output.smallest)?,
            largest: KeyBuf::of(alloc, output.largest)?,
        },
    })
}

/// The outputs of a plan, in order, as new files of a level.
fn new_files<C: Comparator>(
    alloc: Global,
    plan: &Plan<'_, '_, C>,
    level: u64,
) -> Result<Vec<NewFile>, Fault>
    ensures { EqualOrMemory (λ files. files.items) result
        (Ok (map (planned_file level) plan.now.outputs)) }
{
    let mut files = Vec::with_capacity(alloc, plan.len())?;
    for place in 0..plan.len() {
        let output = plan.output(place);
        files.push(new_file(alloc, output, level)?)?;
    }
    Ok(files)
}

/// The bytes of the edit of a request whose outputs are those of a plan.
pub(crate) fn edit_bytes<C: Comparator>(
    alloc: Global,
    request: &Request<'_>,
    plan: &Plan<'_, '_, C>,
) -> Result<Vec<u8>, Fault>
    requires fits { request.now.first_number + length plan.now.outputs < 2 ^ 64 }
    requires levels { has_levels (picked_in request.now.picked.now) ≡ true }
    ensures { EqualOrMemory (λ v. v.items) result
        (Ok (edit_bytes (edit_of (request_in request.now)
        (planned_files (request_in request.now) plan.now.outputs)))) }
{
    let files = new_files(alloc, plan, request.picked.level + 1)?;
    let edit = request.edit(alloc, files)?;
    edit.encode(alloc)
}
