//! The outcome of a compaction, as a folder holds it.

ghost use Rattle.std.specs.Prelude.{IfOk, codes};
ghost use Rattle.edit.specs.Edit.{HasValidLevels, edit_in};
ghost use Rattle.folder.specs.OpenAnswer.{FolderAnswers, IsFileReading};
ghost use Rattle.folder.specs.Reports.{OnlyReads, ReportsDevice};
ghost use Rattle.adoption.specs.Adoption.{IsEditGiven, IsGiven};
ghost use Rattle.adoption.specs.AdoptedOutcome.{IsAdopted};
ghost use Rattle.adoption.specs.AdoptionIn.{given_in};

use crate::adopted_edit::adopted_edit;
use edit::{Comparator, Fault, FaultName, Outcome, Version, VersionEdit};
use folder::Folder;
use pick::{InputFile, Inputs};
use std::alloc::Global;
use store::load_inputs;

/// The name of the file that has the edit.
const EDIT: &str = "EDIT";

/// The outcome of a compaction, and what it makes of a version.
#[derive(Drop)]
pub(crate) struct GivenOutcome {
    /// The inputs of the compaction.
    pub picked: Inputs,
    /// The outputs, as the edit states them.
    pub outputs: Vec<InputFile>,
    /// The edited version.
    pub next: Version,
    /// The last sequence of the version that was compacted.
    pub last_sequence: u64,
    /// The outputs' tables, and the edit as it is installed.
    pub outcome: Outcome,
}

/// The outcome that a folder holds, for a `version`. It only reads.
///
/// The first that applies:
///
/// - Missing: there is no EDIT;
/// - EditTag or EditField: its bytes are no edit;
/// - what [`adopted_edit`] refuses the edit as;
/// - Missing: at the first output that is missing, in the edit's order.
pub(crate) fn given_outcome<C: Comparator, G: Folder>(
    alloc: Global,
    source: &mut G,
    version: &Version,
) -> Result<GivenOutcome, Fault>
    ensures answer { FolderAnswers given_in (G.failed source.old) (G.failed source.new) result
        (IsGiven C.cmp (G.tells source.old) version.now) }
    ensures adopted { IfOk result (λ g. IsAdopted C.cmp version.now (given_in g)) }
    ensures device { ReportsDevice G.Folder source.old source.new result }
    ensures reads { OnlyReads G.Folder source.old source.new }
{
    let edit = given_edit(alloc, source)?;
    let adopted = adopted_edit::<C>(alloc, version, edit)?;
    let tables = load_inputs(alloc, source, &adopted.outputs)?;
    Ok(GivenOutcome {
        picked: adopted.picked,
        outputs: adopted.outputs,
        next: adopted.next,
        last_sequence: adopted.last_sequence,
        outcome: Outcome {
            tables,
            edit: adopted.edit,
        },
    })
}

/// The edit that a folder holds. Missing if there is no EDIT; EditTag or EditField if its bytes are
/// no edit. It only reads.
fn given_edit<G: Folder>(alloc: Global, source: &mut G) -> Result<VersionEdit, Fault>
    ensures answer { FolderAnswers edit_in (G.failed source.old) (G.failed source.new) result
        (IsEditGiven (G.tells source.old)) }
    ensures levels { IfOk result (λ e. HasValidLevels (edit_in e)) }
    ensures device { ReportsDevice G.Folder source.old source.new result }
    ensures reads { OnlyReads G.Folder source.old source.new }
{
    let bytes = held_edit(source)?;
    VersionEdit::decode(alloc, &bytes)
}

/// The bytes of EDIT. Missing if there is no such file. It only reads.
fn held_edit<G: Folder>(source: &mut G) -> Result<Vec<u8>, Fault>
    ensures answer { FolderAnswers (λ v. v.items) (G.failed source.old) (G.failed source.new) result
        (IsFileReading (G.tells source.old) (codes "EDIT")) }
    ensures device { ReportsDevice G.Folder source.old source.new result }
    ensures reads { OnlyReads G.Folder source.old source.new }
{
    match source.read(EDIT)? {
        Some(bytes) => Ok(bytes),
        None => Err(Fault::of(FaultName::Missing)),
    }
}
