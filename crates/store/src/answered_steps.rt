//! What the caller of a compaction is answered, made of what it made.

ghost use Rattle.std.specs.Prelude.{Ok};
ghost use Rattle.folder.specs.Answers.{EqualOrMemory};
ghost use Rattle.compact.specs.AnswerIn.{answer_in};
ghost use Rattle.compact.specs.GroupedAnswer.{joined_answer, table_sizes};
ghost use Rattle.install.specs.Install.{tables_in};
ghost use Rattle.pick.specs.PickedInputs.{picked_in};
ghost use Rattle.store.specs.Outcome.{outcome_in, outcome_of};
ghost use Rattle.store.specs.Step.{step_in, step_of};

use crate::compaction_outcome::CompactionOutcome;
use crate::compaction_step::CompactionStep;
use crate::folder_request::manifest_of;
use crate::synced_version::SyncMark;
use compact::{Planned, deletions_of};
use folder::{Comparator, Fault, Version};
use install::Outcome;
use pick::Inputs;
use std::alloc::Global;

/// The step of planned outputs of `picked` inputs of a `version`. No table is encoded.
pub(crate) fn planned_step<C: Comparator>(
    alloc: Global,
    version: &Version,
    picked: &Inputs,
    planned: &Planned<'_, '_, C>,
) -> Result<CompactionStep, Fault>
    ensures { EqualOrMemory step_in result
        (Ok (step_of version.now (picked_in picked.now) (joined_answer planned.now))) }
{
    let outputs = planned.sizes(alloc)?;
    let deleted = deletions_of(alloc, &picked.files)?;
    let edit = Vec::from_slice(alloc, planned.edit())?;
    Ok(CompactionStep {
        outputs,
        deleted,
        manifest: manifest_of(version),
        edit,
        mark: SyncMark,
    })
}

/// The answer of a compaction of `picked` inputs that isn't installed.
pub fn outcome_answer(
    alloc: Global,
    picked: &Inputs,
    outcome: Outcome,
) -> Result<CompactionOutcome, Fault>
    ensures { EqualOrMemory outcome_in result
        (Ok (outcome_of (picked_in picked.now) (answer_in outcome))) }
{
    let outputs = sizes_of(alloc, &outcome.tables)?;
    let deleted = deletions_of(alloc, &picked.files)?;
    Ok(CompactionOutcome {
        outputs,
        deleted,
        outcome,
    })
}

/// The numbers and the lengths of tables.
fn sizes_of(alloc: Global, tables: &[(u64, Vec<u8>)]) -> Result<Vec<(u64, u64)>, Fault>
    ensures { EqualOrMemory (λ v. v.items) result (Ok (table_sizes (tables_in tables.now))) }
{
    let mut sizes = Vec::with_capacity(alloc, tables.len())?;
    for (number, bytes) in tables {
        sizes.push((*number, bytes.len() as u64))?;
    }
    Ok(sizes)
}
