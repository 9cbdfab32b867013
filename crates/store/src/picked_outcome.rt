//! The outcome of a compaction of inputs that were chosen.

ghost use Rattle.std.specs.Prelude.{◌<◌, ◌^◌, IfOk, Ok, unwrap_or};
ghost use Rattle.table.specs.Key.{IsInternalKey};
ghost use Rattle.table.specs.TableBytes.{AreBytes};
ghost use Rattle.checks.specs.HeldTables.{AreHeldBy, AreHeldIn};
ghost use Rattle.compact.specs.AnswerIn.{answer_in};
ghost use Rattle.folder.specs.Calls.{Files, Tells};
ghost use Rattle.folder.specs.OpenAnswer.{FolderAnswers};
ghost use Rattle.folder.specs.Reports.{OnlyReads, ReportsDevice};
ghost use Rattle.folder.specs.Version.{IsState};
ghost use Rattle.pick.specs.PickedInputs.{picked_in};
ghost use Rattle.store.specs.Choice.{IsChosen};
ghost use Rattle.store.specs.InputsCompaction.{IsPickedAnswer};
ghost use Rattle.store.specs.PickedOutcome.{IsPickedCompacted};
ghost use Rattle.store.specs.declared.choice.Choice.{Choice};

use crate::held_compaction::compact_held;
use crate::held_inputs::held_inputs;
use crate::version_files::version_is_state;
use board::Watch;
use checks::{HeldTables, SharedComparator, Workers};
use compact::Settings;
use folder::{Fault, ReadsTables, Version};
use install::Outcome;
use pick::Inputs;
use std::thread::Threads;

/// What an outcome that isn't installed is asked to keep to.
#[derive(Clone, Copy)]
pub struct OutcomeSettings<'s> {
    /// The number of the first output. None if it comes after the version's next file.
    pub first: Option<u64>,
    /// What the compaction is asked to keep to.
    pub settings: Settings<'s>,
}

/// The outcome of the compaction of `picked` inputs, which are those of a choice. Nothing is
/// installed: it only reads, and no table but those of the inputs that aren't among `held`, which
/// are tables of the folder. What it keeps to is `asked`.
///
/// The first that applies:
///
/// - Missing: at the first missing table of an input;
/// - the first invalid one, as `table::check` refuses it;
/// - Bounds: one isn't as its file states;
/// - what [`outcome`](crate::outcome) is refused as after these.
pub fn outcome_of_picked<
    C: SharedComparator + 'static,
    F: ReadsTables,
    W: Watch + Sync,
    R: Threads + Sync,
>(
    workers: &Workers<'_, R, W>,
    folder: &mut F,
    held: HeldTables<C>,
    version: &Version,
    picked: &Inputs,
    asked: &OutcomeSettings<'_>,
) -> Result<Outcome, Fault>
    requires chosen { (choice : Choice)
        × IsChosen C.cmp version.now choice (Ok (picked_in picked.now)) }
    ensures answer { (files : Files) → Tells (F.tells folder.old) files →
        AreHeldIn C.cmp files held →
        FolderAnswers (λ o. (picked_in picked.now, answer_in o)) (F.failed folder.old)
        (F.failed folder.new) result
        (IsPickedAnswer asked.now.first C.cmp C.short_keys files version.now asked.now.settings
        (picked_in picked.now)) }
    // Of any folder, also one that tells nothing: the tables are what reads of it may give.
    ensures compacted { AreHeldBy C.cmp (F.tells folder.old) held →
        IfOk result (λ o. IsPickedCompacted asked.now.first C.cmp C.short_keys
        (F.tells folder.old) version.now asked.now.settings (picked_in picked.now) (answer_in o)) }
    // The key that the inputs set is an internal key; the version's log numbers are below 2^64.
    ensures pointer { IsInternalKey picked.now.pointer.key }
    ensures state { IsState version.now.pointers version.now.files }
    ensures logs { IfOk result (λ _. (unwrap_or version.now.log_number 0 < 2 ^ 64)
        × (unwrap_or version.now.previous_log 0 < 2 ^ 64)) }
    ensures device { ReportsDevice F.Folder folder.old folder.new result }
    ensures reads { OnlyReads F.Folder folder.old folder.new }
{
    sets_internal_key(picked);
    version_is_state::<C>(workers.alloc(), version);
    let tables = held_inputs::<C, F, W, R>(workers, folder, held, version, picked)?;
    compact_held::<C, W, R>(
        workers,
        version,
        picked,
        &tables,
        asked.first,
        &asked.settings,
    )
}

/// The key that inputs set is an internal key. A call does nothing.
pub(crate) fn sets_internal_key(inputs: &Inputs)
    ensures { IsInternalKey inputs.now.pointer.key }
{
    let _key = inputs.pointer.key.as_key();
}

/// An edit is bytes. A call does nothing.
pub fn edit_is_bytes(edit: &[u8])
    ensures { AreBytes edit.now }
{
    let _bytes = edit;
}
