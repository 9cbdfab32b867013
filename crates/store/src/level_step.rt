//! The telling of a step of the compaction of all levels.

ghost use Rattle.std.specs.Prelude.{◌≡◌, Bool, Err, IfErr, IfOk, Ok};
ghost use Rattle.std.specs.Option.{IfSome};
ghost use Rattle.folder.specs.Answers.{UnlessMemory};
ghost use Rattle.store.specs.OpenedAfter.{IsOpenedAfter};
ghost use Rattle.store.specs.Step.{step_in};
ghost use Rattle.store.specs.Telling.{IsGoTold};

use crate::compaction_step::CompactionStep;
use crate::install_watch::InstallWatch;
use crate::next_opened::opened_after;
use crate::synced_version::SyncedVersion;
use folder::Fault;
use std::alloc::Global;

/// Tells of the compaction of a `level`. What the folder is opened as after it, if it is to go on.
pub fn tell_step<T: InstallWatch>(
    alloc: Global,
    opened: &SyncedVersion,
    level: u64,
    step: &CompactionStep,
    told: &mut T,
) -> Result<Option<SyncedVersion>, Fault>
    ensures told { (goes : Bool) × T.tells told.old (step_in step.now) goes told.new
        × IfOk result (IsGoTold goes) }
    ensures after { IfOk result (λ o. IfSome o (λ after. IsOpenedAfter opened.now.order
        opened.now.version step.now.edit.items
        (Ok (after.order, after.version, after.manifest)))) }
    ensures refused { IfErr result (λ e. UnlessMemory e (IsOpenedAfter opened.now.order
        opened.now.version step.now.edit.items (Err e))) }
{
    match opened_after(alloc, opened, step) {
        Ok(after) => {
            if told.installed(level, step, &opened.version, Some(&after.version)) {
                Ok(Some(after))
            } else {
                Ok(None)
            }
        }
        Err(fault) => {
            let _ = told.installed(level, step, &opened.version, None);
            Err(fault)
        }
    }
}
