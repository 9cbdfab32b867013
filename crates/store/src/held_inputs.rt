//! The tables of the inputs of a compaction.

ghost use Rattle.std.specs.Prelude.{◌≡◌, map, IfOk, Ok};
ghost use Rattle.checks.specs.HeldTables.{AreHeldBy, AreHeldIn, IsCheckedAnswer};
ghost use Rattle.checks.specs.HeldBytes.{held_bytes};
ghost use Rattle.folder.specs.Calls.{Files, Tells};
ghost use Rattle.folder.specs.LoadedTables.{IsLoaded};
ghost use Rattle.folder.specs.OpenAnswer.{FolderAnswers};
ghost use Rattle.folder.specs.Reports.{OnlyReads, ReportsDevice};
ghost use Rattle.install.specs.Install.{table_bytes_of};
ghost use Rattle.pick.specs.PickedInputs.{picked_in};
ghost use Rattle.store.specs.Choice.{IsChosen};
ghost use Rattle.store.specs.InputsCompaction.{input_numbers};
ghost use Rattle.store.specs.declared.choice.Choice.{Choice};

use crate::input_laws::chosen_in_order;
use crate::input_tables::numbers_of;
use crate::version_files::version_is_state;
use board::{Watch, Work};
use checks::{HeldTables, SharedComparator, Workers, checked_tables};
use folder::{Fault, ReadsTables, Version};
use pick::Inputs;
use std::thread::Threads;

/// The tables of `picked` inputs of a version in their order. It only reads, and no table but those
/// that aren't among `held`, which are tables of the folder.
pub(crate) fn held_inputs<
    C: SharedComparator + 'static,
    F: ReadsTables,
    W: Watch + Sync,
    R: Threads + Sync,
>(
    workers: &Workers<'_, R, W>,
    folder: &mut F,
    held: HeldTables<C>,
    version: &Version,
    picked: &Inputs,
) -> Result<HeldTables<C>, Fault>
    requires chosen { (choice : Choice)
        × IsChosen C.cmp version.now choice (Ok (picked_in picked.now)) }
    ensures answer { (files : Files) → Tells (F.tells folder.old) files →
        AreHeldIn C.cmp files held →
        FolderAnswers (λ tables. tables) (F.failed folder.old) (F.failed folder.new) result
        (IsCheckedAnswer C.cmp files (input_numbers picked.now.files.items)) }
    // Each input has the bytes of its number.
    ensures bytes { IfOk result (λ tables. map (λ t. t.1) (held_bytes tables)
        ≡ map (λ i. table_bytes_of (held_bytes tables) i.meta.number) picked.now.files.items) }
    // Whatever the folder tells: the tables are what reads of their numbers may give.
    ensures read { AreHeldBy C.cmp (F.tells folder.old) held →
        IfOk result (λ tables. IsLoaded (F.tells folder.old)
        (input_numbers picked.now.files.items) (Ok (held_bytes tables))) }
    ensures device { ReportsDevice F.Folder folder.old folder.new result }
    ensures reads { OnlyReads F.Folder folder.old folder.new }
{
    let alloc = workers.alloc();
    chosen_in_order::<C>();
    version_is_state::<C>(alloc, version);
    let numbers = numbers_of(alloc, &picked.files)?;
    workers.gate().begin(Work::Check, numbers.len() as u64);
    checked_tables::<C, F, W, R>(workers, folder, held, &numbers)
}
