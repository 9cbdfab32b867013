//! Tables of a folder, held after each was checked, or the first refusal.

ghost use Rattle.std.specs.Prelude.{◌≡◌, ◌<◌, ◌≤◌, IfOk};
ghost use Rattle.folder.specs.Calls.{Files, Tells};
ghost use Rattle.folder.specs.OpenAnswer.{FolderAnswers};
ghost use Rattle.folder.specs.Reports.{OnlyReads, ReportsDevice};
ghost use Rattle.checks.specs.HeldTables.{AreHeldBy, AreHeldIn, IsCheckedAnswer, held_numbers};

use crate::first_refusal::check_others;
use crate::found_tables::FoundTables;
use crate::held_tables::{HeldTables, hold_tables};
use board::{Watch, Workers};
use folder::ReadsTables;
use ikey::{Fault, FaultName, SharedComparator};
use std::thread::Threads;

/// The tables of a folder with these `numbers`, in order, each checked. It only reads.
///
/// - Missing: at the first missing table.
/// - The refusal of the first invalid table, as of `table::check`, if none is missing.
///
/// If the device fails a call, the answer is Device and no further call is made. If memory runs
/// out, it is Memory. Lawless, if the folder was changed meanwhile.
///
/// `held` are tables of this folder; those with one of the numbers are neither read nor checked
/// again, as [`hold_next`] has it. `workers` check the others.
pub fn checked_tables<C: SharedComparator, F: ReadsTables, W: Watch + Sync, R: Threads + Sync>(
    workers: &Workers<'_, R, W>,
    folder: &mut F,
    held: HeldTables<C>,
    numbers: &[u64],
) -> Result<HeldTables<C>, Fault>
    ensures answer { (files : Files) → Tells (F.tells folder.old) files →
        AreHeldIn C.cmp files held →
        FolderAnswers (λ tables. tables) (F.failed folder.old) (F.failed folder.new) result
        (IsCheckedAnswer C.cmp files numbers.now) }
    ensures numbers { IfOk result (λ tables. held_numbers tables ≡ numbers.now) }
    // Of any folder, also one that tells nothing: each table is an answer that it allows for its
    // number.
    ensures held { AreHeldBy C.cmp (F.tells folder.old) held →
        IfOk result (AreHeldBy C.cmp (F.tells folder.old)) }
    ensures device { ReportsDevice F.Folder folder.old folder.new result }
    ensures reads { OnlyReads F.Folder folder.old folder.new }
{
    let found = hold_tables::<C, F, W, R>(workers, folder, held, numbers)?;
    let FoundTables { tables, are_all } = found;
    if are_all {
        return Ok(tables);
    }
    let sound = tables.numbers(workers.alloc())?;
    drop(tables);
    check_others::<C, F, W, R>(workers, folder, &sound, numbers)?;
    Err(Fault::of(FaultName::Lawless))
}
