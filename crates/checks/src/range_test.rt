//! The test of a version in ranges of user keys, with the tables that a folder holds.

ghost use Rattle.std.specs.Prelude.{◌<◌, ◌≤◌, ◌^◌, length, map, IfOk, IfSome};
ghost use Rattle.folder.specs.Calls.{Files, Tells};
ghost use Rattle.folder.specs.OpenAnswer.{FolderAnswers};
ghost use Rattle.folder.specs.Reports.{OnlyReads, ReportsDevice};
ghost use Rattle.split.specs.Ranges.{IsCover, key_range};
ghost use Rattle.checks.specs.GroupTest.{IsRangeAnswer, IsRangesAnswer};
ghost use Rattle.checks.specs.HeldTables.{AreHeldBy, AreHeldIn};
ghost use Rattle.checks.specs.InOrder.{AreSoundIn};
ghost use Rattle.board.specs.declared.limits.TheConstants.{MAX_JOBS};

use crate::checked_so_far::CheckedTables;
use crate::held_tables::hold_next;
use crate::range_files::{needed_files, numbers_of};
use crate::range_walk::walk_range;
use board::{Gate, Workers};
use folder::{FileMeta, ReadsTables};
use ikey::{Fault, SharedComparator};
use split::{Range, Split};
use std::thread::Threads;

/// How many entries the tables of the `standing` files have. None unless, in each range of the
/// split, each table is what the version states and of each user key the sequences fall. `next` is
/// the version's next file.
///
/// The tables that a range needs are held for it, and dropped when no later range needs them: those
/// of the last range stay in `checked`, with the numbers of all that were checked. It only reads.
pub(crate) fn test_ranges<
    C: SharedComparator + 'static,
    F: ReadsTables,
    G: Gate + Sync,
    R: Threads + Sync,
>(
    workers: &Workers<'_, R, G>,
    folder: &mut F,
    standing: &[&FileMeta],
    next: Option<u64>,
    split: &Split<C>,
    checked: &mut CheckedTables<C>,
) -> Result<Option<u128>, Fault>
    requires few_files { length standing.now ≤ MAX_JOBS }
    ensures answer { (files : Files) → Tells (F.tells folder.old) files →
        AreHeldIn C.cmp files checked.old.held →
        FolderAnswers (λ found. found) (F.failed folder.old) (F.failed folder.new) result
        (IsRangesAnswer C.cmp files next (map (λ f. f.now) standing.now) split.now) }
    ensures held { AreHeldBy C.cmp (F.tells folder.old) checked.old.held →
        AreHeldBy C.cmp (F.tells folder.old) checked.new.held }
    ensures sound { IfOk result (λ _. (files : Files) → Tells (F.tells folder.old) files →
        AreHeldIn C.cmp files checked.old.held → AreSoundIn C.cmp files checked.old.sound.items →
        AreSoundIn C.cmp files checked.new.sound.items) }
    ensures cover { IsCover C.cmp split.now }
    ensures device { ReportsDevice F.Folder folder.old folder.new result }
    ensures reads { OnlyReads F.Folder folder.old folder.new }
{
    let mut entries = 0;
    for number in 0..split.len() {
        let range = split.range(number);
        let found = test_range::<C, F, G, R>(workers, folder, standing, next, checked, range)?;
        let Some(count) = found else {
            return Ok(None);
        };
        entries += count;
    }
    Ok(Some(entries))
}

/// The same in one range, of the tables that begin in it. Those that are held are of the folder;
/// those that the range needs replace them.
fn test_range<C: SharedComparator + 'static, F: ReadsTables, G: Gate + Sync, R: Threads + Sync>(
    workers: &Workers<'_, R, G>,
    folder: &mut F,
    standing: &[&FileMeta],
    next: Option<u64>,
    checked: &mut CheckedTables<C>,
    range: Range<'_>,
) -> Result<Option<u128>, Fault>
    requires few_files { length standing.now ≤ MAX_JOBS }
    ensures answer { (files : Files) → Tells (F.tells folder.old) files →
        AreHeldIn C.cmp files checked.old.held →
        FolderAnswers (λ found. found) (F.failed folder.old) (F.failed folder.new) result
        (IsRangeAnswer C.cmp files next (map (λ f. f.now) standing.now) (key_range range.entry)) }
    ensures held { AreHeldBy C.cmp (F.tells folder.old) checked.old.held →
        AreHeldBy C.cmp (F.tells folder.old) checked.new.held }
    ensures sound { IfOk result (λ _. (files : Files) → Tells (F.tells folder.old) files →
        AreHeldIn C.cmp files checked.old.held → AreSoundIn C.cmp files checked.old.sound.items →
        AreSoundIn C.cmp files checked.new.sound.items) }
    ensures small { IfOk result (λ found. IfSome found (λ count. count ≤ 2 ^ 100)) }
    ensures device { ReportsDevice F.Folder folder.old folder.new result }
    ensures reads { OnlyReads F.Folder folder.old folder.new }
{
    let alloc = workers.alloc();
    let needed = needed_files::<C>(alloc, standing, range)?;
    let numbers = numbers_of(alloc, &needed)?;
    let is_held = hold_next::<C, F, G, R>(workers, folder, &mut checked.held, &numbers)?;
    checked.note(alloc)?;
    if !is_held {
        return Ok(None);
    }
    walk_range::<C, G, R>(workers, &needed, next, &checked.held, range)
}
