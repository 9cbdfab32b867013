//! Why the tables of a version are refused.

ghost use Rattle.std.specs.Prelude.{◌≡◌, ◌<◌, ◌≤◌, ◌++◌, ℕ, List, filter, map, IfOk, IfErr};
ghost use Rattle.ikey.specs.Answers.{fault};
ghost use Rattle.ikey.specs.fault.FaultName.TheVariants.{Memory};
ghost use Rattle.folder.specs.Calls.{Files, Tells};
ghost use Rattle.folder.specs.OpenAnswer.{FolderAnswers};
ghost use Rattle.folder.specs.Reports.{OnlyReads, ReportsDevice};
ghost use Rattle.checks.specs.InOrder.{AreChecked, AreSoundIn, IsFirstRefusal, is_unknown};

use crate::rounds::{check_rounds, tell_refused};
use board::{Open, Watch, Workers};
use folder::{Folder, load_numbers};
use ikey::{Fault, FaultName, SharedComparator};
use std::alloc::Global;
use std::thread::Threads;

/// How many tables are in memory at once.
const ROUND: usize = 4;

/// Reads and checks the tables of these numbers in order. Those with one of the `sound` numbers are
/// known to be valid, and not read. The gate of `workers` is told which table is refused. It only
/// reads.
///
/// - Missing: at the first missing table.
/// - The refusal of the first invalid table, as of `table::check`, if none is missing.
pub(crate) fn check_others<C: SharedComparator, F: Folder, W: Watch, R: Threads + Sync>(
    workers: &Workers<'_, R, W>,
    folder: &mut F,
    sound: &[u64],
    numbers: &[u64],
) -> Result<(), Fault>
    ensures answer { (files : Files) → Tells (F.tells folder.old) files →
        AreSoundIn C.cmp files sound.now →
        FolderAnswers (λ none. none) (F.failed folder.old) (F.failed folder.new) result
        (AreChecked C.cmp files numbers.now) }
    ensures device { ReportsDevice F.Folder folder.old folder.new result }
    ensures reads { OnlyReads F.Folder folder.old folder.new }
{
    let unknown = unknown_numbers(workers.alloc(), sound, numbers)?;
    check_in_order::<C, F, W, R>(workers, folder, &unknown)
}

/// Those of the numbers that are not among the `sound` ones, in order.
fn unknown_numbers(alloc: Global, sound: &[u64], numbers: &[u64]) -> Result<Vec<u64>, Fault>
    ensures unknown { IfOk result (λ v. v.items ≡ filter (is_unknown sound.now) numbers.now) }
    ensures memory { IfErr result (λ e. e ≡ fault Memory) }
{
    let mut unknown = Vec::new(alloc);
    for number in numbers {
        if is_unknown(sound, *number) {
            unknown.push(*number)?;
        }
    }
    Ok(unknown)
}

/// Whether a number is not among the `sound` ones.
fn is_unknown(sound: &[u64], number: u64) -> bool
    ensures { result ≡ is_unknown sound.now number }
{
    !sound.contains(&number)
}

/// Reads and checks the tables of these numbers in order, four at a time, and answers as
/// [`check_others`] does.
fn check_in_order<C: SharedComparator, F: Folder, W: Watch, R: Threads + Sync>(
    workers: &Workers<'_, R, W>,
    folder: &mut F,
    numbers: &[u64],
) -> Result<(), Fault>
    ensures answer { (files : Files) → Tells (F.tells folder.old) files →
        FolderAnswers (λ none. none) (F.failed folder.old) (F.failed folder.new) result
        (AreChecked C.cmp files numbers.now) }
    ensures device { ReportsDevice F.Folder folder.old folder.new result }
    ensures reads { OnlyReads F.Folder folder.old folder.new }
{
    let mut first = None;
    let mut rest = numbers;
    while !rest.is_empty() {
        let (round, behind) = rest.split_at(rest.len().min(ROUND));
        let loaded = load_numbers(workers.alloc(), folder, round)?;
        first = first_refusal::<C, W, R>(workers, first, &loaded)?;
        rest = behind;
    }
    match first {
        Some(refused) => Err(refused),
        None => Ok(()),
    }
}

/// The refusal of the first invalid table, if one is, among those of which `first` is it and these
/// after them.
fn first_refusal<C: SharedComparator, W: Watch, R: Threads + Sync>(
    workers: &Workers<'_, R, W>,
    first: Option<Fault>,
    loaded: &[(u64, Vec<u8>)],
) -> Result<Option<Fault>, Fault>
    ensures refusal { IfOk result (λ found. (before : List (ℕ × List ℕ)) →
        IsFirstRefusal C.cmp before first →
        IsFirstRefusal C.cmp (before ++ map (λ t. (t.0, t.1.items)) loaded.now) found) }
    ensures memory { IfErr result (λ e. e ≡ fault Memory) }
{
    if first.is_some() {
        return Ok(first);
    }
    match check_rounds::<C, Open, R>(&workers.with_gate(&Open), loaded) {
        Ok(_) => Ok(None),
        Err(refused) => match refused.name {
            FaultName::Memory => Err(Fault::of(FaultName::Memory)),
            _ => {
                tell_refused::<C, W>(workers.alloc(), workers.gate(), loaded);
                Ok(Some(refused))
            }
        },
    }
}
