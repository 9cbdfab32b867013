//! Tables of a folder, read and checked.

ghost use Rattle.std.specs.Prelude.{◌≡◌, ◌<◌, ◌≤◌, true, map, IfOk, IfErr, IfSome};
ghost use Rattle.std.specs.Option.{MatchOption, option_map};
ghost use Rattle.ikey.specs.Answers.{fault};
ghost use Rattle.ikey.specs.fault.FaultName.TheVariants.{Memory};
ghost use Rattle.folder.specs.Calls.{Files, Tells};
ghost use Rattle.folder.specs.OpenAnswer.{FolderAnswers};
ghost use Rattle.folder.specs.Reports.{OnlyReads, ReportsDevice};
ghost use Rattle.checks.specs.TableAnswers.{IsInvalid, IsRead};
ghost use Rattle.checks.specs.HeldTables.{AreHeldBy, IsFoundAnswer, held_if, held_numbers};
ghost use Rattle.checks.specs.TablePlaces.{IsLoadedIfThere};

use crate::held_table::HeldTable;
use crate::held_tables::HeldTables;
use crate::table_places::{placed_tables, wanted_numbers};
use crate::worker_tables::{owned_table, worker_places};
use board::{Gate, Workers};
use folder::{Folder, ReadsTables, load_numbers};
use ikey::{Comparator, Fault, FaultName, SharedComparator};
use std::alloc::Global;
use std::thread::Threads;

/// Tables that were read and checked.
#[derive(Drop)]
pub(crate) struct FoundTables<C: Comparator> {
    pub tables: HeldTables<C>,
    /// Whether they are all that were asked for.
    pub are_all: bool,
}

/// The tables of a folder with these numbers, in order. Those that are missing or invalid are left
/// out. It only reads.
///
/// `workers` read and check them, a table a job. Those that can't be had so are read in order, and
/// then checked.
pub(crate) fn read_tables<C: SharedComparator, F: ReadsTables, G: Gate + Sync, R: Threads + Sync>(
    workers: &Workers<'_, R, G>,
    folder: &mut F,
    numbers: &[u64],
) -> Result<FoundTables<C>, Fault>
    ensures answer { (files : Files) → Tells (F.tells folder.old) files →
        FolderAnswers (λ found. held_if found.are_all found.tables) (F.failed folder.old)
        (F.failed folder.new) result (IsFoundAnswer C.cmp files numbers.now) }
    ensures numbers { IfOk result
        (λ found. found.are_all ≡ true → held_numbers found.tables ≡ numbers.now) }
    // Whatever the folder tells.
    ensures told { IfOk result (λ found. AreHeldBy C.cmp (F.tells folder.old) found.tables) }
    ensures device { ReportsDevice F.Folder folder.old folder.new result }
    ensures reads { OnlyReads F.Folder folder.old folder.new }
{
    let alloc = workers.alloc();
    let places = worker_places(workers, folder, numbers)?;
    let wanted = wanted_numbers(alloc, &places)?;
    let found = load_tables::<C, F, G, R>(workers, folder, &wanted)?;
    let Some(fresh) = found else {
        let had = placed_tables(alloc, places, Vec::new(alloc))?;
        return Ok(FoundTables {
            tables: HeldTables::of(had),
            are_all: false,
        });
    };
    let tables = placed_tables(alloc, places, fresh)?;
    Ok(FoundTables {
        tables: HeldTables::of(tables),
        are_all: true,
    })
}

/// The tables of a folder with these numbers, read in order and then checked. None if one of them
/// is missing or invalid. It only reads.
fn load_tables<C: SharedComparator, F: Folder, G: Gate + Sync, R: Threads + Sync>(
    workers: &Workers<'_, R, G>,
    folder: &mut F,
    numbers: &[u64],
) -> Result<Option<Vec<HeldTable<C>>>, Fault>
    ensures answer { (files : Files) → Tells (F.tells folder.old) files →
        FolderAnswers (λ found. option_map (λ v. v.items) found) (F.failed folder.old)
        (F.failed folder.new) result (IsFoundAnswer C.cmp files numbers.now) }
    ensures numbers { IfOk result
        (λ found. IfSome found (λ v. held_numbers v.items ≡ numbers.now)) }
    ensures told { IfOk result
        (λ found. IfSome found (λ v. AreHeldBy C.cmp (F.tells folder.old) v.items)) }
    ensures device { ReportsDevice F.Folder folder.old folder.new result }
    ensures reads { OnlyReads F.Folder folder.old folder.new }
{
    let Some(loaded) = load_if_there(workers.alloc(), folder, numbers)? else {
        return Ok(None);
    };
    owned_tables(workers.alloc(), loaded)
}

/// The bytes of the tables with these numbers. None if one of them is missing. It only reads.
fn load_if_there<F: Folder>(
    alloc: Global,
    folder: &mut F,
    numbers: &[u64],
) -> Result<Option<Vec<(u64, Vec<u8>)>>, Fault>
    ensures answer { FolderAnswers
        (λ found. option_map (λ v. map (λ t. (t.0, t.1.items)) v.items) found)
        (F.failed folder.old) (F.failed folder.new) result
        (IsLoadedIfThere (F.tells folder.old) numbers.now) }
    ensures device { ReportsDevice F.Folder folder.old folder.new result }
    ensures reads { OnlyReads F.Folder folder.old folder.new }
{
    match load_numbers(alloc, folder, numbers) {
        Ok(loaded) => Ok(Some(loaded)),
        Err(refused) => match refused.name {
            FaultName::Missing => Ok(None),
            _ => Err(refused),
        },
    }
}

/// The tables of these numbers and bytes, which own the bytes. None if one is invalid.
fn owned_tables<C: Comparator>(
    alloc: Global,
    loaded: Vec<(u64, Vec<u8>)>,
) -> Result<Option<Vec<HeldTable<C>>>, Fault>
    ensures checked { IfOk result (λ found. MatchOption found
        (IsInvalid C.cmp (map (λ t. (t.0, t.1.items)) loaded.items))
        (λ v. IsRead C.cmp (map (λ t. (t.0, t.1.items)) loaded.items) v.items)) }
    ensures memory { IfErr result (λ e. e ≡ fault Memory) }
{
    let mut tables = Vec::with_capacity(alloc, loaded.len())?;
    for pair in loaded {
        let (number, bytes) = pair;
        let Some(table) = owned_table(alloc, number, bytes)? else {
            return Ok(None);
        };
        tables.push(table)?;
    }
    Ok(Some(tables))
}
