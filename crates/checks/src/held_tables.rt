//! Tables of a folder that were checked, held from one range of user keys to the next.

ghost use Rattle.std.specs.Prelude.{◌≡◌, ◌<◌, ◌≤◌, true, [], Ok, IfOk, IfSome, OnOk};
ghost use Rattle.ikey.specs.Answers.{EqualOrMemory};
ghost use Rattle.folder.specs.Calls.{Files, Tells};
ghost use Rattle.folder.specs.OpenAnswer.{FolderAnswers};
ghost use Rattle.folder.specs.Reports.{OnlyReads, ReportsDevice};
ghost use Rattle.checks.specs.HeldTables.{AreHeldBy, AreHeldIn, AreReadAs, IsFoundAnswer, held_if};
ghost use Rattle.checks.specs.HeldTables.{held_numbers};

use crate::found_tables::{FoundTables, read_tables};
use crate::held_table::HeldTable;
use crate::table_places::{placed_tables, reused_places, wanted_numbers};
use board::{Gate, Workers};
use folder::ReadsTables;
use ikey::{Comparator, Fault, SharedComparator};
use reads::NumberedTable;
use std::alloc::Global;
use std::marker::Model;
use std::mem;
use std::thread::Threads;

/// Tables of a folder that were checked, with their bytes and the numbers of their files. Contracts
/// see the numbers and what the tables hold, in order.
///
/// Work that goes over a version by ranges of user keys holds the tables that a range needs, and
/// has [`hold_next`] make them those of the next range.
#[derive(Drop)]
pub struct HeldTables<C: Comparator> {
    tables: Vec<HeldTable<C>>,
}

impl<C: Comparator> Model for HeldTables<C> {
    ghost use Rattle.std.specs.Prelude.{List};
    ghost use Rattle.reads.specs.Tables.{NumberedContents};

    ghost Value = { List NumberedContents };

    ghost view = { λ t. t.tables.items };
}

impl<C: Comparator> HeldTables<C> {
    /// No table. Takes no memory.
    pub fn none(alloc: Global) -> HeldTables<C>
        ensures { result ≡ [] }
    {
        HeldTables {
            tables: Vec::new(alloc),
        }
    }

    /// These tables.
    pub(crate) fn of(tables: Vec<HeldTable<C>>) -> HeldTables<C>
        ensures { result ≡ tables.items }
    {
        HeldTables { tables }
    }

    /// The numbers of the tables, in order.
    pub(crate) fn numbers(&self, alloc: Global) -> Result<Vec<u64>, Fault>
        ensures { EqualOrMemory (λ v. v.items) result (Ok (held_numbers self.now)) }
    {
        let tables = self.tables.as_slice();
        let mut numbers = Vec::with_capacity(alloc, tables.len())?;
        for table in tables {
            numbers.push(table.number())?;
        }
        Ok(numbers)
    }

    /// The tables in order, lent. No test is made again.
    ///
    /// It takes the memory of two keys for each.
    pub fn lend(&self, alloc: Global) -> Result<Vec<NumberedTable<'_, C>>, Fault>
        ensures tables { EqualOrMemory (λ v. v.items) result (Ok self.now) }
        ensures read { OnOk result (AreReadAs C.cmp self.now) }
    {
        let tables = self.tables.as_slice();
        let mut lent = Vec::with_capacity(alloc, tables.len())?;
        for table in tables {
            lent.push(table.lend(alloc)?)?;
        }
        Ok(lent)
    }
}

/// Makes `held` the tables of a folder with these `numbers`, in order. False if one of them is
/// missing or invalid. It only reads.
///
/// `held` are tables of this folder, whose files are as they were when they were read. Those with
/// one of the numbers are kept: they are neither read nor checked again. The others are dropped
/// before a table is read. If the answer is false, those that are neither missing nor invalid are
/// held; if it is an error, none. `workers` check the tables that are read, each a job.
///
/// If the device fails a call, the answer is Device and no further call is made. If memory runs
/// out, it is Memory.
///
/// No contract says which tables are read.
pub fn hold_next<C: SharedComparator, F: ReadsTables, G: Gate + Sync, R: Threads + Sync>(
    workers: &Workers<'_, R, G>,
    folder: &mut F,
    held: &mut HeldTables<C>,
    numbers: &[u64],
) -> Result<bool, Fault>
    ensures answer { (files : Files) → Tells (F.tells folder.old) files →
        AreHeldIn C.cmp files held.old →
        FolderAnswers (λ is_held. held_if is_held held.new) (F.failed folder.old)
        (F.failed folder.new) result (IsFoundAnswer C.cmp files numbers.now) }
    ensures numbers { IfOk result
        (λ is_held. is_held ≡ true → held_numbers held.new ≡ numbers.now) }
    // Of any folder, also one that tells nothing.
    ensures held { AreHeldBy C.cmp (F.tells folder.old) held.old →
        AreHeldBy C.cmp (F.tells folder.old) held.new }
    ensures device { ReportsDevice F.Folder folder.old folder.new result }
    ensures reads { OnlyReads F.Folder folder.old folder.new }
{
    let before = mem::replace(held, HeldTables::none(workers.alloc()));
    let found = hold_tables::<C, F, G, R>(workers, folder, before, numbers)?;
    let FoundTables { tables, are_all } = found;
    *held = tables;
    Ok(are_all)
}

/// The tables of a folder with these `numbers`, in order. Those that are missing or invalid are
/// left out. All else is as [`hold_next`] has it.
pub(crate) fn hold_tables<C: SharedComparator, F: ReadsTables, G: Gate + Sync, R: Threads + Sync>(
    workers: &Workers<'_, R, G>,
    folder: &mut F,
    held: HeldTables<C>,
    numbers: &[u64],
) -> Result<FoundTables<C>, Fault>
    ensures answer { (files : Files) → Tells (F.tells folder.old) files →
        AreHeldIn C.cmp files held →
        FolderAnswers (λ found. held_if found.are_all found.tables) (F.failed folder.old)
        (F.failed folder.new) result (IsFoundAnswer C.cmp files numbers.now) }
    ensures numbers { IfOk result
        (λ found. found.are_all ≡ true → held_numbers found.tables ≡ numbers.now) }
    ensures held { AreHeldBy C.cmp (F.tells folder.old) held →
        IfOk result (λ found. AreHeldBy C.cmp (F.tells folder.old) found.tables) }
    ensures device { ReportsDevice F.Folder folder.old folder.new result }
    ensures reads { OnlyReads F.Folder folder.old folder.new }
{
    let alloc = workers.alloc();
    let places = reused_places(alloc, held.tables, numbers)?;
    let wanted = wanted_numbers(alloc, &places)?;
    let found = read_tables::<C, F, G, R>(workers, folder, &wanted)?;
    let FoundTables {
        tables: fresh,
        are_all,
    } = found;
    let tables = HeldTables::of(placed_tables(alloc, places, fresh.tables)?);
    Ok(FoundTables { tables, are_all })
}
