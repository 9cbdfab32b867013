//! Tables of a folder, each read and checked in one job.
//!
//! Why: who has just read a table has it in the cache.

ghost use Rattle.std.specs.Prelude.{◌≡◌, ◌<◌, ◌≤◌, IfOk, IfErr, Ok};
ghost use Rattle.std.specs.List.{AllZip};
ghost use Rattle.std.specs.Option.{MatchOption};
ghost use Rattle.ikey.specs.Answers.{fault};
ghost use Rattle.ikey.specs.fault.FaultName.TheVariants.{Memory};
ghost use Rattle.table.specs.TableContents.{Contents, contents_reading};
ghost use Rattle.checks.specs.TablePlaces.{IsToldPlace};

use crate::held_table::HeldTable;
use crate::rounds::MAX_TABLES;
use crate::table_places::TablePlace;
use board::{Gate, Labour, Workers};
use folder::{ReadsTables, TableReader};
use ikey::{Comparator, Fault, FaultName, SharedComparator};
use std::alloc::Global;
use std::marker::PhantomData;
use std::thread::Threads;
use table::OwnedTable;

/// Tables that are to be read and checked, each a job.
#[derive(Drop)]
struct TablesToCheck<'p, C, D> {
    alloc: Global,
    reader: &'p D,
    numbers: &'p [u64],
    order: PhantomData<C>,
}

impl<'p, C: Comparator, D: TableReader> Labour for TablesToCheck<'p, C, D> {
    type Out = TablePlace<C>;

    ghost use Rattle.std.specs.Prelude.{length, slice_get, None, IfSome};
    ghost use Rattle.checks.specs.TablePlaces.{IsToldPlace};

    ghost jobs = { λ s. length s.numbers.now };

    ghost refusal = { λ _ _. None };

    ghost gives = { λ s job place. IfSome (slice_get s.numbers.now job)
        (IsToldPlace C.cmp (D.tells s.reader.now) place) };

    fn work(&self, job: u64) -> Result<TablePlace<C>, Fault> {
        let number = self.numbers[job as usize];
        match self.reader.table(self.alloc, number) {
            Some(bytes) => Ok(TablePlace::of(number, owned_table(self.alloc, number, bytes)?)),
            None => Ok(TablePlace::of(number, None)),
        }
    }
}

/// The table of a `number` and these bytes. None if it is invalid.
pub(crate) fn owned_table<C: Comparator>(
    alloc: Global,
    number: u64,
    bytes: Vec<u8>,
) -> Result<Option<HeldTable<C>>, Fault>
    ensures checked { IfOk result (λ found. MatchOption found
        ((x : Contents) → contents_reading C.cmp bytes.items ≡ Ok x → ⊥)
        (λ t. (t.number ≡ number) × (t.contents.bytes ≡ bytes.items)
        × (contents_reading C.cmp bytes.items ≡ Ok t.contents))) }
    ensures memory { IfErr result (λ e. e ≡ fault Memory) }
{
    match OwnedTable::check(alloc, bytes) {
        Ok(table) => Ok(Some(HeldTable::of(number, table))),
        Err(refused) => match refused.name {
            FaultName::Memory => Err(Fault::of(FaultName::Memory)),
            _ => Ok(None),
        },
    }
}

/// The places of the tables of a folder with these numbers, in order. Each has its table, read and
/// checked by one of `workers`, unless that can't be had or is invalid.
pub(crate) fn worker_places<C: SharedComparator, F: ReadsTables, G: Gate + Sync, R: Threads + Sync>(
    workers: &Workers<'_, R, G>,
    folder: &F,
    numbers: &[u64],
) -> Result<Vec<TablePlace<C>>, Fault>
    ensures places { IfOk result
        (λ v. AllZip (IsToldPlace C.cmp (F.tells folder.now)) v.items numbers.now) }
    ensures memory { IfErr result (λ e. e ≡ fault Memory) }
{
    let reader = folder.reader();
    places_of(workers, &reader, numbers)
}

/// The same places, as the `reader` of the folder gives their tables.
fn places_of<C: SharedComparator, D: TableReader, G: Gate + Sync, R: Threads + Sync>(
    workers: &Workers<'_, R, G>,
    reader: &D,
    numbers: &[u64],
) -> Result<Vec<TablePlace<C>>, Fault>
    ensures places { IfOk result
        (λ v. AllZip (IsToldPlace C.cmp (D.tells reader.now)) v.items numbers.now) }
    ensures memory { IfErr result (λ e. e ≡ fault Memory) }
{
    if numbers.len() > MAX_TABLES {
        return Err(Fault::of(FaultName::Memory));
    }
    let jobs = numbers.len() as u64;
    let checks = TablesToCheck {
        alloc: workers.alloc(),
        reader,
        numbers,
        order: PhantomData,
    };
    let places = workers.run(&checks, jobs)?;
    Ok(places)
}
