//! The check of a table, as a job.

ghost use Rattle.std.specs.Prelude.{◌≡◌, ◌<◌, ◌≤◌, length, map, slice_get, Some, Result};
ghost use Rattle.ikey.specs.Answers.{EqualOrMemory};
ghost use Rattle.reads.specs.Tables.{NumberedContents};
ghost use Rattle.checks.specs.TableReadings.{numbered_reading, tables_reading};
ghost use Rattle.checks.specs.TableAnswers.{table_answers};
ghost use Rattle.board.specs.declared.limits.TheConstants.{MAX_JOBS};

use board::{Gate, Labour, Workers};
use ikey::{Comparator, Fault, SharedComparator};
use reads::NumberedTable;
use std::alloc::Global;
use std::marker::PhantomData;
use std::thread::Threads;
use table::check;

/// Tables that were read, each a job.
#[derive(Drop)]
struct Checks<'t, C> {
    alloc: Global,
    loaded: &'t [(u64, Vec<u8>)],
    order: PhantomData<C>,
}

impl<'t, C: Comparator> Labour for Checks<'t, C> {
    type Out = NumberedTable<'t, C>;

    ghost use Rattle.std.specs.Prelude.{length, map};
    ghost use Rattle.board.specs.CollectedResults.{refusal_at, HasValue};
    ghost use Rattle.checks.specs.TableAnswers.{table_answers};

    ghost jobs = { λ s. length s.loaded.now };

    ghost refusal = { λ s job.
        refusal_at (table_answers C.cmp (map (λ t. (t.0, t.1.items)) s.loaded.now)) job };

    ghost gives = { λ s job out.
        HasValue (table_answers C.cmp (map (λ t. (t.0, t.1.items)) s.loaded.now)) job out };

    fn work(&self, job: u64) -> Result<NumberedTable<'t, C>, Fault> {
        check_at(self.alloc, self.loaded, job)
    }
}

/// The tables of these numbers and bytes, checked by `workers`, a table a job. There are at most
/// 2^40.
///
/// Refused as the first invalid table is, by the first test that it fails.
pub(crate) fn check_round<'t, C: SharedComparator, G: Gate + Sync, R: Threads + Sync>(
    workers: &Workers<'_, R, G>,
    loaded: &'t [(u64, Vec<u8>)],
) -> Result<Vec<NumberedTable<'t, C>>, Fault>
    requires jobs { length loaded.now ≤ MAX_JOBS }
    ensures { EqualOrMemory (λ v. v.items) result
        (tables_reading C.cmp (map (λ t. (t.0, t.1.items)) loaded.now)) }
{
    let checks = Checks {
        alloc: workers.alloc(),
        loaded,
        order: PhantomData,
    };
    Ok(workers.run(&checks, loaded.len() as u64)?)
}

/// The table whose place is the number of the job.
fn check_at<'t, C: Comparator>(
    alloc: Global,
    loaded: &'t [(u64, Vec<u8>)],
    job: u64,
) -> Result<NumberedTable<'t, C>, Fault>
    requires { job < length loaded.now }
    ensures { (answer : Result NumberedContents _)
        → slice_get (table_answers C.cmp (map (λ t. (t.0, t.1.items)) loaded.now)) job ≡ Some answer
        → EqualOrMemory (λ t. t) result answer }
{
    let (number, bytes) = &loaded[job as usize];
    check_table(alloc, *number, bytes)
}

/// The table of a number and bytes, if these are a table.
fn check_table<'t, C: Comparator>(
    alloc: Global,
    number: u64,
    bytes: &'t [u8],
) -> Result<NumberedTable<'t, C>, Fault>
    ensures { EqualOrMemory (λ t. t) result (numbered_reading C.cmp (number, bytes.now)) }
{
    let sound = check::<C>(alloc, bytes)?;
    Ok(NumberedTable::of(number, sound))
}
