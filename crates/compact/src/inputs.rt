//! The first phase: the inputs are checked.

ghost use Rattle.std.specs.Prelude.{◌≡◌, ◌<◌, ◌≤◌, List, length, map, slice_get, Some, Result};
ghost use Rattle.ikey.specs.Answers.{EqualOrMemory, FailsOrMemory};
ghost use Rattle.table.specs.EncodedEntry.{Entry};
ghost use Rattle.compact.specs.Inputs.{result_at_input, table_matches_metadata, input_reading};
ghost use Rattle.compact.specs.Inputs.{inputs_reading};
ghost use Rattle.compact.specs.RangeMerges.{by_workers};
ghost use Rattle.compact.specs.JobAnswers.{input_answers};

use board::{Gate, Labour, run};
use edit::FileMeta;
use ikey::{Comparator, Fault, FaultName, SharedComparator};
use pick::InputFile;
use reads::has_bounds;
use std::alloc::Global;
use std::marker::PhantomData;
use std::thread::Threads;
use table::{SoundTable, check};

/// The inputs of a compaction, each a job.
#[derive(Drop)]
struct Checks<'r, 't, C> {
    alloc: Global,
    files: &'r [InputFile],
    tables: &'r [&'t [u8]],
    order: PhantomData<C>,
}

impl<'r, 't, C: Comparator> Labour for Checks<'r, 't, C> {
    type Out = SoundTable<'t, C>;

    ghost use Rattle.std.specs.Prelude.{length, map};
    ghost use Rattle.board.specs.CollectedResults.{refusal_at, HasValue};
    ghost use Rattle.compact.specs.JobAnswers.{input_answers};

    ghost jobs = { λ s.
        length (input_answers C.cmp 0 s.files.now (map (λ t. t.now) s.tables.now)) };

    ghost refusal = { λ s job.
        refusal_at (input_answers C.cmp 0 s.files.now (map (λ t. t.now) s.tables.now)) job };

    ghost gives = { λ s job out. HasValue
        (input_answers C.cmp 0 s.files.now (map (λ t. t.now) s.tables.now)) job out.entries };

    fn work(&self, job: u64) -> Result<SoundTable<'t, C>, Fault> {
        check_at(self.alloc, self.files, self.tables, job)
    }
}

/// Checks the inputs of a compaction by 1 to 64 workers, a table a job, and answers the tables in
/// order. There are at most 256 inputs.
///
/// The first that applies:
///
/// - `Workers`: `workers` is outside 1 to 64.
/// - The fault of the first input that has one, with its place, whichever worker is first. It is
///   what `table::check` refuses of its bytes; else `Bounds`, if size, smallest or largest key
///   isn't as the version states.
///
/// The only other fault is `Memory`, about no input.
pub fn check_inputs<'t, C: SharedComparator, G: Gate + Sync, R: Threads + Sync>(
    rt: &R,
    alloc: Global,
    files: &[InputFile],
    tables: &[&'t [u8]],
    workers: u64,
    gate: &G,
) -> Result<Vec<SoundTable<'t, C>>, Fault>
    requires few { length files.now ≤ 256 }
    ensures { EqualOrMemory (λ v. map (λ t. t.entries) v.items) result
        (by_workers workers (inputs_reading C.cmp 0 files.now (map (λ t. t.now) tables.now))) }
{
    let checks = Checks {
        alloc,
        files,
        tables,
        order: PhantomData,
    };
    let jobs = files.len().min(tables.len()) as u64;
    Ok(run(rt, alloc, &checks, jobs, workers, gate)?)
}

/// The table of the input whose place is the number of the job.
fn check_at<'t, C: Comparator>(
    alloc: Global,
    files: &[InputFile],
    tables: &[&'t [u8]],
    job: u64,
) -> Result<SoundTable<'t, C>, Fault>
    requires files { job < length files.now }
    requires tables { job < length tables.now }
    ensures { (answer : Result (List Entry) _)
        → slice_get (input_answers C.cmp 0 files.now (map (λ t. t.now) tables.now)) job
        ≡ Some answer
        → EqualOrMemory (λ t. t.entries) result answer }
{
    let place = job as usize;
    check_input(alloc, &files[place], tables[place], job)
}

/// The table of the input at a place.
fn check_input<'t, C: Comparator>(
    alloc: Global,
    input: &InputFile,
    bytes: &'t [u8],
    place: u64,
) -> Result<SoundTable<'t, C>, Fault>
    ensures { EqualOrMemory (λ t. t.entries) result
        (result_at_input place (input_reading C.cmp input.now.meta bytes.now)) }
{
    match read_input::<C>(alloc, &input.meta, bytes) {
        Ok(table) => Ok(table),
        Err(fault) => Err(about(fault, place)),
    }
}

/// The fault, about the input at a place. Memory is about no input.
fn about(fault: Fault, place: u64) -> Fault
    ensures { (answer : Result (List Entry) _) → FailsOrMemory fault answer →
        FailsOrMemory result (result_at_input place answer) }
{
    if fault == Fault::of(FaultName::Memory) {
        return fault;
    }
    Fault {
        name: fault.name,
        input: Some(place),
    }
}

/// The table of an input, if its bytes are a table and it is as the version states.
fn read_input<'t, C: Comparator>(
    alloc: Global,
    file: &FileMeta,
    bytes: &'t [u8],
) -> Result<SoundTable<'t, C>, Fault>
    ensures { EqualOrMemory (λ t. t.entries) result (input_reading C.cmp file.now bytes.now) }
{
    let table = check::<C>(alloc, bytes)?;
    if !matches_metadata(file, &table) {
        return Err(Fault::of(FaultName::Bounds));
    }
    Ok(table)
}

/// Whether a table's length, smallest and largest key are as the version states.
pub fn matches_metadata<C: Comparator>(file: &FileMeta, table: &SoundTable<'_, C>) -> bool
    ensures { result ≡ table_matches_metadata file.now table.now }
{
    has_bounds(file, table.bytes(), table.smallest(), table.largest())
}
