//! The tables of inputs: read from a folder, checked, and compared with what the version states.

ghost use Rattle.std.specs.Prelude.{◌≡◌, length, map, Ok};
ghost use Rattle.folder.specs.Answers.{EqualOrMemory};
ghost use Rattle.checks.specs.HeldBytes.{held_bytes};
ghost use Rattle.folder.specs.LoadedTables.{IsLoaded};
ghost use Rattle.folder.specs.OpenAnswer.{FolderAnswers};
ghost use Rattle.folder.specs.Reports.{OnlyReads, ReportsDevice};
ghost use Rattle.install.specs.Install.{tables_in};
ghost use Rattle.store.specs.InputsCompaction.{are_stated, input_numbers, input_tables};

use board::Watch;
use checks::{HeldTables, SharedComparator, Workers, check_tables};
use compact::matches_metadata;
use folder::{Comparator, Fault, FaultName, Folder, load_numbers};
use pick::InputFile;
use reads::{NumberedTable, SoundTable};
use std::alloc::Global;
use std::thread::Threads;

/// The tables of `inputs` in their order, with their numbers. It only reads. Missing at the first
/// that is missing.
pub fn load_inputs<F: Folder>(
    alloc: Global,
    folder: &mut F,
    inputs: &[InputFile],
) -> Result<Vec<(u64, Vec<u8>)>, Fault>
    ensures answer { FolderAnswers (λ v. map (λ t. (t.0, t.1.items)) v.items) (F.failed folder.old)
        (F.failed folder.new) result (IsLoaded (F.tells folder.old) (input_numbers inputs.now)) }
    ensures device { ReportsDevice F.Folder folder.old folder.new result }
    ensures reads { OnlyReads F.Folder folder.old folder.new }
{
    let numbers = numbers_of(alloc, inputs)?;
    load_numbers(alloc, folder, &numbers)
}

/// The numbers of inputs in their order.
pub(crate) fn numbers_of(alloc: Global, inputs: &[InputFile]) -> Result<Vec<u64>, Fault>
    ensures { EqualOrMemory (λ v. v.items) result (Ok (input_numbers inputs.now)) }
{
    let mut numbers = Vec::with_capacity(alloc, inputs.len())?;
    for input in inputs {
        numbers.push(input.meta.number)?;
    }
    Ok(numbers)
}

/// Checks the tables of `inputs`, which were read in that order. Refused as the first that is
/// invalid; then Bounds, if one isn't as its file states. The only other fault is Memory.
pub fn checked_inputs<'t, C: SharedComparator, W: Watch + Sync, R: Threads + Sync>(
    workers: &Workers<'_, R, W>,
    inputs: &[InputFile],
    loaded: &'t [(u64, Vec<u8>)],
) -> Result<Vec<SoundTable<'t, C>>, Fault>
    requires lengths { length loaded.now ≡ length inputs.now }
    ensures { EqualOrMemory (λ v. v.items) result
        (input_tables C.cmp inputs.now (tables_in loaded.now)) }
{
    let alloc = workers.alloc();
    let tables = check_tables::<C, W, R>(workers, loaded)?;
    if !are_stated(inputs, &tables) {
        return Err(Fault::of(FaultName::Bounds));
    }
    without_numbers(alloc, tables)
}

/// The held tables of `inputs`, lent in their order. Bounds, if one isn't as its file states. The
/// only other fault is Memory.
pub(crate) fn stated_tables<'h, C: Comparator>(
    alloc: Global,
    inputs: &[InputFile],
    held: &'h HeldTables<C>,
) -> Result<Vec<SoundTable<'h, C>>, Fault>
    requires lengths { length held.now ≡ length inputs.now }
    ensures { EqualOrMemory (λ v. v.items) result
        (input_tables C.cmp inputs.now (held_bytes held.now)) }
{
    let tables = held.lend(alloc)?;
    if !are_stated(inputs, &tables) {
        return Err(Fault::of(FaultName::Bounds));
    }
    without_numbers(alloc, tables)
}

/// Whether the table of each input is as its file states.
fn are_stated<C: Comparator>(inputs: &[InputFile], tables: &[NumberedTable<'_, C>]) -> bool
    requires { length tables.now ≡ length inputs.now }
    ensures { result ≡ are_stated inputs.now tables.now }
{
    for place in 0..inputs.len() {
        if !matches_metadata(&inputs[place].meta, tables[place].table()) {
            return false;
        }
    }
    true
}

/// The tables without their numbers.
fn without_numbers<'t, C: Comparator>(
    alloc: Global,
    tables: Vec<NumberedTable<'t, C>>,
) -> Result<Vec<SoundTable<'t, C>>, Fault>
    ensures { EqualOrMemory (λ v. v.items) result
        (Ok (map (λ t. t.contents) tables.entry.items)) }
{
    let mut unnumbered = Vec::with_capacity(alloc, tables.len())?;
    for table in tables {
        unnumbered.push(table.into_table())?;
    }
    Ok(unnumbered)
}

/// The bytes of tables in their order.
pub fn bytes_of<'t, C: Comparator>(
    alloc: Global,
    tables: &[SoundTable<'t, C>],
) -> Result<Vec<&'t [u8]>, Fault>
    ensures { EqualOrMemory (λ v. map (λ b. b.now) v.items) result
        (Ok (map (λ t. t.bytes) tables.now)) }
{
    let mut all = Vec::with_capacity(alloc, tables.len())?;
    for table in tables {
        all.push(table.bytes())?;
    }
    Ok(all)
}
