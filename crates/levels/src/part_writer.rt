//! Compacts parts of a level, one after the other, and writes their tables.

ghost use Rattle.std.specs.Prelude.{◌≡◌, ◌+◌, ◌++◌, [], ℕ, map, slice_get, Some};
ghost use Rattle.std.specs.Prelude.{IfErr, OnOk};
ghost use Rattle.edit.specs.Answers.{fault};
ghost use Rattle.edit.specs.fault.FaultName.TheVariants.{Memory};
ghost use Rattle.folder.specs.Reports.{ReportsDevice};
ghost use Rattle.install.specs.Install.{tables_in};
ghost use Rattle.compact.specs.AnswerIn.{answer_in};
ghost use Rattle.compact.specs.GroupedAnswer.{table_sizes};
ghost use Rattle.pick.specs.PickedInputs.{picked_in};
ghost use Rattle.store.specs.FolderRequest.{manifest_of};
ghost use Rattle.pick.specs.declared.picked_inputs.Inputs.{Inputs};
ghost use Rattle.levels.specs.PartsEnd.{ArePartsWritten, AreRangeAt, AreSelectedParts};
ghost use Rattle.levels.specs.PartsEnd.{IsOutcomeWritten, IsPartAt, IsPartWritten};
ghost use Rattle.levels.specs.PartsEnd.{IsRangeWritten};

use board::Watch;
use checks::{HeldTables, SharedComparator, Workers};
use edit::{Fault, FaultName, Outcome, Version};
use folder::{ReadsTables, WritesTables};
use install::write_group;
use pick::Inputs;
use std::alloc::Global;
use std::thread::Threads;
use store::{OutcomeSettings, Settings, edit_is_bytes, manifest_of, outcome_of_picked};

/// What is kept of parts whose tables were written.
#[derive(Drop)]
pub(crate) struct WrittenParts {
    /// The number and the length of each new table, in order.
    pub outputs: Vec<(u64, u64)>,
    /// The bytes of their edits, one after the other.
    pub edits: Vec<u8>,
    /// The number after which the outputs of the next part are numbered.
    pub last: u64,
}

impl WrittenParts {
    /// Before the first part of a version.
    fn none(alloc: Global, version: &Version) -> WrittenParts
        ensures outputs { result.outputs.items ≡ [] }
        ensures edits { result.edits.items ≡ [] }
        ensures last { result.last ≡ manifest_of version.now }
    {
        WrittenParts {
            outputs: Vec::new(alloc),
            edits: Vec::new(alloc),
            last: manifest_of(version),
        }
    }

    /// Takes in the outcome of one more part.
    fn take_in(&mut self, outcome: &Outcome) -> Result<(), Fault>
        ensures outputs { OnOk result (self.new.outputs.items
            ≡ self.old.outputs.items ++ table_sizes (tables_in outcome.now.tables.items)) }
        ensures edits { OnOk result
            (self.new.edits.items ≡ self.old.edits.items ++ outcome.now.edit.items) }
        ensures last { self.new.last ≡ self.old.last }
        ensures memory { IfErr result (λ e. e ≡ fault Memory) }
    {
        push_sizes(&mut self.outputs, &outcome.tables)?;
        self.edits.extend_from_slice(&outcome.edit)?;
        Ok(())
    }
}

/// Appends the number and the length of each table.
fn push_sizes(outputs: &mut Vec<(u64, u64)>, tables: &[(u64, Vec<u8>)]) -> Result<(), Fault>
    ensures ok { OnOk result
        (outputs.new.items ≡ outputs.old.items ++ table_sizes (tables_in tables.now)) }
    ensures memory { IfErr result (λ e. e ≡ fault Memory) }
{
    for (number, bytes) in tables {
        outputs.push((*number, bytes.len() as u64))?;
    }
    Ok(())
}

/// Parts of a level of a version, and what their compactions are asked to keep to.
#[derive(Clone, Copy)]
struct PartsTask<'a> {
    version: &'a Version,
    parts: &'a [Inputs],
    settings: &'a Settings<'a>,
}

/// Compacts `parts` of a level of a `version` in their order, and writes their tables. Nothing is
/// installed.
///
/// The first that applies, of each part in turn:
///
/// - Numbers: no number is left;
/// - what [`outcome_of_picked`] is refused as;
/// - what a write of its tables is.
pub(crate) fn write_parts<
    C: SharedComparator + 'static,
    F: ReadsTables + WritesTables,
    W: Watch + Sync,
    R: Threads + Sync,
>(
    workers: &Workers<'_, R, W>,
    folder: &mut F,
    version: &Version,
    parts: &[Inputs],
    settings: &Settings<'_>,
) -> Result<WrittenParts, Fault>
    requires { AreSelectedParts C.cmp version.now (map picked_in parts.now) }
    ensures written { ArePartsWritten F.Folder C.cmp C.short_keys version.now settings.now
        (map picked_in parts.now) folder.old folder.new result }
    ensures device { ReportsDevice F.Folder folder.old folder.new result }
{
    let mut written = WrittenParts::none(workers.alloc(), version);
    let task = PartsTask {
        version,
        parts,
        settings,
    };
    write_range::<C, F, W, R>(workers, folder, &task, 0, parts.len(), &mut written)?;
    Ok(written)
}

/// Writes the parts from one place on, below another: those of the first half, and then the others.
fn write_range<
    C: SharedComparator + 'static,
    F: ReadsTables + WritesTables,
    W: Watch + Sync,
    R: Threads + Sync,
>(
    workers: &Workers<'_, R, W>,
    folder: &mut F,
    task: &PartsTask<'_>,
    from: usize,
    to: usize,
    written: &mut WrittenParts,
) -> Result<(), Fault>
    requires { AreRangeAt C.cmp task.now.version.now task.now.parts.now from to }
    ensures written { IsRangeWritten F.Folder C.cmp C.short_keys task.now.version.now
        task.now.settings.now (map picked_in task.now.parts.now) from to written.old written.new
        folder.old folder.new result }
    ensures device { ReportsDevice F.Folder folder.old folder.new result }
{
    let count = to - from;
    if count == 0 {
        return Ok(());
    }
    if count == 1 {
        return write_part::<C, F, W, R>(workers, folder, task, from, written);
    }
    let middle = from + count / 2;
    write_range::<C, F, W, R>(workers, folder, task, from, middle, written)?;
    write_range::<C, F, W, R>(workers, folder, task, middle, to, written)
}

/// Compacts the part at a `place`, and writes its tables.
fn write_part<
    C: SharedComparator + 'static,
    F: ReadsTables + WritesTables,
    W: Watch + Sync,
    R: Threads + Sync,
>(
    workers: &Workers<'_, R, W>,
    folder: &mut F,
    task: &PartsTask<'_>,
    place: usize,
    written: &mut WrittenParts,
) -> Result<(), Fault>
    requires { IsPartAt C.cmp task.now.version.now task.now.parts.now place }
    ensures written { (p : Inputs) × (slice_get task.now.parts.now place ≡ Some p)
        × IsPartWritten F.Folder C.cmp C.short_keys task.now.version.now task.now.settings.now
        (picked_in p) written.old written.new folder.old folder.new result }
    ensures device { ReportsDevice F.Folder folder.old folder.new result }
{
    let parts = task.parts;
    let part = &parts[place];
    let Some(first) = written.last.checked_add(1) else {
        return Err(Fault::of(FaultName::Numbers));
    };
    let none = HeldTables::none(workers.alloc());
    let asked = OutcomeSettings {
        first: Some(first),
        settings: *task.settings,
    };
    let outcome = outcome_of_picked::<C, F, W, R>(
        workers,
        folder,
        none,
        task.version,
        part,
        &asked,
    )?;
    write_outcome(workers, folder, &outcome, first, written)
}

/// Writes the tables of the `outcome` of a part, and takes it in. Its outputs have the numbers from
/// `first` on. Numbers, if the number after them isn't below 2^64: no outcome is so.
fn write_outcome<F: WritesTables, W: Watch + Sync, R: Threads + Sync>(
    workers: &Workers<'_, R, W>,
    folder: &mut F,
    outcome: &Outcome,
    first: u64,
    written: &mut WrittenParts,
) -> Result<(), Fault>
    requires first { first ≡ written.old.last + 1 }
    ensures written { IsOutcomeWritten F.Folder (answer_in outcome.now) written.old written.new
        folder.old folder.new result }
    ensures device { ReportsDevice F.Folder folder.old folder.new result }
{
    edit_is_bytes(&outcome.edit);
    let Some(last) = first.checked_add(outcome.tables.len() as u64) else {
        return Err(Fault::of(FaultName::Numbers));
    };
    write_group(workers.threads(), folder, &outcome.tables)?;
    written.take_in(outcome)?;
    written.last = last;
    Ok(())
}
