//! The test of an outcome's outputs.

ghost use Rattle.std.specs.Prelude.{◌≡◌, length};
ghost use Rattle.edit.specs.Answers.{EqualOrMemory, HoldsOrMemory};
ghost use Rattle.folder.specs.Calls.{Files, Tells};
ghost use Rattle.folder.specs.OpenAnswer.{FolderAnswers};
ghost use Rattle.folder.specs.Reports.{OnlyReads, ReportsDevice};
ghost use Rattle.install.specs.Install.{tables_in};
ghost use Rattle.pick.specs.PickedInputs.{picked_in};
ghost use Rattle.adoption.specs.Adoption.{IsGivenTested, IsInputsCompared, IsTablesCompared};
ghost use Rattle.compact.specs.Request.{request_test};
ghost use Rattle.adoption.specs.Adoption.{IsOutputsCompared, compared_request};
ghost use Rattle.adoption.specs.AdoptionIn.{adoption_of, given_in};

use crate::comparison::Comparison;
use crate::given_outcome::GivenOutcome;
use crate::kept_entries::holds_kept;
use board::{Watch, Work};
use checks::{SharedComparator, Workers};
use compact::{Options, Request, passed_law};
use edit::{Comparator, Fault, FaultName};
use folder::Folder;
use keep::{Snapshots, SoundTable};
use pick::Inputs;
use std::alloc::Global;
use std::thread::Threads;
use store::{bytes_of, checked_inputs, load_inputs};

/// Tests the outputs of an outcome: each is a table as the edit states it, and together they hold
/// what a compaction of the inputs keeps, as `comparison` says. It only reads.
///
/// The first that applies:
///
/// - the first invalid output, as `table::check` refuses it;
/// - Bounds: one isn't as the edit states it;
/// - what [`compare_outputs`] refuses.
pub(crate) fn test_outputs<
    C: SharedComparator + 'static,
    F: Folder,
    W: Watch + Sync,
    R: Threads + Sync,
>(
    workers: &Workers<'_, R, W>,
    folder: &mut F,
    given: &GivenOutcome,
    comparison: Comparison<'_>,
) -> Result<(), Fault>
    requires lengths { length given.now.outcome.tables.items ≡ length given.now.outputs.items }
    ensures answer { (files : Files) → Tells (F.tells folder.old) files →
        FolderAnswers (λ u. u) (F.failed folder.old) (F.failed folder.new) result
        (IsGivenTested C.cmp files (given_in given.now) comparison.entry) }
    ensures device { ReportsDevice F.Folder folder.old folder.new result }
    ensures reads { OnlyReads F.Folder folder.old folder.new }
{
    let loaded = given.outcome.tables.as_slice();
    workers.gate().begin(Work::Check, loaded.len() as u64);
    let outputs = checked_inputs::<C, W, R>(workers, &given.outputs, loaded)?;
    match comparison {
        Comparison::With(snapshots) => {
            compare_outputs::<C, F, W, R>(workers, folder, given, snapshots, &outputs)
        }
        Comparison::LeftOut => Ok(()),
    }
}

/// Compares the tables of outputs with what a compaction of the inputs keeps, whose tables are in
/// the folder. It only reads.
///
/// The first that applies:
///
/// - Missing: at the first input whose table is missing;
/// - the first invalid one, as `table::check` refuses it;
/// - Bounds: one isn't as its file states;
/// - Options: there are more than 256 inputs;
/// - Snapshot or SnapshotList: of the snapshots;
/// - Lawless: the outputs hold something else.
fn compare_outputs<C: SharedComparator + 'static, F: Folder, W: Watch + Sync, R: Threads + Sync>(
    workers: &Workers<'_, R, W>,
    folder: &mut F,
    given: &GivenOutcome,
    snapshots: Snapshots<'_>,
    outputs: &[SoundTable<'_, C>],
) -> Result<(), Fault>
    ensures answer { (files : Files) → Tells (F.tells folder.old) files →
        FolderAnswers (λ u. u) (F.failed folder.old) (F.failed folder.new) result
        (IsOutputsCompared C.cmp files (adoption_of given.now) snapshots.entry outputs.now) }
    ensures device { ReportsDevice F.Folder folder.old folder.new result }
    ensures reads { OnlyReads F.Folder folder.old folder.new }
{
    let alloc = workers.alloc();
    let picked = &given.picked;
    let last_sequence = given.last_sequence;
    let loaded = load_inputs(alloc, folder, &picked.files)?;
    compare_loaded::<C, W, R>(workers, picked, &loaded, snapshots, last_sequence, outputs)
}

/// The same, with the inputs' tables `loaded`. Refused as there; the only other fault is Memory.
fn compare_loaded<C: SharedComparator + 'static, W: Watch + Sync, R: Threads + Sync>(
    workers: &Workers<'_, R, W>,
    picked: &Inputs,
    loaded: &[(u64, Vec<u8>)],
    snapshots: Snapshots<'_>,
    last_sequence: u64,
    outputs: &[SoundTable<'_, C>],
) -> Result<(), Fault>
    requires lengths { length loaded.now ≡ length picked.now.files.items }
    ensures { HoldsOrMemory (λ u. u) result (IsInputsCompared C.cmp (picked_in picked.now)
        snapshots.entry last_sequence outputs.now (tables_in loaded.now)) }
{
    let alloc = workers.alloc();
    workers.gate().begin(Work::Check, loaded.len() as u64);
    let inputs = checked_inputs::<C, W, R>(workers, &picked.files, loaded)?;
    compare_tables(alloc, picked, snapshots, last_sequence, &inputs, outputs)
}

/// The same, with the inputs' tables.
fn compare_tables<C: Comparator>(
    alloc: Global,
    picked: &Inputs,
    snapshots: Snapshots<'_>,
    last_sequence: u64,
    inputs: &[SoundTable<'_, C>],
    outputs: &[SoundTable<'_, C>],
) -> Result<(), Fault>
    ensures { HoldsOrMemory (λ u. u) result (IsTablesCompared C.cmp (picked_in picked.now)
        snapshots.entry last_sequence outputs.now inputs.now) }
{
    passed_law::<C>();
    test_asked(alloc, picked, snapshots, last_sequence, inputs)?;
    let listed = snapshots.listed();
    let floor = snapshots.floor(last_sequence);
    if !holds_kept(alloc, picked, listed, floor, inputs, outputs)? {
        return Err(Fault::of(FaultName::Lawless));
    }
    Ok(())
}

/// Tests what is asked of a comparison, as a compaction tests its request.
fn test_asked<C: Comparator>(
    alloc: Global,
    picked: &Inputs,
    snapshots: Snapshots<'_>,
    last_sequence: u64,
    inputs: &[SoundTable<'_, C>],
) -> Result<(), Fault>
    ensures { EqualOrMemory (λ u. u) result (request_test C.cmp (compared_request
        (picked_in picked.now) snapshots.entry last_sequence inputs.now)) }
{
    let bytes = bytes_of(alloc, inputs)?;
    let request = Request {
        picked,
        tables: &bytes,
        snapshots,
        first_number: 0,
        log_number: 0,
        previous_log: 0,
        last_sequence,
        options: Options::default(),
    };
    request.check::<C>()
}
