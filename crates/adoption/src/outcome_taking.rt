//! Takes in an outcome, to install it together with others.

ghost use Rattle.std.specs.Prelude.{◌≡◌, ◌++◌, true, Ok, IfErr, IfOk, nat_lt};
ghost use Rattle.std.specs.List.{list_all};
ghost use Rattle.edit.specs.Answers.{fault};
ghost use Rattle.edit.specs.fault.FaultName.TheVariants.{Memory};
ghost use Rattle.folder.specs.Calls.{Files, Tells};
ghost use Rattle.folder.specs.OpenAnswer.{FolderAnswers};
ghost use Rattle.folder.specs.Orders.{order_cmp};
ghost use Rattle.folder.specs.Reports.{OnlyReads, ReportsDevice};
ghost use Rattle.adoption.specs.Adoption.{IsGivenTaken, adopted_outcome};
ghost use Rattle.adoption.specs.AdoptedOutcome.{IsAdopted};
ghost use Rattle.adoption.specs.AdoptionIn.{given_in};
ghost use Rattle.adoption.specs.BothFolders.{AnswersFrom, HasEitherFailed, ReportsEither};
ghost use Rattle.adoption.specs.TakenIn.{IsTakingEnd, outcome_taken, version_in};
ghost use Rattle.adoption.specs.TakenOutcomes.{IsGivenNext, IsTakenFrom, has_opened_inputs};
ghost use Rattle.adoption.specs.TakingSteps.{IsTakingOf, IsWrittenTaking};

use crate::given_outcome::{GivenOutcome, given_outcome};
use crate::kept_comparison::test_outputs;
use crate::taken_outcomes::{TakenOutcome, TakenOutcomes, version_left};
use board::Watch;
use checks::{SharedComparator, Workers};
use edit::{Comparator, Fault, FaultName};
use folder::{Bytewise, Folder, Order, Shortlex};
use install::write_group;
use pick::InputFile;
use std::alloc::Global;
use std::thread::Threads;
use store::{CompactionOutcome, WrittenTables, manifest_of, outcome_answer};

/// Takes in the outcome that `source` holds, after those that were `taken`: tests it against the
/// version that they leave, and writes its tables. Nothing is installed yet: [`install_taken`] does
/// that, for all outcomes by one manifest. The caller has locked the folder, and synced what was
/// opened.
///
/// `source` holds the outputs as tables, and the version edit in a file EDIT. The edit that is
/// installed has its files and its compact pointer. Its log numbers and its last sequence are those
/// of the version, and its next file is the greater of EDIT's and the one after the manifest. So if
/// the version is still the one that was compacted, the folder gets what a compaction of it would
/// have left there.
///
/// Only one outcome is held in memory at a time.
///
/// The first that applies:
///
/// - Missing: there is no EDIT;
/// - EditTag or EditField: its bytes are no edit;
/// - Lawless: a file's number isn't below next file, or the files of a level from 1 on don't rise;
/// - Apply: EDIT isn't an edit of a compaction of this version. Of such an edit each of these
///   holds:
///   - it has just one compact pointer;
///   - it deletes files of that pointer's level, and perhaps of the next one, that are closed now
///     (`pick::first_missing`), whoever chose them;
///   - its new files are of the next level, and their numbers rise from above the version's next
///     file to below EDIT's;
///   - its last sequence isn't above the version's;
///   - it names no comparator;
/// - Numbers: next file is 2^64 - 1;
/// - Lawless: the files of a level of the edited version don't rise;
/// - Missing: at the first output that is missing;
/// - Apply: an input isn't a file of the version that was opened, but an output of an outcome
///   before;
/// - the first invalid output, as `table::check` refuses it;
/// - Bounds: an output isn't as EDIT states it;
/// - if outputs are compared, of the inputs' tables: Missing at the first missing one; the first
///   invalid one; Bounds; Options, if there are more than 256. Then Snapshot or SnapshotList of the
///   snapshots. Then Lawless, if the outputs don't hold just what a compaction of the inputs keeps.
///
/// If the device fails a call on one of the folders, the answer is Device and no further call is
/// made. If memory runs out, it is Memory. Whatever the answer, the folder reads as what was
/// opened. After a refusal there is nothing to install any more, and what was written are tables
/// that no version names.
///
/// If outputs are compared, [`begin_taking`] has tested the version that was opened, and no other
/// table is read here: the edited version is lawful then. Otherwise [`install_taken`] tests the
/// last one. The work is told to the gate of `workers`, which is `&Open` if nobody watches.
///
/// [`begin_taking`]: crate::begin_taking
/// [`install_taken`]: crate::install_taken
pub fn take_outcome<'o, F: Folder, G: Folder, W: Watch + Sync, R: Threads + Sync>(
    workers: &Workers<'_, R, W>,
    folder: &mut F,
    source: &mut G,
    taken: TakenOutcomes<'o>,
) -> Result<TakenOutcome<'o>, Fault>
    // If both folders tell files: the outcome, or its first refusal.
    ensures answer { (files given : Files) → Tells (F.tells folder.old) files →
        Tells (G.tells source.old) given →
        AnswersFrom outcome_taken (HasEitherFailed F.Folder G.Folder folder.old folder.new
        source.old source.new) result (IsTakenFrom (order_cmp taken.entry.opened.now.order) files
        given taken.entry.opened.now.version (version_in taken.entry) taken.entry.comparison) }
    // If outcomes were taken in from a folder on, this one was after them; or it was refused, and
    // the folder stands for what was opened.
    ensures taken { (first : F) → IsTakingEnd F.Folder (order_cmp taken.entry.opened.now.order)
        first folder.old folder.new taken.entry result }
    ensures device { ReportsEither F.Folder G.Folder folder.old folder.new source.old source.new
        result }
    ensures reads { OnlyReads G.Folder source.old source.new }
{
    match taken.opened.order {
        Order::Bytewise => take_from::<Bytewise, F, G, W, R>(workers, folder, source, taken),
        Order::Shortlex => take_from::<Shortlex, F, G, W, R>(workers, folder, source, taken),
    }
}

/// The same by this comparator.
fn take_from<
    'o,
    C: SharedComparator + 'static,
    F: Folder,
    G: Folder,
    W: Watch + Sync,
    R: Threads + Sync,
>(
    workers: &Workers<'_, R, W>,
    folder: &mut F,
    source: &mut G,
    taken: TakenOutcomes<'o>,
) -> Result<TakenOutcome<'o>, Fault>
    ensures answer { (files given : Files) → Tells (F.tells folder.old) files →
        Tells (G.tells source.old) given →
        AnswersFrom outcome_taken (HasEitherFailed F.Folder G.Folder folder.old folder.new
        source.old source.new) result (IsTakenFrom C.cmp files given
        taken.entry.opened.now.version (version_in taken.entry) taken.entry.comparison) }
    ensures taken { (first : F) → IsTakingEnd F.Folder C.cmp first folder.old folder.new
        taken.entry result }
    ensures device { ReportsEither F.Folder G.Folder folder.old folder.new source.old source.new
        result }
    ensures reads { OnlyReads G.Folder source.old source.new }
{
    match outcome_after::<C, G>(workers.alloc(), source, &taken) {
        Ok(given) => take_given::<C, F, W, R>(workers, folder, taken, given),
        Err(fault) => Err(fault),
    }
}

/// The outcome that a folder holds, for the version that those before it leave. It only reads.
///
/// The first that applies: what [`given_outcome`] refuses; Apply, if an input isn't a file of the
/// version that was opened.
fn outcome_after<C: Comparator, G: Folder>(
    alloc: Global,
    source: &mut G,
    taken: &TakenOutcomes<'_>,
) -> Result<GivenOutcome, Fault>
    ensures answer { FolderAnswers given_in (G.failed source.old) (G.failed source.new) result
        (IsGivenNext C.cmp (G.tells source.old) taken.now.opened.now.version
        (version_in taken.now)) }
    ensures adopted { IfOk result (λ g. IsAdopted C.cmp (version_in taken.now) (given_in g)
        × (has_opened_inputs taken.now.opened.now.version (given_in g) ≡ true)) }
    ensures device { ReportsDevice G.Folder source.old source.new result }
    ensures reads { OnlyReads G.Folder source.old source.new }
{
    let given = given_outcome::<C, G>(alloc, source, version_left(taken))?;
    if !are_below(&given.picked.files, manifest_of(&taken.opened.version)) {
        return Err(Fault::of(FaultName::Apply));
    }
    Ok(given)
}

/// Whether the numbers of all files are below this one.
fn are_below(files: &[InputFile], number: u64) -> bool
    ensures { result ≡ list_all (λ f. nat_lt f.meta.number number) files.now }
{
    files.iter().all(|file| file.meta.number < number)
}

/// Tests the outputs of an outcome that was adopted, and writes its tables.
fn take_given<'o, C: SharedComparator + 'static, F: Folder, W: Watch + Sync, R: Threads + Sync>(
    workers: &Workers<'_, R, W>,
    folder: &mut F,
    taken: TakenOutcomes<'o>,
    given: GivenOutcome,
) -> Result<TakenOutcome<'o>, Fault>
    requires { IsAdopted C.cmp (version_in taken) (given_in given) }
    ensures answer { (files : Files) → Tells (F.tells folder.old) files →
        FolderAnswers outcome_taken (F.failed folder.old) (F.failed folder.new) result
        (IsGivenTaken C.cmp files (given_in given) taken.entry.comparison) }
    ensures taken { IsTakingOf F.Folder C.cmp (given_in given) folder.old folder.new taken.entry
        result }
    ensures device { ReportsDevice F.Folder folder.old folder.new result }
{
    test_outputs::<C, F, W, R>(workers, folder, &given, taken.comparison)?;
    write_taken::<F, R>(workers.threads(), workers.alloc(), folder, taken, given)
}

/// Writes the tables of an outcome that was tested.
fn write_taken<'o, F: Folder, R: Threads + Sync>(
    rt: &R,
    alloc: Global,
    folder: &mut F,
    taken: TakenOutcomes<'o>,
    given: GivenOutcome,
) -> Result<TakenOutcome<'o>, Fault>
    ensures answer { FolderAnswers outcome_taken (F.failed folder.old) (F.failed folder.new) result
        (λ answer. answer ≡ Ok (adopted_outcome (given_in given))) }
    ensures taken { IsWrittenTaking F.Folder (given_in given) folder.old folder.new taken.entry
        result }
    ensures device { ReportsDevice F.Folder folder.old folder.new result }
{
    let GivenOutcome {
        picked,
        next,
        outcome,
        ..
    } = given;
    let made = outcome_answer(alloc, &picked, outcome)?;
    let written = one_more(taken.written, &made)?;
    write_group(rt, folder, &made.outcome.tables)?;
    Ok(TakenOutcome {
        taken: TakenOutcomes {
            opened: taken.opened,
            comparison: taken.comparison,
            next: Some(next),
            written,
        },
        made,
    })
}

/// Tables that were written, and then those of one more outcome.
fn one_more(before: WrittenTables, made: &CompactionOutcome) -> Result<WrittenTables, Fault>
    ensures outputs { IfOk result
        (λ w. w.outputs.items ≡ before.outputs.items ++ made.now.outputs.items) }
    ensures edits { IfOk result
        (λ w. w.edits.items ≡ before.edits.items ++ made.now.outcome.edit.items) }
    ensures memory { IfErr result (λ e. e ≡ fault Memory) }
{
    let mut written = before;
    written.outputs.extend_from_slice(&made.outputs)?;
    written.edits.extend_from_slice(&made.outcome.edit)?;
    Ok(written)
}
