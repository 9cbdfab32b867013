//! The outcome of a compaction of a folder that is not installed.

ghost use Rattle.std.specs.Prelude.{ℕ, List, Ok, IfOk};
ghost use Rattle.checks.specs.HeldTables.{AreHeldBy, AreHeldIn};
ghost use Rattle.checks.specs.LawfulTables.{IsLawfulTables};
ghost use Rattle.compact.specs.AnswerIn.{answer_in};
ghost use Rattle.folder.specs.Answers.{IsThen};
ghost use Rattle.folder.specs.Calls.{Files, Tells};
ghost use Rattle.folder.specs.Levels.{file_numbers};
ghost use Rattle.folder.specs.LoadedTables.{IsLoaded};
ghost use Rattle.folder.specs.OpenAnswer.{FolderAnswers};
ghost use Rattle.folder.specs.Orders.{order_cmp, order_short_keys};
ghost use Rattle.folder.specs.ReadsAs.{IsFileIn};
ghost use Rattle.folder.specs.Reports.{OnlyReads, ReportsDevice};
ghost use Rattle.folder.specs.declared.order.Order.{Order};
ghost use Rattle.pick.specs.PickedInputs.{PickedInputs};
ghost use Rattle.reads.specs.Tables.{NumberedContents};
ghost use Rattle.store.specs.Choice.{IsChosen};
ghost use Rattle.store.specs.Outcome.{ChosenCompaction, IsOutcome, IsTestAnswer, outcome_in};
ghost use Rattle.install.specs.Install.{version_with};
ghost use Rattle.store.specs.OrderView.{order_by, order_view};

use crate::answered_steps::outcome_answer;
use crate::choice::{Choice, chosen};
use crate::compaction_outcome::CompactionOutcome;
use crate::input_laws::chosen_is_installed;
use crate::picked_outcome::{OutcomeSettings, outcome_of_picked};
use board::Watch;
use checks::{HeldTables, SharedComparator, Workers, test_and_hold};
use folder::{Bytewise, Fault, Opened, Order, ReadsTables, Shortlex, Version};
use std::thread::Threads;

/// The outcome of the compaction of a `choice` of inputs of what a folder was `opened` as. Nothing
/// is installed: it only reads.
///
/// With `test` all tables are tested first, and the test holds that many bytes of them; the tables
/// of inputs that it still holds are not read again. Without it no table is read but those of the
/// inputs. So the caller says that the version is lawful.
///
/// The numbers of the outputs are those from the `first` that is `asked` on. Without it they begin
/// after the version's next file, as those of [`compact_opened`](crate::compact_opened).
///
/// The parts of a level can be compacted at the same time, by as many processes or machines as
/// there are, and installed one after the other. Each one's `first` has to be above the numbers of
/// all that are installed before it.
///
/// The first that applies:
///
/// - with `test`, what `checks::test_version` is refused as;
/// - Lawless: a file's number isn't below next file, or the files of a level from 1 on don't rise;
/// - what `pick::inputs` is refused as; or of a part, what `pick::finest_parts` is, and NoInput:
///   there is no part of that number;
/// - Missing: at the first missing table of an input;
/// - the first invalid one, as `table::check` refuses it;
/// - Bounds: one isn't as its file states;
/// - SplitCount: the settings' `ranges` is outside 1 to 4,096;
/// - Numbers: `first` isn't above the version's next file; or without it next file is 2^64 - 1;
/// - what `compact::compact` is refused as, Workers first.
pub fn outcome<F: ReadsTables, W: Watch + Sync, R: Threads + Sync>(
    workers: &Workers<'_, R, W>,
    folder: &mut F,
    opened: &Opened,
    choice: Choice,
    asked: &OutcomeSettings<'_>,
    test: Option<u64>,
) -> Result<CompactionOutcome, Fault>
    // If the folder tells files: the outcome, or the first refusal in this order. Without a test it
    // makes no difference whether the version is lawful. With one it is at Ok, with the tables that
    // the files hold.
    ensures answer { (files : Files) → Tells (F.tells folder.old) files →
        FolderAnswers outcome_in (F.failed folder.old) (F.failed folder.new) result
        (IsThen (IsTestAnswer test files (order_cmp opened.now.order) opened.now.version)
        (λ passed. IsOutcome asked.now.first (order_cmp opened.now.order)
        (order_short_keys opened.now.order) files opened.now.version choice asked.now.settings)) }
    // If moreover the version is lawful with the tables that they hold, the outcome makes the
    // edited version, also by a later installation.
    ensures compacted { (files : Files) (loaded : List (ℕ × List ℕ))
        (tables : List NumberedContents) → Tells (F.tells folder.old) files →
        IsLoaded (IsFileIn files) (file_numbers (order_cmp opened.now.order) opened.now.version)
        (Ok loaded) →
        IsLawfulTables (order_cmp opened.now.order) opened.now.version loaded (Ok tables) →
        IfOk result (λ o. (p : PickedInputs) × ChosenCompaction (order_view opened.now.order)
        (version_with opened.now.version loaded)
        (IsChosen (order_cmp opened.now.order) opened.now.version choice) asked.now.first
        asked.now.settings p (answer_in o.outcome)) }
    ensures device { ReportsDevice F.Folder folder.old folder.new result }
    ensures reads { OnlyReads F.Folder folder.old folder.new }
{
    let version = &opened.version;
    match opened.order {
        Order::Bytewise => version_outcome::<Bytewise, F, W, R>(
            workers, folder, version, choice, asked, test,
        ),
        Order::Shortlex => version_outcome::<Shortlex, F, W, R>(
            workers, folder, version, choice, asked, test,
        ),
    }
}

/// The outcome of a `choice` of a version, after a `test` of the version, if one is asked for.
fn version_outcome<
    C: SharedComparator + 'static,
    F: ReadsTables,
    W: Watch + Sync,
    R: Threads + Sync,
>(
    workers: &Workers<'_, R, W>,
    folder: &mut F,
    version: &Version,
    choice: Choice,
    asked: &OutcomeSettings<'_>,
    test: Option<u64>,
) -> Result<CompactionOutcome, Fault>
    ensures answer { (files : Files) → Tells (F.tells folder.old) files →
        FolderAnswers outcome_in (F.failed folder.old) (F.failed folder.new) result
        (IsThen (IsTestAnswer test files C.cmp version.now)
        (λ passed. IsOutcome asked.now.first C.cmp C.short_keys files version.now choice
        asked.now.settings)) }
    ensures compacted { (files : Files) (order : Order) (loaded : List (ℕ × List ℕ))
        (tables : List NumberedContents) → Tells (F.tells folder.old) files →
        IsLoaded (IsFileIn files) (file_numbers C.cmp version.now) (Ok loaded) →
        IsLawfulTables C.cmp version.now loaded (Ok tables) →
        IfOk result (λ o. (p : PickedInputs) × ChosenCompaction
        (order_by order C.cmp C.short_keys) (version_with version.now loaded)
        (IsChosen C.cmp version.now choice) asked.now.first asked.now.settings p
        (answer_in o.outcome)) }
    ensures device { ReportsDevice F.Folder folder.old folder.new result }
    ensures reads { OnlyReads F.Folder folder.old folder.new }
{
    let held = tested_tables::<C, F, W, R>(workers, folder, version, test)?;
    chosen_outcome::<C, F, W, R>(workers, folder, held, version, choice, asked)
}

/// Tests a version, if that is asked for, and hands on the tables that the `test` still holds.
pub(crate) fn tested_tables<
    C: SharedComparator + 'static,
    F: ReadsTables,
    W: Watch + Sync,
    R: Threads + Sync,
>(
    workers: &Workers<'_, R, W>,
    folder: &mut F,
    version: &Version,
    test: Option<u64>,
) -> Result<HeldTables<C>, Fault>
    ensures answer { (files : Files) → Tells (F.tells folder.old) files →
        FolderAnswers (λ tables. tt) (F.failed folder.old) (F.failed folder.new) result
        (IsTestAnswer test files C.cmp version.now) }
    ensures held { IfOk result (λ tables. AreHeldBy C.cmp (F.tells folder.old) tables) }
    ensures device { ReportsDevice F.Folder folder.old folder.new result }
    ensures reads { OnlyReads F.Folder folder.old folder.new }
{
    let Some(memory) = test else {
        let none = HeldTables::none(workers.alloc());
        return Ok(none);
    };
    let found = test_and_hold::<C, F, W, R>(workers, folder, version, memory)?;
    Ok(found.tables)
}

/// The outcome of a `choice` of a version by its inputs alone. `held` are tables of the folder.
fn chosen_outcome<
    C: SharedComparator + 'static,
    F: ReadsTables,
    W: Watch + Sync,
    R: Threads + Sync,
>(
    workers: &Workers<'_, R, W>,
    folder: &mut F,
    held: HeldTables<C>,
    version: &Version,
    choice: Choice,
    asked: &OutcomeSettings<'_>,
) -> Result<CompactionOutcome, Fault>
    ensures answer { (files : Files) → Tells (F.tells folder.old) files →
        AreHeldIn C.cmp files held →
        FolderAnswers outcome_in (F.failed folder.old) (F.failed folder.new) result
        (IsOutcome asked.now.first C.cmp C.short_keys files version.now choice asked.now.settings) }
    ensures compacted { (files : Files) (order : Order) (loaded : List (ℕ × List ℕ))
        (tables : List NumberedContents) → Tells (F.tells folder.old) files →
        AreHeldIn C.cmp files held →
        IsLoaded (IsFileIn files) (file_numbers C.cmp version.now) (Ok loaded) →
        IsLawfulTables C.cmp version.now loaded (Ok tables) →
        IfOk result (λ o. (p : PickedInputs) × ChosenCompaction
        (order_by order C.cmp C.short_keys) (version_with version.now loaded)
        (IsChosen C.cmp version.now choice) asked.now.first asked.now.settings p
        (answer_in o.outcome)) }
    ensures device { ReportsDevice F.Folder folder.old folder.new result }
    ensures reads { OnlyReads F.Folder folder.old folder.new }
{
    let alloc = workers.alloc();
    chosen_is_installed::<C>();
    let picked = chosen::<C>(alloc, version, choice)?;
    let made = outcome_of_picked::<C, F, W, R>(workers, folder, held, version, &picked, asked)?;
    outcome_answer(alloc, &picked, made)
}
