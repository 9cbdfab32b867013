//! The compaction of a database folder.

ghost use Rattle.std.specs.Prelude.{◌≡◌, ◌<◌, ◌^◌, length, codes, None, Some, Ok};
ghost use Rattle.folder.specs.Calls.{Files, Tells};
ghost use Rattle.folder.specs.Manifest.{order_name};
ghost use Rattle.folder.specs.Names.{current_text};
ghost use Rattle.folder.specs.OpenAnswer.{FolderAnswers, IsOpened, IfCurrent, IsOkOnlyIfCurrent};
ghost use Rattle.folder.specs.Orders.{order_cmp, order_short_keys};
ghost use Rattle.folder.specs.ReadsAs.{IsFileIn};
ghost use Rattle.folder.specs.Reports.{ReportsDevice};
ghost use Rattle.folder.specs.declared.order.Order.{Order};
ghost use Rattle.store.specs.Answers.{IsCompacted, IsFolderCompacted};
ghost use Rattle.store.specs.FoundInputs.{IsRun};
ghost use Rattle.store.specs.Runs.{IsAnswerForLevel, IsFolderRun, IsLevelRun};
ghost use Rattle.store.specs.Step.{step_in};
ghost use Rattle.store.specs.StepLeft.{IsFolderLeft, IsVersionLeft, PassesTest};
ghost use Rattle.install.specs.FolderChange.{change_of};
ghost use Rattle.store.specs.OrderView.{order_by, order_view};

use crate::chosen_outcome::tested_tables;
use crate::compaction_step::CompactionStep;
use crate::input_compaction::compact_step;
use crate::synced_version::SyncedVersion;
use crate::test_memory::test_memory;
use crate::version_sync::sync_version;
use board::Watch;
use checks::{SharedComparator, Workers};
use compact::Settings;
use folder::{Bytewise, Fault, Order, ReadsTables, Shortlex, WritesTables, open};
use std::thread::Threads;

/// Compacts a `level` of the version that a folder holds, and installs the outcome. The answer says
/// what was made: the new tables, the inputs, the manifest, the edit.
///
/// The folder is opened first. Then [`sync_version`] syncs what was opened, so that it outlives a
/// crash, and [`compact_opened`] tests it, by `memory` bytes, and compacts it. So a folder that
/// can't be opened isn't touched.
///
/// What is said of a crash begins after that sync, and asks only that the folder reads as the
/// version: nothing need have been synced before. A crash before it is done may leave anything of
/// what was not.
///
/// The first that applies:
///
/// - what opening the folder is refused as;
/// - Missing: at the first missing table, by level and in version order;
/// - the first invalid table, as `table::check` refuses it;
/// - Lawless: the version isn't lawful;
/// - Level: the level is above 5; NoInput: it has no file;
/// - SplitCount: `settings.ranges` is outside 1 to 4,096;
/// - Numbers: next file is 2^64 - 1;
/// - what `compact::compact` is refused as, Workers first;
/// - Changed: just before CURRENT is replaced it isn't what it was when the folder was opened,
///   since another program wrote it meanwhile. A folder that tells what it holds is never refused
///   so.
///
/// If the device fails a call, the answer is Device and no further call is made. If memory runs
/// out, it is Memory. After these two the folder reads as the version before or as the edited one,
/// and has to be opened again. After Changed CURRENT stays as it is, and the tables and the
/// manifest that were written stay too. After any other refusal the folder holds what it held.
///
/// The work is told to the gate of `workers`, which is `&Open` if nobody watches.
/// It doesn't change the answer.
pub fn compact_dir<F: ReadsTables + WritesTables, W: Watch + Sync, R: Threads + Sync>(
    workers: &Workers<'_, R, W>,
    folder: &mut F,
    level: u64,
    settings: &Settings<'_>,
    memory: u64,
) -> Result<CompactionStep, Fault>
    // If the folder tells these files: the step, or the first refusal in this order.
    ensures answer { (files : Files) → Tells (F.tells folder.old) files →
        FolderAnswers step_in (F.failed folder.old) (F.failed folder.new) result
        (IsFolderCompacted files level settings.now) }
    // What is left of the folder: what it held, or the edited version, which is lawful and answers
    // each readable get as before.
    ensures left { (files : Files) → Tells (F.tells folder.old) files →
        IsFolderLeft files level settings.now (change_of F.Folder folder.old folder.new) result }
    // Of any folder, also one that tells nothing: no call that writes was made; or a version was
    // opened, and the calls are its syncs and then those of one thread's answer for this level, in
    // their order, up to one that fails. The tables of the inputs are what reads after the syncs
    // may give.
    ensures runs { IsFolderRun F.Folder level settings.now folder.old folder.new result }
    ensures device { ReportsDevice F.Folder folder.old folder.new result }
{
    let alloc = workers.alloc();
    let opened = open(alloc, folder)?;
    let synced = sync_version(alloc, folder, opened)?;
    compact_opened(workers, folder, &synced, level, settings, Some(memory))
}

/// Compacts a `level` of what a folder was `opened` as, and installs the outcome: what
/// [`compact_dir`] does after the folder was opened and the version synced. The number of the
/// manifest is the version's next file; the outputs have the numbers after it.
///
/// With `test` all tables are tested first. The test holds that many bytes of them, or as many as
/// the inputs have; the tables of inputs that it still holds are not read again. Without it no
/// table is read but those of the inputs. So the caller says that the version is lawful, as after a
/// test of it, or as a compaction of a lawful version leaves it.
///
/// What holds without that word: the answer, and that it writes over no file of the version.
///
/// The first that applies:
///
/// - with `test`, what `checks::test_version` is refused as;
/// - Lawless: a file's number isn't below next file, or the files of a level from 1 on don't rise;
/// - Level: the level is above 5; NoInput: it has no file;
/// - Missing: at the first missing table of an input;
/// - the first invalid one, as `table::check` refuses it;
/// - Bounds: one isn't as its file states;
/// - what [`compact_dir`] is refused as after these.
pub fn compact_opened<F: ReadsTables + WritesTables, W: Watch + Sync, R: Threads + Sync>(
    workers: &Workers<'_, R, W>,
    folder: &mut F,
    opened: &SyncedVersion,
    level: u64,
    settings: &Settings<'_>,
    test: Option<u64>,
) -> Result<CompactionStep, Fault>
    // If the folder tells files, and CURRENT is the one that was opened. Without a test it makes no
    // difference whether the version is lawful.
    ensures answer { IfCurrent (F.tells folder.old) opened.now.manifest (λ files.
        FolderAnswers step_in (F.failed folder.old) (F.failed folder.new) result
        (IsCompacted test (order_cmp opened.now.order) (order_short_keys opened.now.order)
        files opened.now.version level settings.now)) }
    // If moreover they open as this version in this order. Without a test the version has to be one
    // that passes it, as the edited version does then: so what is left here is what is supposed of
    // the next call.
    ensures left { IfCurrent (F.tells folder.old) opened.now.manifest (λ files.
        IsOpened (IsFileIn files) (Ok (opened.now.order, opened.now.version)) →
        (test ≡ None → PassesTest files (order_cmp opened.now.order) opened.now.version) →
        IsVersionLeft (order_view opened.now.order) opened.now.version files level settings.now
        (change_of F.Folder folder.old folder.new) result) }
    // Of any folder, also one that tells nothing: no call that writes was made; or the calls are
    // those of one thread's answer for this level, in their order, up to one that fails. The tables
    // of the inputs are what reads of the folder may give.
    ensures runs { IsLevelRun opened.now.order opened.now.version level settings.now
        (change_of F.Folder folder.old folder.new) result }
    // If CURRENT is another one, the answer is never Ok.
    ensures other { IsOkOnlyIfCurrent (F.tells folder.old) opened.now.manifest result }
    ensures device { ReportsDevice F.Folder folder.old folder.new result }
{
    match opened.order {
        Order::Bytewise => {
            compact_version::<Bytewise, F, W, R>(workers, folder, opened, level, settings, test)
        }
        Order::Shortlex => {
            compact_version::<Shortlex, F, W, R>(workers, folder, opened, level, settings, test)
        }
    }
}

/// Compacts a `level` of the version that a folder was `opened` as, after a `test` of the version,
/// if one is asked for, and installs the outcome. The comparator's name has fewer than 2^32 bytes.
fn compact_version<
    C: SharedComparator + 'static,
    F: ReadsTables + WritesTables,
    W: Watch + Sync,
    R: Threads + Sync,
>(
    workers: &Workers<'_, R, W>,
    folder: &mut F,
    opened: &SyncedVersion,
    level: u64,
    settings: &Settings<'_>,
    test: Option<u64>,
) -> Result<CompactionStep, Fault>
    requires { length C.name_bytes < 2 ^ 32 }
    ensures answer { IfCurrent (F.tells folder.old) opened.now.manifest (λ files.
        FolderAnswers step_in (F.failed folder.old) (F.failed folder.new) result
        (IsCompacted test C.cmp C.short_keys files opened.now.version level settings.now)) }
    ensures left { (files : Files) (order : Order) → Tells (F.tells folder.old) files →
        files (codes "CURRENT") ≡ Some (current_text opened.now.manifest) →
        order_name order ≡ C.name_bytes →
        IsOpened (IsFileIn files) (Ok (order, opened.now.version)) →
        (test ≡ None → PassesTest files C.cmp opened.now.version) →
        IsVersionLeft (order_by order C.cmp C.short_keys) opened.now.version files level
        settings.now (change_of F.Folder folder.old folder.new) result }
    ensures runs { IsRun (IsAnswerForLevel C.cmp C.short_keys (F.tells folder.old)
        opened.now.version level settings.now) C.name_bytes C.cmp opened.now.version
        (change_of F.Folder folder.old folder.new) result }
    ensures other { IsOkOnlyIfCurrent (F.tells folder.old) opened.now.manifest result }
    ensures device { ReportsDevice F.Folder folder.old folder.new result }
{
    let version = &opened.version;
    let most = test_memory::<C>(workers.alloc(), version, level, test)?;
    let held = tested_tables::<C, F, W, R>(workers, folder, version, most)?;
    compact_step::<C, F, W, R>(workers, folder, held, opened, level, settings)
}
