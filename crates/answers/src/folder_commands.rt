//! The commands on a database folder.

ghost use Rattle.std.specs.Option.{option_map};
ghost use Rattle.folder.specs.Calls.{Files, Tells};
ghost use Rattle.folder.specs.OpenAnswer.{FolderAnswers};
ghost use Rattle.folder.specs.ReadsAs.{IsFileIn};
ghost use Rattle.folder.specs.Reports.{OnlyReads, ReportsDevice};
ghost use Rattle.answers.specs.FolderLines.{IsAnswerOfFolder, got_answer, verified_line};
ghost use Rattle.answers.specs.VersionAnswer.{IsShown};

use crate::unverified_get::unverified_value;
use crate::value_forms::ValueForm;
use crate::version_answer::manifest_lines;
use crate::version_verdict::lawful_line;
use board::{Watch, Workers};
use checks::test_by_order;
use folder::{Folder, ReadsTables, open};
use std::alloc::Global;
use std::thread::Threads;
use table::Fault;
use texts::Spelling;

/// The lines that show a folder's version, each with its newline:
///
/// 1. `comparator NAME`, `log N`, `previous N`, `next N`, `last N`;
/// 2. `pointer L KEY SEQ TYPE`, by level;
/// 3. `file L NUMBER SIZE`, by level and in version order.
///
/// A key is in this spelling. A previous log number that was never set is 0. Refused as opening the
/// folder is.
pub fn manifest<F: Folder>(
    alloc: Global,
    spelling: Spelling,
    folder: &mut F,
) -> Result<Vec<u8>, Fault>
    ensures answer { FolderAnswers (λ v. v.items) (F.failed folder.old) (F.failed folder.new) result
        (IsShown spelling (F.tells folder.old)) }
    ensures device { ReportsDevice F.Folder folder.old folder.new result }
    ensures reads { OnlyReads F.Folder folder.old folder.new }
{
    let opened = open(alloc, folder)?;
    manifest_lines(alloc, spelling, opened.order, &opened.version)
}

/// Checks the version that a folder holds, and answers the line `lawful: F files, E entries`: the
/// number of its files, and of the entries in all their tables. It only reads.
///
/// The first that applies:
///
/// - what opening the folder is refused as;
/// - Missing: at the first missing table, by level and in version order;
/// - the first invalid table, as `table::check` refuses it;
/// - Lawless: the version isn't lawful.
///
/// If the device fails a call, the answer is Device and no further call is made. If memory runs
/// out, it is Memory. `workers` check the tables; the answer doesn't depend on which is first. At
/// most `memory` bytes of tables are in memory at once, if no single user key needs more.
///
/// The work is told to the gate of `workers`, which is `&Open` if nobody watches.
pub fn verify<F: ReadsTables, W: Watch + Sync, R: Threads + Sync>(
    workers: &Workers<'_, R, W>,
    folder: &mut F,
    memory: u64,
) -> Result<Vec<u8>, Fault>
    ensures answer { (files : Files) → Tells (F.tells folder.old) files →
        FolderAnswers (λ v. v.items) (F.failed folder.old) (F.failed folder.new) result
        (IsAnswerOfFolder (IsFileIn files) (λ _. verified_line)) }
    ensures device { ReportsDevice F.Folder folder.old folder.new result }
    ensures reads { OnlyReads F.Folder folder.old folder.new }
{
    let opened = open(workers.alloc(), folder)?;
    let tested = test_by_order(workers, folder, opened.order, &opened.version, memory)?;
    lawful_line(workers.alloc(), tested)
}

/// What is printed of the value of a user `key` at a sequence, in the version that a folder holds.
/// It only reads.
///
/// In the form `Line` that is the value's text, or `none` if the key has no value there. In the
/// form `Raw` it is the value's bytes, and None if the key has no value.
///
/// The sequence `at` may be any number. If it isn't given, it is the version's last sequence.
/// Refused as `verify` is, and told in the same way.
pub fn get_dir<F: ReadsTables, W: Watch + Sync, R: Threads + Sync>(
    workers: &Workers<'_, R, W>,
    folder: &mut F,
    key: &[u8],
    at: Option<u64>,
    form: ValueForm,
    memory: u64,
) -> Result<Option<Vec<u8>>, Fault>
    ensures answer { (files : Files) → Tells (F.tells folder.old) files →
        FolderAnswers (option_map (λ v. v.items)) (F.failed folder.old) (F.failed folder.new) result
        (IsAnswerOfFolder (IsFileIn files) (got_answer form key.now at)) }
    ensures device { ReportsDevice F.Folder folder.old folder.new result }
    ensures reads { OnlyReads F.Folder folder.old folder.new }
{
    let opened = open(workers.alloc(), folder)?;
    test_by_order(workers, folder, opened.order, &opened.version, memory)?;
    unverified_value(workers.alloc(), folder, &opened, key, at, form)
}
