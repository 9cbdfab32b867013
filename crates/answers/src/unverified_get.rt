//! The value of a user key in a folder whose version was verified before.

ghost use Rattle.std.specs.Prelude.{◌≡◌, ℕ, List, Ok};
ghost use Rattle.std.specs.Option.{option_map};
ghost use Rattle.checks.specs.LawfulTables.{IsLawfulTables};
ghost use Rattle.answers.specs.FolderLines.{got_answer};
ghost use Rattle.folder.specs.Calls.{Files, Tells};
ghost use Rattle.folder.specs.Levels.{file_numbers};
ghost use Rattle.folder.specs.LoadedTables.{IsLoaded};
ghost use Rattle.folder.specs.OpenAnswer.{FolderAnswers};
ghost use Rattle.folder.specs.Orders.{order_cmp};
ghost use Rattle.folder.specs.Reports.{OnlyReads, ReportsDevice};
ghost use Rattle.checks.specs.Tables.{NumberedContents};

use crate::value_forms::{ValueForm, value_answer};
use edit::Version;
use folder::{Bytewise, Folder, Opened, Order, Shortlex};
use scan::{get_unverified, sequence_of};
use std::alloc::Global;
use table::{Comparator, Fault};

/// What [`get_dir`](crate::get_dir) answers of a folder that is opened already, if its version is
/// lawful with the tables in it. That isn't tested: it was verified before, and no other program
/// changed the folder since. It only reads.
///
/// It reads the tables whose range of user keys holds the key, level by level until one of them has
/// it. Of each it reads the footer, the index block and one or two data blocks. What it reads it
/// tests. Missing if such a table is missing; no other table is looked at.
pub fn unverified_value<F: Folder>(
    alloc: Global,
    folder: &mut F,
    opened: &Opened,
    key: &[u8],
    at: Option<u64>,
    form: ValueForm,
) -> Result<Option<Vec<u8>>, Fault>
    // If the folder tells files whose tables are lawful with the version, their answer is given.
    ensures lawful { (files : Files) (loaded : List (ℕ × List ℕ)) (tables : List NumberedContents) →
        Tells (F.tells folder.old) files →
        IsLoaded (F.tells folder.old)
        (file_numbers (order_cmp opened.now.order) opened.now.version) (Ok loaded) →
        IsLawfulTables (order_cmp opened.now.order) opened.now.version loaded (Ok tables) →
        FolderAnswers (option_map (λ v. v.items)) (F.failed folder.old) (F.failed folder.new) result
        (λ answer. answer ≡ Ok (got_answer form key.now at opened.now.version tables)) }
    ensures device { ReportsDevice F.Folder folder.old folder.new result }
    ensures reads { OnlyReads F.Folder folder.old folder.new }
{
    let version = &opened.version;
    match opened.order {
        Order::Bytewise => value_by::<Bytewise, F>(alloc, folder, version, key, at, form),
        Order::Shortlex => value_by::<Shortlex, F>(alloc, folder, version, key, at, form),
    }
}

/// The same by this comparator.
fn value_by<C: Comparator, F: Folder>(
    alloc: Global,
    folder: &mut F,
    version: &Version,
    key: &[u8],
    at: Option<u64>,
    form: ValueForm,
) -> Result<Option<Vec<u8>>, Fault>
    ensures lawful { (files : Files) (loaded : List (ℕ × List ℕ)) (tables : List NumberedContents) →
        Tells (F.tells folder.old) files →
        IsLoaded (F.tells folder.old) (file_numbers C.cmp version.now) (Ok loaded) →
        IsLawfulTables C.cmp version.now loaded (Ok tables) →
        FolderAnswers (option_map (λ v. v.items)) (F.failed folder.old) (F.failed folder.new) result
        (λ answer. answer ≡ Ok (got_answer form key.now at version.now tables)) }
    ensures device { ReportsDevice F.Folder folder.old folder.new result }
    ensures reads { OnlyReads F.Folder folder.old folder.new }
{
    let sequence = sequence_of(version, at);
    let value = get_unverified::<C, F>(alloc, folder, version, key, sequence)?;
    value_answer(alloc, form, value)
}
