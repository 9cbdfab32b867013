//! An outcome as files of a folder.

ghost use Rattle.std.specs.Prelude.{◌≡◌, ◌∷◌, [], IfErr, OnOk, codes};
ghost use Rattle.folder.specs.Answers.{UnlessMemory};
ghost use Rattle.compact.specs.AnswerIn.{answer_in};
ghost use Rattle.folder.specs.CallSequence.{MakesCalls};
ghost use Rattle.folder.specs.Calls.{FolderSynced, Renamed};
ghost use Rattle.folder.specs.Crash.{Leads, LeavesOnly, World};
ghost use Rattle.folder.specs.Folder.{failures_after};
ghost use Rattle.folder.specs.OpenAnswer.{IsStopped};
ghost use Rattle.folder.specs.Reports.{ReportsDevice};
ghost use Rattle.folder.specs.TableFiles.{named_tables};
ghost use Rattle.install.specs.Install.{table_calls, tables_in, write_calls};
ghost use Rattle.store.specs.CallsAnswer.{IsCallsAnswer};
ghost use Rattle.store.specs.Outcome.{edit_calls, naming_calls, outcome_calls};
ghost use Rattle.store.specs.WholeOutcome.{AreNamedApart, HasNoEdit, IsAbsentOrWhole, IsWhole};

use folder::{Fault, Folder, FolderFault};
use install::Outcome;
use std::thread::Threads;

/// The file of an outcome that has the bytes of its edit.
pub const EDIT: &str = "EDIT";

/// The name of that file until all of its bytes are synced.
const UNFINISHED_EDIT: &str = "EDIT.dbtmp";

/// Writes an outcome into a folder, which should be an empty one. In this order
///
/// 1. the tables are made and synced, in any order, each under its name `%06d.ldb`;
/// 2. `EDIT.dbtmp` is made of the bytes of the edit, and synced;
/// 3. the folder is synced;
/// 4. `EDIT.dbtmp` is renamed to [`EDIT`];
/// 5. the folder is synced.
///
/// So EDIT is there only if all tables are, and never in part, also after a crash. At Ok all of it
/// outlives a crash.
///
/// The faults are Device and Memory. If the device fails a call, no further call is made; what was
/// written by then stays.
pub fn write_outcome<F: Folder, R: Threads + Sync>(
    rt: &R,
    folder: &mut F,
    outcome: &Outcome,
) -> Result<(), Fault>
    // The calls in their order, each once, up to one that fails.
    ensures runs { MakesCalls (outcome_calls (answer_in outcome.now)) (F.calls folder.old)
        (F.calls folder.new) (F.tells folder.old) (F.tells folder.new) result }
    // If EDIT wasn't there, and no two tables have one name: at each moment a crash leaves no EDIT,
    // or all of it with all tables.
    ensures whole { AreNamedApart (named_tables (answer_in outcome.now).tables) → (start : World) →
        ((w : World) → Leads start (F.calls folder.old) w → HasNoEdit w) →
        LeavesOnly start (F.calls folder.old) (F.calls folder.new)
        (IsAbsentOrWhole (answer_in outcome.now)) }
    // And at Ok each crash leaves all of it.
    ensures kept { AreNamedApart (named_tables (answer_in outcome.now).tables) → (start : World) →
        ((w : World) → Leads start (F.calls folder.old) w → HasNoEdit w) →
        OnOk result ((w : World) → Leads start (F.calls folder.new) w →
        IsWhole (answer_in outcome.now) w.left) }
    // Only Device and Memory are answered, Device only if the device failed.
    ensures refused { IfErr result
        (λ e. UnlessMemory e (IsStopped (F.failed folder.old) (F.failed folder.new) e)) }
    ensures device { ReportsDevice F.Folder folder.old folder.new result }
{
    write_files(rt, folder, outcome)
}

/// Writes the tables and the edit.
fn write_files<F: Folder, R: Threads + Sync>(
    rt: &R,
    folder: &mut F,
    outcome: &Outcome,
) -> Result<(), Fault>
    ensures { IsCallsAnswer F.Folder (outcome_calls (answer_in outcome.now)) folder.old folder.new
        result }
{
    write_tables(rt, folder, &outcome.tables)?;
    Ok(write_edit(folder, &outcome.edit)?)
}

/// Makes and syncs each table under its name.
fn write_tables<F: Folder, R: Threads + Sync>(
    rt: &R,
    folder: &mut F,
    tables: &[(u64, Vec<u8>)],
) -> Result<(), Fault>
    ensures { IsCallsAnswer F.Folder (table_calls (tables_in tables.now ∷ [])) folder.old folder.new
        result }
{
    Ok(folder.write_tables(rt, tables)?)
}

/// Makes a file and syncs it.
fn write_file<F: Folder>(folder: &mut F, name: &str, bytes: &[u8]) -> Result<(), FolderFault>
    ensures runs { MakesCalls (write_calls name.now bytes.now) (F.calls folder.old)
        (F.calls folder.new) (F.tells folder.old) (F.tells folder.new) result }
    ensures failures { F.failed folder.new ≡ failures_after (F.failed folder.old) result }
{
    folder.create(name, bytes)?;
    folder.sync(name)
}

/// Writes the edit under its temporary name, and then names it.
fn write_edit<F: Folder>(folder: &mut F, bytes: &[u8]) -> Result<(), FolderFault>
    ensures runs { MakesCalls (edit_calls bytes.now) (F.calls folder.old) (F.calls folder.new)
        (F.tells folder.old) (F.tells folder.new) result }
    ensures failures { F.failed folder.new ≡ failures_after (F.failed folder.old) result }
{
    write_file(folder, UNFINISHED_EDIT, bytes)?;
    name_edit(folder)
}

/// Syncs the folder, and gives the written edit its name.
fn name_edit<F: Folder>(folder: &mut F) -> Result<(), FolderFault>
    ensures runs { MakesCalls naming_calls (F.calls folder.old) (F.calls folder.new)
        (F.tells folder.old) (F.tells folder.new) result }
    ensures failures { F.failed folder.new ≡ failures_after (F.failed folder.old) result }
{
    folder.sync_folder()?;
    rename_edit(folder)
}

/// Gives the written edit its name, and syncs the folder.
fn rename_edit<F: Folder>(folder: &mut F) -> Result<(), FolderFault>
    ensures runs { MakesCalls (Renamed (codes "EDIT.dbtmp") (codes "EDIT") ∷ FolderSynced ∷ [])
        (F.calls folder.old) (F.calls folder.new) (F.tells folder.old) (F.tells folder.new) result }
    ensures failures { F.failed folder.new ≡ failures_after (F.failed folder.old) result }
{
    folder.rename(UNFINISHED_EDIT, EDIT)?;
    folder.sync_folder()
}
