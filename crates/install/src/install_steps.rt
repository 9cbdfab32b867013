//! The parts of an installation: a group of tables, and all that follows the tables.

ghost use Rattle.std.specs.Prelude.{◌≡◌, ◌∷◌, ◌++◌, [], ◌≤◌, ℕ, List, IfErr, OnOk, codes};
ghost use Rattle.std.specs.Prelude.{Some, string_bytes};
ghost use Rattle.std.specs.declared.cmp.Ordering.{Ordering};
ghost use Rattle.edit.specs.Version.{State};
ghost use Rattle.folder.specs.Calls.{Done, FolderSynced, Renamed};
ghost use Rattle.folder.specs.Crash.{Leads, LeavesOnly, World};
ghost use Rattle.folder.specs.FreeNames.{IsFree};
ghost use Rattle.folder.specs.ReadsAs.{IsSettled, ReadsAs, StandsAs};
ghost use Rattle.folder.specs.WrittenFiles.{IsWritten};
ghost use Rattle.folder.specs.declared.order.Order.{Order};
ghost use Rattle.edit.specs.Answers.{UnlessMemory};
ghost use Rattle.folder.specs.CallSequence.{MakesCalls};
ghost use Rattle.folder.specs.Folder.{failures_after};
ghost use Rattle.folder.specs.OpenAnswer.{FolderAnswers, IsStopped, StopsAtDevice};
ghost use Rattle.folder.specs.Reports.{OnlyReads, ReportsDevice};
ghost use Rattle.install.specs.CurrentAnswer.{IsCurrentAnswer};
ghost use Rattle.install.specs.Install.{AlwaysStandsAs, current_calls, manifest_calls};
ghost use Rattle.install.specs.Install.{table_calls, tables_in, temporary_calls, write_calls};
ghost use Rattle.install.specs.InstallCalls.{IsInstallCalls};
ghost use Rattle.folder.specs.Names.{current_text, temporary_name};

use edit::{Fault, FaultName};
use folder::{
    CURRENT, Folder, FolderFault, Gate, TableSource, WritesTables, current_text, manifest_name,
    temporary_name, write_source,
};
use std::alloc::Global;
use std::thread::Threads;

/// Makes each table of a group under the name of its number, and syncs it: in any order, by several
/// threads if the folder does so.
///
/// An installation may write its tables by several such calls, so that no more than one group has
/// to be in memory. [`install_manifest`] is what follows them.
pub fn write_group<F: Folder, R: Threads + Sync>(
    rt: &R,
    folder: &mut F,
    tables: &[(u64, Vec<u8>)],
) -> Result<(), Fault>
    ensures runs { MakesCalls (table_calls (tables_in tables.now ∷ []))
        (F.calls folder.old) (F.calls folder.new) (F.tells folder.old) (F.tells folder.new) result }
    ensures refused { IfErr result
        (λ e. UnlessMemory e (IsStopped (F.failed folder.old) (F.failed folder.new) e)) }
    ensures at_once { StopsAtDevice (F.failed folder.old) (F.failed folder.new) result }
    ensures later { F.failed folder.old ≤ F.failed folder.new }
{
    Ok(folder.write_tables(rt, tables)?)
}

/// The same for the tables of a `source`, which `workers` make and write as
/// [`write_source`](folder::write_source) says.
pub fn write_source_group<F: WritesTables, S: TableSource, G: Gate + Sync, R: Threads + Sync>(
    rt: &R,
    alloc: Global,
    folder: &mut F,
    source: &S,
    workers: u64,
    gate: &G,
) -> Result<(), Fault>
    ensures runs { MakesCalls (table_calls (S.tables source.now ∷ []))
        (F.calls folder.old) (F.calls folder.new) (F.tells folder.old) (F.tells folder.new) result }
    ensures refused { IfErr result
        (λ e. UnlessMemory e (IsStopped (F.failed folder.old) (F.failed folder.new) e)) }
    ensures at_once { StopsAtDevice (F.failed folder.old) (F.failed folder.new) result }
    ensures later { F.failed folder.old ≤ F.failed folder.new }
{
    Ok(write_source(rt, alloc, folder, source, workers, gate)?)
}

/// What an installation does after its tables are written. It writes the `manifest`, which has this
/// `number`, and makes CURRENT name it, if CURRENT still names the manifest of the number `opened`.
///
/// After the groups of the tables of an outcome, with the bytes of [`manifest_bytes`], all calls
/// together guarantee what [`install`] does (`IsGroupedInstallation`).
///
/// [`install`]: crate::install
/// [`manifest_bytes`]: crate::manifest_bytes
pub fn install_manifest<F: Folder>(
    alloc: Global,
    folder: &mut F,
    opened: u64,
    number: u64,
    manifest: &[u8],
) -> Result<(), Fault>
    ensures { IsInstallCalls F.Folder (manifest_calls number manifest.now) (current_calls number)
        opened folder.old folder.new result }
{
    write_manifest(alloc, folder, number, manifest)?;
    test_current(alloc, folder, opened)?;
    name_current(alloc, folder, number)
}

/// Writes the manifest, and CURRENT's text under its temporary name.
fn write_manifest<F: Folder>(
    alloc: Global,
    folder: &mut F,
    number: u64,
    manifest: &[u8],
) -> Result<(), Fault>
    ensures runs { MakesCalls (manifest_calls number manifest.now)
        (F.calls folder.old) (F.calls folder.new) (F.tells folder.old) (F.tells folder.new) result }
    ensures refused { IfErr result
        (λ e. UnlessMemory e (IsStopped (F.failed folder.old) (F.failed folder.new) e)) }
    ensures at_once { StopsAtDevice (F.failed folder.old) (F.failed folder.new) result }
    ensures later { F.failed folder.old ≤ F.failed folder.new }
    ensures readings { F.readings folder.new ≡ F.readings folder.old }
{
    let name = manifest_name(alloc, number)?;
    write(folder, name.as_str(), manifest)?;
    write_temporary(alloc, folder, number)
}

/// Makes a file and syncs it.
fn write<F: Folder>(folder: &mut F, name: &str, bytes: &[u8]) -> Result<(), FolderFault>
    ensures runs { MakesCalls (write_calls name.now bytes.now) (F.calls folder.old)
        (F.calls folder.new) (F.tells folder.old) (F.tells folder.new) result }
    // If the name is free, a crash at any moment leaves the version before.
    ensures before { (cmp : List ℕ → List ℕ → Ordering) (order : Order) (v : State)
        (tables : List (ℕ × List ℕ)) → IsFree cmp v name.now
        → (start : World) → AlwaysStandsAs cmp order v tables start (F.calls folder.old)
        → LeavesOnly start (F.calls folder.old) (F.calls folder.new) (ReadsAs cmp order v tables) }
    // At Ok the folder stands for that version, and the file is written.
    ensures written { (cmp : List ℕ → List ℕ → Ordering) (order : Order) (v : State)
        (tables : List (ℕ × List ℕ)) → IsFree cmp v name.now
        → (start : World) → AlwaysStandsAs cmp order v tables start (F.calls folder.old)
        → OnOk result ((w : World) → Leads start (F.calls folder.new) w →
        StandsAs cmp order v tables w × IsWritten w (name.now, bytes.now)) }
    ensures failures { F.failed folder.new ≡ failures_after (F.failed folder.old) result }
    ensures readings { F.readings folder.new ≡ F.readings folder.old }
{
    make_file(folder, name, bytes)
}

/// Makes and syncs CURRENT's text under its temporary name, and syncs the folder.
fn write_temporary<F: Folder>(alloc: Global, folder: &mut F, number: u64) -> Result<(), Fault>
    ensures runs { MakesCalls (temporary_calls number)
        (F.calls folder.old) (F.calls folder.new) (F.tells folder.old) (F.tells folder.new) result }
    // If the name is free, a crash at any moment leaves the version before.
    ensures before { (cmp : List ℕ → List ℕ → Ordering) (order : Order) (v : State)
        (tables : List (ℕ × List ℕ))
        → IsFree cmp v (temporary_name number) → (start : World) →
        AlwaysStandsAs cmp order v tables start (F.calls folder.old)
        → LeavesOnly start (F.calls folder.old) (F.calls folder.new) (ReadsAs cmp order v tables) }
    // At Ok the folder stands for that version, and the file is written and settled.
    ensures written { (cmp : List ℕ → List ℕ → Ordering) (order : Order) (v : State)
        (tables : List (ℕ × List ℕ))
        → IsFree cmp v (temporary_name number) → (start : World) →
        AlwaysStandsAs cmp order v tables start (F.calls folder.old)
        → OnOk result ((w : World) → Leads start (F.calls folder.new) w
        → StandsAs cmp order v tables w × IsWritten w (temporary_name number, current_text number)
        × IsSettled w (temporary_name number)) }
    ensures refused { IfErr result
        (λ e. UnlessMemory e (IsStopped (F.failed folder.old) (F.failed folder.new) e)) }
    ensures at_once { StopsAtDevice (F.failed folder.old) (F.failed folder.new) result }
    ensures later { F.failed folder.old ≤ F.failed folder.new }
    ensures readings { F.readings folder.new ≡ F.readings folder.old }
{
    make_temporary(alloc, folder, number)
}

/// Changed if CURRENT doesn't name the manifest of the number `opened`, or isn't there. It only
/// reads.
fn test_current<F: Folder>(alloc: Global, folder: &mut F, opened: u64) -> Result<(), Fault>
    ensures answer { FolderAnswers (λ u. u) (F.failed folder.old) (F.failed folder.new) result
        (IsCurrentAnswer (F.tells folder.old) opened) }
    ensures again { OnOk result (F.readings folder.new ≡ F.readings folder.old
        ++ (F.calls folder.old, codes "CURRENT", Some (current_text opened)) ∷ []) }
    ensures device { ReportsDevice F.Folder folder.old folder.new result }
    ensures reads { OnlyReads F.Folder folder.old folder.new }
{
    let text = current_text(alloc, opened)?;
    match folder.read(CURRENT)? {
        Some(bytes) if bytes.as_slice() == text.as_bytes() => Ok(()),
        _ => Err(Fault::of(FaultName::Changed)),
    }
}

/// Renames the file of the temporary name to CURRENT, and syncs the folder.
fn name_current<F: Folder>(alloc: Global, folder: &mut F, number: u64) -> Result<(), Fault>
    ensures runs { MakesCalls (current_calls number) (F.calls folder.old) (F.calls folder.new)
        (F.tells folder.old) (F.tells folder.new) result }
    ensures refused { IfErr result
        (λ e. UnlessMemory e (IsStopped (F.failed folder.old) (F.failed folder.new) e)) }
    ensures at_once { StopsAtDevice (F.failed folder.old) (F.failed folder.new) result }
    ensures later { F.failed folder.old ≤ F.failed folder.new }
    ensures readings { F.readings folder.new ≡ F.readings folder.old }
{
    let name = temporary_name(alloc, number)?;
    Ok(make_current(folder, &name)?)
}

/// Renames the file of this `name` to CURRENT, and syncs the folder.
fn make_current<F: Folder>(folder: &mut F, name: &String) -> Result<(), FolderFault>
    ensures runs { MakesCalls
        (Renamed (string_bytes name.now) (codes "CURRENT") ∷ FolderSynced ∷ [])
        (F.calls folder.old) (F.calls folder.new) (F.tells folder.old) (F.tells folder.new) result }
    // At Ok both calls were made, and no others.
    ensures both { OnOk result (F.calls folder.new ≡ F.calls folder.old
        ++ Done (Renamed (string_bytes name.now) (codes "CURRENT")) ∷ Done FolderSynced ∷ []) }
    ensures failures { F.failed folder.new ≡ failures_after (F.failed folder.old) result }
    ensures readings { F.readings folder.new ≡ F.readings folder.old }
{
    folder.rename(name.as_str(), CURRENT)?;
    folder.sync_folder()
}

/// Makes a file and syncs it.
fn make_file<F: Folder>(folder: &mut F, name: &str, bytes: &[u8]) -> Result<(), FolderFault>
    ensures runs { MakesCalls (write_calls name.now bytes.now) (F.calls folder.old)
        (F.calls folder.new) (F.tells folder.old) (F.tells folder.new) result }
    ensures failures { F.failed folder.new ≡ failures_after (F.failed folder.old) result }
    ensures readings { F.readings folder.new ≡ F.readings folder.old }
{
    folder.create(name, bytes)?;
    folder.sync(name)
}

/// Makes and syncs CURRENT's text under its temporary name, and syncs the folder.
fn make_temporary<F: Folder>(alloc: Global, folder: &mut F, number: u64) -> Result<(), Fault>
    ensures runs { MakesCalls (temporary_calls number)
        (F.calls folder.old) (F.calls folder.new) (F.tells folder.old) (F.tells folder.new) result }
    ensures refused { IfErr result
        (λ e. UnlessMemory e (IsStopped (F.failed folder.old) (F.failed folder.new) e)) }
    ensures at_once { StopsAtDevice (F.failed folder.old) (F.failed folder.new) result }
    ensures later { F.failed folder.old ≤ F.failed folder.new }
    ensures readings { F.readings folder.new ≡ F.readings folder.old }
{
    let name = temporary_name(alloc, number)?;
    let text = current_text(alloc, number)?;
    write(folder, name.as_str(), text.as_bytes())?;
    Ok(folder.sync_folder()?)
}
