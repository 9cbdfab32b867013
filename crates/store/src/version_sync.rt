//! The sync of what a version rests on.

ghost use Rattle.std.specs.Prelude.{◌≡◌, [], ◌∷◌, ℕ, List, map, IfErr, IfOk, OnOk};
ghost use Rattle.folder.specs.Answers.{UnlessMemory};
ghost use Rattle.folder.specs.CallSequence.{MakesCalls};
ghost use Rattle.folder.specs.Calls.{Files, Synced, Tells};
ghost use Rattle.folder.specs.Crash.{World};
ghost use Rattle.folder.specs.Folder.{failures_after};
ghost use Rattle.folder.specs.Levels.{file_numbers};
ghost use Rattle.folder.specs.OpenAnswer.{IsStopped};
ghost use Rattle.folder.specs.Orders.{order_cmp};
ghost use Rattle.folder.specs.Reports.{ReportsDevice};
ghost use Rattle.install.specs.Install.{AlwaysStandsBy};
ghost use Rattle.store.specs.CallsAnswer.{IsCallsAnswer};
ghost use Rattle.store.specs.VersionSync.{AlwaysReadsBy, sync_calls, table_syncs};

use crate::synced_version::{SyncMark, SyncedVersion};
use folder::{
    Bytewise, CURRENT, Comparator, Fault, FileMeta, Folder, FolderFault, LEVELS, Opened, Order,
    Shortlex, Version, manifest_name, old_table_name, table_name,
};
use std::alloc::Global;

/// Syncs what a folder was `opened` as, so that it outlives a crash. Nothing need have been synced
/// before. It syncs in this order:
///
/// 1. CURRENT;
/// 2. the manifest that CURRENT named;
/// 3. each table of the version, by level and in version order: its name `%06d.ldb`, and then its
///    older name `%06d.sst`, also if there is no such file;
/// 4. the folder.
///
/// A crash before the folder is synced may leave anything of what was not synced before.
///
/// The faults are Device and Memory. If the device fails a call, no further call is made. The
/// folder holds what it held.
pub fn sync_version<F: Folder>(
    alloc: Global,
    folder: &mut F,
    opened: Opened,
) -> Result<SyncedVersion, Fault>
    // The calls in their order, each once, up to one that fails.
    ensures runs { MakesCalls
        (sync_calls (order_cmp opened.order) opened.version opened.manifest)
        (F.calls folder.old) (F.calls folder.new) (F.tells folder.old) (F.tells folder.new) result }
    ensures same { (files : Files) → Tells (F.tells folder.old) files →
        Tells (F.tells folder.new) files }
    // If the folder reads as this version by this manifest, at Ok it stands for it by that
    // manifest, whatever was synced before.
    ensures stands { (tables : List (ℕ × List ℕ)) (start : World) →
        AlwaysReadsBy (order_cmp opened.order) opened.order opened.version
        opened.manifest tables start (F.calls folder.old) → OnOk result
        (AlwaysStandsBy (order_cmp opened.order) opened.order opened.version
        opened.manifest tables start (F.calls folder.new)) }
    // What is synced is what was opened.
    ensures synced { IfOk result (λ s. (s.order ≡ opened.order) × (s.version ≡ opened.version)
        × (s.manifest ≡ opened.manifest)) }
    // Only Device and Memory are answered, Device only if the device failed.
    ensures refused { IfErr result
        (λ e. UnlessMemory e (IsStopped (F.failed folder.old) (F.failed folder.new) e)) }
    ensures device { ReportsDevice F.Folder folder.old folder.new result }
{
    match make_syncs(alloc, folder, &opened) {
        Ok(()) => Ok(SyncedVersion {
            order: opened.order,
            version: opened.version,
            manifest: opened.manifest,
            mark: SyncMark,
        }),
        Err(fault) => Err(fault),
    }
}

/// Syncs CURRENT, the manifest, the tables and the folder.
fn make_syncs<F: Folder>(alloc: Global, folder: &mut F, opened: &Opened) -> Result<(), Fault>
    ensures { IsCallsAnswer F.Folder
        (sync_calls (order_cmp opened.now.order) opened.now.version opened.now.manifest)
        folder.old folder.new result }
{
    let manifest = manifest_name(alloc, opened.manifest)?;
    sync_both(folder, CURRENT, manifest.as_str())?;
    sync_tables(alloc, folder, opened)?;
    Ok(folder.sync_folder()?)
}

/// Syncs the tables of what a folder was `opened` as.
fn sync_tables<F: Folder>(alloc: Global, folder: &mut F, opened: &Opened) -> Result<(), Fault>
    ensures { IsCallsAnswer F.Folder
        (table_syncs (file_numbers (order_cmp opened.now.order) opened.now.version))
        folder.old folder.new result }
{
    match opened.order {
        Order::Bytewise => sync_levels::<Bytewise, F>(alloc, folder, &opened.version),
        Order::Shortlex => sync_levels::<Shortlex, F>(alloc, folder, &opened.version),
    }
}

/// Syncs the tables of a version, by level and in version order.
fn sync_levels<C: Comparator, F: Folder>(
    alloc: Global,
    folder: &mut F,
    version: &Version,
) -> Result<(), Fault>
    ensures { IsCallsAnswer F.Folder (table_syncs (file_numbers C.cmp version.now))
        folder.old folder.new result }
{
    for level in 0..LEVELS {
        sync_files(alloc, folder, &version.files::<C>(alloc, level)?)?;
    }
    Ok(())
}

/// Syncs the tables of these `files`, in order.
fn sync_files<F: Folder>(alloc: Global, folder: &mut F, files: &[&FileMeta]) -> Result<(), Fault>
    ensures { IsCallsAnswer F.Folder (table_syncs (map (λ f. f.now.number) files.now))
        folder.old folder.new result }
{
    for file in files {
        sync_table(alloc, folder, file.number)?;
    }
    Ok(())
}

/// Syncs the table of a `number`, under its name and under its older one.
fn sync_table<F: Folder>(alloc: Global, folder: &mut F, number: u64) -> Result<(), Fault>
    ensures { IsCallsAnswer F.Folder (table_syncs (number ∷ [])) folder.old folder.new result }
{
    let name = table_name(alloc, number)?;
    let old_name = old_table_name(alloc, number)?;
    Ok(sync_both(folder, name.as_str(), old_name.as_str())?)
}

/// Syncs the files of two names.
fn sync_both<F: Folder>(folder: &mut F, first: &str, second: &str) -> Result<(), FolderFault>
    ensures runs { MakesCalls (Synced first.now ∷ Synced second.now ∷ []) (F.calls folder.old)
        (F.calls folder.new) (F.tells folder.old) (F.tells folder.new) result }
    ensures failures { F.failed folder.new ≡ failures_after (F.failed folder.old) result }
{
    folder.sync(first)?;
    folder.sync(second)
}
