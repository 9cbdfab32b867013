//! The test whether a version is lawful with tables that were read.

ghost use Rattle.std.specs.Prelude.{◌<◌, ◌≤◌, map};
ghost use Rattle.std.specs.Result.{MatchResult};
ghost use Rattle.ikey.specs.Answers.{HoldsOrMemory, UnlessMemory};
ghost use Rattle.reads.specs.Lawful.{IsLawful, IsUnlawful};
ghost use Rattle.checks.specs.LawfulTables.{IsLawfulTables};

use crate::rounds::check_tables;
use crate::sequence_order::all_entries_fall;
use board::{Gate, Watch, Workers};
use folder::Version;
use ikey::{Fault, FaultName, SharedComparator};
use reads::{NumberedTable, tables_newest_first};
use std::thread::Threads;

/// The tables of these numbers and bytes, checked by `workers`, with which a version is lawful.
///
/// The first that applies: the refusal of the first invalid table, as of `check_tables`; then that
/// of the version, as of `reads::lawful`. The only other fault is Memory.
pub fn lawful_tables<'t, C: SharedComparator + 'static, W: Watch + Sync, R: Threads + Sync>(
    workers: &Workers<'_, R, W>,
    version: &Version,
    loaded: &'t [(u64, Vec<u8>)],
) -> Result<Vec<NumberedTable<'t, C>>, Fault>
    ensures { HoldsOrMemory (λ v. v.items) result
        (IsLawfulTables C.cmp version.now (map (λ t. (t.0, t.1.items)) loaded.now)) }
{
    let tables = check_tables::<C, W, R>(workers, loaded)?;
    lawful(workers, version, &tables)?;
    Ok(tables)
}

/// Tests whether a version is lawful with these tables, as `reads::lawful` does. The entries of
/// tables that bounds don't tell apart are walked by `workers`, a range of user keys a job.
fn lawful<'t, C: SharedComparator + 'static, G: Gate + Sync, R: Threads + Sync>(
    workers: &Workers<'_, R, G>,
    version: &Version,
    tables: &[NumberedTable<'t, C>],
) -> Result<(), Fault>
    ensures { MatchResult result (λ none. IsLawful C.cmp version.now tables.now)
        (λ e. UnlessMemory e (IsUnlawful C.cmp version.now tables.now e)) }
{
    let standing = tables_newest_first(workers.alloc(), version, tables)?;
    if !all_entries_fall(workers, &standing)? {
        return Err(Fault::of(FaultName::Lawless));
    }
    Ok(())
}
