//! The line of a lawful version, and the test of a table and the line of a valid one.

ghost use Rattle.std.specs.Prelude.{Ok};
ghost use Rattle.table.specs.Answers.{EqualOrMemory};
ghost use Rattle.answers.specs.FaultLines.{table_count, table_verdict, valid_line};
ghost use Rattle.answers.specs.FolderLines.{lawful_line};

use checks::VersionTotals;
use folder::Bytewise;
use std::alloc::Global;
use table::{Fault, check};

/// The line of a lawful version with this many files and entries.
pub fn lawful_line(alloc: Global, tested: VersionTotals) -> Result<Vec<u8>, Fault>
    ensures { EqualOrMemory (λ v. v.items) result
        (Ok (lawful_line tested.files tested.entries)) }
{
    let VersionTotals { files, entries } = tested;
    Ok(format!(in alloc; "lawful: {files} files, {entries} entries\n")?.into_bytes())
}

/// The line `valid: E entries` of a table in bytewise order. An invalid table is refused as
/// [`dump`](crate::dump) refuses it.
pub fn verify_table(alloc: Global, bytes: &[u8]) -> Result<Vec<u8>, Fault>
    ensures { EqualOrMemory (λ line. line.items) result (table_verdict bytes.now) }
{
    let count = table_entries(alloc, bytes)?;
    valid_line(alloc, count)
}

/// How many entries a table in bytewise order has; 2^64 - 1 if it had more. An invalid table is
/// refused by the first test that fails, as `table::check` refuses it.
pub fn table_entries(alloc: Global, bytes: &[u8]) -> Result<u64, Fault>
    ensures { EqualOrMemory (λ count. count) result (table_count bytes.now) }
{
    let table = check::<Bytewise>(alloc, bytes)?;
    Ok(table.tally().entries)
}

/// The line `valid: E entries`.
fn valid_line(alloc: Global, entries: u64) -> Result<Vec<u8>, Fault>
    ensures { EqualOrMemory (λ line. line.items) result (Ok (valid_line entries)) }
{
    Ok(format!(in alloc; "valid: {entries} entries\n")?.into_bytes())
}
