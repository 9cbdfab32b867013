//! The rows of held tables, in a range.

ghost use Rattle.std.specs.Prelude.{◌≡◌, map, IfErr};
ghost use Rattle.table.specs.Answers.{fault};
ghost use Rattle.table.specs.fault.FaultName.TheVariants.{Memory};
ghost use Rattle.reads.specs.Ranges.{key_range};
ghost use Rattle.reads.specs.Tables.{NumberedContents};
ghost use Rattle.scan.specs.EntryRows.{sorted_rows};
ghost use Rattle.scan.specs.RowParts.{AreTelling, AreWanted};

use crate::merge_walk::tell_merged;
use crate::row_limit::RowLimit;
use crate::row_taker::RowTaker;
use checks::{HeldTables, lent_tables};
use merge::{Merging, cursors_from};
use reads::{NumberedTable, Range};
use std::alloc::Global;
use table::{Comparator, Fault, TableCursor};

/// Tells the rows of held tables in `range`, by the sequence `at`: at most `limit`.
pub(crate) fn tell_held<C: Comparator + 'static, T: RowTaker>(
    alloc: Global,
    held: &HeldTables<C>,
    range: Range<'_>,
    at: u64,
    limit: Option<u64>,
    taker: &mut T,
) -> Result<RowLimit, Fault>
    requires { AreWanted limit }
    ensures told { AreTelling T.tells (sorted_rows C.cmp (key_range range.entry) at
        (map (λ (t : NumberedContents). t.contents.entries) held.now))
        taker.old limit taker.new result }
    ensures memory { IfErr result (λ e. e ≡ fault Memory) }
{
    let tables = held.lend(alloc)?;
    tell_tables(alloc, &tables, range, at, limit, taker)
}

/// Tells the rows of tables in `range`, by the sequence `at`: at most `limit`.
fn tell_tables<'t, C: Comparator + 't, T: RowTaker>(
    alloc: Global,
    tables: &[NumberedTable<'t, C>],
    range: Range<'_>,
    at: u64,
    limit: Option<u64>,
    taker: &mut T,
) -> Result<RowLimit, Fault>
    requires { AreWanted limit }
    ensures told { AreTelling T.tells (sorted_rows C.cmp (key_range range.entry) at
        (map (λ (t : NumberedContents). t.contents.entries) tables.now))
        taker.old limit taker.new result }
    ensures memory { IfErr result (λ e. e ≡ fault Memory) }
{
    let lent = lent_tables(alloc, tables)?;
    let cursors = cursors_from(alloc, &lent, range)?;
    let mut merging = Merging::<C, TableCursor<'t, C>>::new(alloc, cursors)?;
    tell_merged::<C, TableCursor<'t, C>, T>(alloc, &mut merging, range, at, limit, taker)
}
