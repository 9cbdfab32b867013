//! The walk over held tables in a range of user keys.

ghost use Rattle.std.specs.Prelude.{◌≡◌, ◌↔◌, ◌<◌, ◌≤◌, ◌^◌, true, length, map};
ghost use Rattle.std.specs.Prelude.{IfOk, IfErr, IfSome};
ghost use Rattle.ikey.specs.Answers.{fault};
ghost use Rattle.ikey.specs.fault.FaultName.TheVariants.{Memory};
ghost use Rattle.split.specs.Ranges.{IsIn, key_range};
ghost use Rattle.reads.specs.TableOrder.{AreFallingIn};
ghost use Rattle.checks.specs.GroupTest.{IsWalkAnswer, entries_of_all};
ghost use Rattle.board.specs.declared.limits.TheConstants.{MAX_JOBS};

use crate::entry_counts::counted_files;
use crate::held_tables::HeldTables;
use crate::sequence_order::entries_fall;
use board::{Open, Workers};
use folder::FileMeta;
use ikey::{Comparator, Fault, SharedComparator};
use reads::NumberedTable;
use split::Range;
use std::alloc::Global;
use std::thread::Threads;
use table::SoundTable;

/// How many entries the held tables of these files have that begin in `range`. None unless each
/// table is what the version states of its file, and of each user key of the range the sequences
/// fall through them. `next` is the version's next file.
///
/// `workers` walk the range. Their gate isn't told.
pub(crate) fn walk_range<C: SharedComparator + 'static, G, R: Threads + Sync>(
    workers: &Workers<'_, R, G>,
    files: &[&FileMeta],
    next: Option<u64>,
    held: &HeldTables<C>,
    range: Range<'_>,
) -> Result<Option<u128>, Fault>
    requires same { length held.now ≡ length files.now }
    requires few_files { length files.now ≤ MAX_JOBS }
    ensures walked { IfOk result (IsWalkAnswer C.cmp next (key_range range.entry)
        (map (λ f. f.now) files.now) held.now) }
    ensures small { IfOk result (λ found. IfSome found (λ count. count ≤ 2 ^ 100)) }
    ensures memory { IfErr result (λ e. e ≡ fault Memory) }
{
    let tables = held.lend(workers.alloc())?;
    let Some(count) = counted_files(files, next, &tables, range) else {
        return Ok(None);
    };
    if !tables_fall(workers, &tables, range)? {
        return Ok(None);
    }
    Ok(Some(count))
}

/// Whether of each user key of `range` the sequences fall through the tables.
fn tables_fall<'t, C: SharedComparator + 'static, G, R: Threads + Sync>(
    workers: &Workers<'_, R, G>,
    tables: &[NumberedTable<'t, C>],
    range: Range<'_>,
) -> Result<bool, Fault>
    ensures falls { IfOk result (λ falls. (falls ≡ true)
        ↔ AreFallingIn (IsIn C.cmp (key_range range.entry)) (entries_of_all tables.now)) }
    ensures memory { IfErr result (λ e. e ≡ fault Memory) }
{
    let lent = lent_tables(workers.alloc(), tables)?;
    entries_fall(&workers.with_gate(&Open), &lent, range)
}

/// The tables without their numbers.
pub fn lent_tables<'l, 't, C: Comparator>(
    alloc: Global,
    tables: &'l [NumberedTable<'t, C>],
) -> Result<Vec<&'l SoundTable<'t, C>>, Fault>
    ensures lent { IfOk result (λ v. map (λ t. t.now.entries) v.items
        ≡ map (λ t. t.contents.entries) tables.now) }
    ensures memory { IfErr result (λ e. e ≡ fault Memory) }
{
    let mut lent = Vec::with_capacity(alloc, tables.len())?;
    for table in tables {
        lent.push(table.table())?;
    }
    Ok(lent)
}
