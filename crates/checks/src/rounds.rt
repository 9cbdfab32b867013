//! The check of all tables, in rounds: a board has at most 2^40 jobs.

ghost use Rattle.std.specs.Prelude.{◌<◌, ◌≤◌, map};
ghost use Rattle.ikey.specs.Answers.{EqualOrMemory};
ghost use Rattle.checks.specs.TableReadings.{tables_reading};

use crate::table_check::check_round;
use board::{Gate, MAX_JOBS, Watch, Workers};
use ikey::{Comparator, Fault, FaultName, SharedComparator};
use reads::NumberedTable;
use std::alloc::Global;
use std::thread::Threads;
use table::check;

/// The most tables of a round: a board's jobs.
pub(crate) const MAX_TABLES: usize = MAX_JOBS as usize;

/// Checks the tables of these numbers and bytes by `workers`, a table a job, and answers them
/// in order.
///
/// Refused as the first invalid table is, by the first test of `table::check` that it fails,
/// whichever worker is first; the gate of `workers` is told which one it is. The only other fault
/// is Memory.
pub fn check_tables<'t, C: SharedComparator, W: Watch + Sync, R: Threads + Sync>(
    workers: &Workers<'_, R, W>,
    loaded: &'t [(u64, Vec<u8>)],
) -> Result<Vec<NumberedTable<'t, C>>, Fault>
    ensures { EqualOrMemory (λ v. v.items) result
        (tables_reading C.cmp (map (λ t. (t.0, t.1.items)) loaded.now)) }
{
    let checked = check_rounds::<C, W, R>(workers, loaded);
    if checked.is_err() {
        tell_refused::<C, W>(workers.alloc(), workers.gate(), loaded);
    }
    checked
}

/// Tells the gate which of these tables is the first invalid one.
pub(crate) fn tell_refused<C: Comparator, W: Watch>(
    alloc: Global,
    gate: &W,
    loaded: &[(u64, Vec<u8>)],
) {
    for (number, bytes) in loaded {
        if let Err(fault) = check::<C>(alloc, bytes) {
            if fault.name != FaultName::Memory {
                gate.refused(*number);
            }
            return;
        }
    }
}

/// The same as [`check_tables`], but the gate isn't told which table is refused.
pub(crate) fn check_rounds<'t, C: SharedComparator, G: Gate + Sync, R: Threads + Sync>(
    workers: &Workers<'_, R, G>,
    loaded: &'t [(u64, Vec<u8>)],
) -> Result<Vec<NumberedTable<'t, C>>, Fault>
    ensures { EqualOrMemory (λ v. v.items) result
        (tables_reading C.cmp (map (λ t. (t.0, t.1.items)) loaded.now)) }
{
    let mut tables = Vec::new(workers.alloc());
    let mut rest = loaded;
    while !rest.is_empty() {
        let (round, behind) = rest.split_at(rest.len().min(MAX_TABLES));
        let mut checked = check_round::<C, G, R>(workers, round)?;
        tables.append(&mut checked)?;
        rest = behind;
    }
    Ok(tables)
}
