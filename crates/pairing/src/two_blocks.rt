//! Merging two blocks into one.

ghost use Rattle.std.specs.Prelude.{IfOk, Ok, map};
ghost use Rattle.ikey.specs.Answers.{EqualOrMemory, HoldsOrMemory};
ghost use Rattle.pairing.specs.Blocks.{AreBlocksMerged, IsBlocksAnswer, IsUnionAnswer};
ghost use Rattle.pairing.specs.Blocks.{block_within};
ghost use Rattle.pairing.specs.Blocks.{counted_block};
ghost use Rattle.ikey.specs.Bytewise.{bytewise_cmp};
ghost use Rattle.merge.specs.MergedLists.{entries_of_lists};
ghost use Rattle.table.specs.EntriesFrom.{EntriesRise};
ghost use Rattle.pairing.specs.TestedUnion.{tested_entries};

use crate::entry_checks::tested;
use crate::parted_entries::parted;
use crate::range_pair::RangePair;
use crate::tested_entry::TestedEntry;
use crate::two_ranges::TwoRanges;
use block::BlockBuilder;
use board::{Open, run};
use ikey::{Fault, FaultName};
use std::alloc::Global;
use std::thread::Threads;
use table::{DEFAULT_RESTART_INTERVAL, MAX_TABLE_LEN};

/// The restart interval of the block that is written.
pub const INTERVAL: u64 = DEFAULT_RESTART_INTERVAL;

/// The number of ranges of user keys, and of workers.
const RANGES: u64 = 2;

/// The number of entries of two blocks together, and the block of their union at interval 16.
///
/// File `a` is tested whole, and then `b`. The first test that fails names the fault:
///
/// 1. Block: the bytes aren't a block.
/// 2. Then each entry in order. Key: its key is no internal key. TooLarge: its user key has more
///    than 65,535 bytes, or its value more than 16,777,215. Order: its key isn't above the one
///    before it, bytewise.
///
/// After both files it is Duplicate if a user key has one sequence twice. Then it is TooLarge if
/// the block would have more than 2^30 bytes.
///
/// Two workers merge the entries before the user key `at` and those from it on, and the runs are
/// joined. So the block doesn't depend on `at`.
pub fn blocks<R: Threads + Sync>(
    rt: &R,
    alloc: Global,
    a: &[u8],
    b: &[u8],
    at: &[u8],
) -> Result<(u64, Vec<u8>), Fault>
    ensures answer { HoldsOrMemory (λ r. (r.0, r.1.items)) result (IsBlocksAnswer a.now b.now) }
    ensures merged { IfOk result (λ r. AreBlocksMerged a.now b.now r.0 r.1.items) }
{
    let entries_a = tested(alloc, a)?;
    let entries_b = tested(alloc, b)?;
    let entries = united(rt, alloc, &entries_a, &entries_b, at)?;
    counted(alloc, &entries)
}

/// The number of entries, and their block. TooLarge if the block would be too long.
fn counted(alloc: Global, entries: &[TestedEntry<'_>]) -> Result<(u64, Vec<u8>), Fault>
    ensures { EqualOrMemory (λ r. (r.0, r.1.items)) result
        (counted_block (tested_entries entries.now)) }
{
    let count = entries.len() as u64;
    let block = written(alloc, entries)?;
    Ok((count, block))
}

/// The block of `entries`. TooLarge if it would have more than 2^30 bytes.
fn written(alloc: Global, entries: &[TestedEntry<'_>]) -> Result<Vec<u8>, Fault>
    ensures { EqualOrMemory (λ v. v.items) result (block_within (tested_entries entries.now)) }
{
    let mut builder = BlockBuilder::new(alloc, INTERVAL);
    for entry in entries {
        let key = entry.key.as_key();
        builder.add(key.bytes(), entry.value)?;
        if builder.estimate() > MAX_TABLE_LEN {
            return Err(Fault::of(FaultName::TooLarge));
        }
    }
    builder.finish()
}

/// The union of two files. Two workers merge the entries before the user key `at` and those from it
/// on.
///
/// Duplicate if there is no union.
fn united<'a, R: Threads + Sync>(
    rt: &R,
    alloc: Global,
    a: &[TestedEntry<'a>],
    b: &[TestedEntry<'a>],
    at: &[u8],
) -> Result<Vec<TestedEntry<'a>>, Fault>
    requires rising_a { EntriesRise bytewise_cmp (tested_entries a.now) }
    requires rising_b { EntriesRise bytewise_cmp (tested_entries b.now) }
    ensures { HoldsOrMemory (λ v. tested_entries v.items) result
        (IsUnionAnswer (tested_entries a.now) (tested_entries b.now)) }
{
    let (before_a, from_a) = parted(a, at);
    let (before_b, from_b) = parted(b, at);
    let ranges = TwoRanges {
        alloc,
        before: RangePair::new(before_a, before_b),
        from: RangePair::new(from_a, from_b),
    };
    let runs = run(rt, alloc, &ranges, RANGES, RANGES, &Open)?;
    in_a_row(alloc, runs)
}

/// The entries of all runs, one after the other.
fn in_a_row<'a>(
    alloc: Global,
    runs: Vec<Vec<TestedEntry<'a>>>,
) -> Result<Vec<TestedEntry<'a>>, Fault>
    ensures { EqualOrMemory (λ v. tested_entries v.items) result
        (Ok (entries_of_lists (map (λ run. tested_entries run.items) runs.entry.items))) }
{
    let mut entries = Vec::new(alloc);
    for mut run in runs {
        entries.append(&mut run)?;
    }
    Ok(entries)
}
