//! What is told of the levels of a version.

ghost use Rattle.std.specs.Prelude.{◌≡◌, ◌++◌, fold, if◌then◌else◌, length, map, Ok, OnOk, IfErr};
ghost use Rattle.std.specs.Ordering.{is_lt};
ghost use Rattle.table.specs.Answers.{EqualOrMemory, fault};
ghost use Rattle.table.specs.fault.FaultName.TheVariants.{Memory};
ghost use Rattle.table.specs.Order.{internal_cmp};
ghost use Rattle.scan.specs.Counts.{capped_plus};
ghost use Rattle.scan.specs.LevelRows.{level_rows};
ghost use Rattle.scan.specs.Stats.{larger_key, level_stats, no_amounts, seen_stats};

use crate::amounts::Amounts;
use crate::level_stats::{LevelStats, VersionStats};
use folder::FileMeta;
use std::alloc::Global;
use table::{Comparator, Fault, InternalKey, KeyBuf};

/// What a version has whose levels have these files, in version order, and these amounts.
pub(crate) fn stats_of<C: Comparator>(
    alloc: Global,
    levels: &[Vec<&FileMeta>],
    amounts: &[Amounts],
) -> Result<VersionStats, Fault>
    requires { length levels.now ≡ length amounts.now }
    ensures { EqualOrMemory seen_stats result (Ok (record {
      levels = level_rows C.cmp 0 (map (λ fs. map (λ f. f.now) fs.items) levels.now) amounts.now;
      all = fold capped_plus no_amounts amounts.now;
    })) }
{
    let mut stats = Vec::new(alloc);
    for level in 0..levels.len() {
        push_level::<C>(
            alloc,
            &mut stats,
            level as u64,
            &levels[level],
            amounts[level],
        )?;
    }
    Ok(VersionStats {
        levels: stats,
        all: Amounts::sum(amounts),
    })
}

/// Appends what is told of a level, if it has a file.
fn push_level<C: Comparator>(
    alloc: Global,
    stats: &mut Vec<LevelStats>,
    level: u64,
    files: &[&FileMeta],
    amounts: Amounts,
) -> Result<(), Fault>
    ensures ok { OnOk result (stats.new.items ≡ stats.old.items
        ++ level_stats C.cmp level amounts (map (λ f. f.now) files.now)) }
    ensures memory { IfErr result (λ e. e ≡ fault Memory) }
{
    let Some((first, others)) = files.split_first() else {
        return Ok(());
    };
    let smallest = KeyBuf::of(alloc, first.smallest.as_key())?;
    let largest = KeyBuf::of(alloc, largest_key::<C>(first, others))?;
    stats.push(LevelStats {
        level,
        amounts,
        smallest,
        largest,
    })?;
    Ok(())
}

/// The largest internal key of files.
fn largest_key<'v, C: Comparator>(first: &'v FileMeta, others: &[&'v FileMeta]) -> InternalKey<'v>
    ensures { result.bytes.now
        ≡ fold (larger_key C.cmp) first.now.largest (map (λ f. f.now) others.now) }
{
    let mut largest = first.largest.as_key();
    for file in others {
        largest = larger::<C>(largest, file.largest.as_key());
    }
    largest
}

/// The larger of two internal keys.
fn larger<'v, C: Comparator>(one: InternalKey<'v>, two: InternalKey<'v>) -> InternalKey<'v>
    ensures { result.bytes.now
        ≡ (if is_lt (internal_cmp C.cmp one.entry.bytes.now two.entry.bytes.now)
        then two.entry.bytes.now else one.entry.bytes.now) }
{
    if one.compare::<C>(&two).is_lt() {
        two
    } else {
        one
    }
}
