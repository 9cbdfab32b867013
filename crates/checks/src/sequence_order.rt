//! Whether the entries of a version's tables fall, by ranges of user keys.

ghost use Rattle.std.specs.Prelude.{◌≡◌, ◌↔◌, ◌+◌, ◌<◌, ◌≤◌, true, length, map, IfOk, IfErr};
ghost use Rattle.std.specs.List.{list_all};
ghost use Rattle.ikey.specs.Answers.{fault};
ghost use Rattle.ikey.specs.fault.FaultName.TheVariants.{Memory};
ghost use Rattle.reads.specs.MergedLists.{entries_of_lists};
ghost use Rattle.split.specs.Ranges.{IsCover, IsIn, key_range};
ghost use Rattle.reads.specs.TableOrder.{AreFalling, AreFallingIn};
ghost use Rattle.checks.specs.CommonRange.{TellsRange};

use crate::range_intersection::common_range;
use crate::sampled_ranges::sampled_split;
use crate::table_bounds::tables_to_walk;
use board::{Gate, Labour, Workers};
use ikey::{Comparator, Fault, SharedComparator};
use merge::cursors_from;
use reads::falls_in;
use split::{Range, Split};
use std::alloc::Global;
use std::thread::Threads;
use table::SoundTable;

/// The tables, walked in what a range has of the ranges of a split, each of these a job.
#[derive(Drop)]
struct Falls<'r, 't, C: Comparator + 'static> {
    alloc: Global,
    tables: &'r [&'r SoundTable<'t, C>],
    within: Range<'r>,
    split: &'r Split<C>,
}

impl<'r, 't, C: Comparator + 't + 'static> Labour for Falls<'r, 't, C> {
    type Out = bool;

    ghost use Rattle.std.specs.Prelude.{◌+◌, None, length, map};
    ghost use Rattle.split.specs.Ranges.{key_range};
    ghost use Rattle.checks.specs.CommonRange.{TellsRange};

    ghost jobs = { λ s. length s.split.now + 1 };

    ghost refusal = { λ s job. None };

    ghost gives = { λ s job out. TellsRange C.cmp (key_range s.within) s.split.now
        (map (λ t. t.now.entries) s.tables.now) job out };

    fn work(&self, job: u64) -> Result<bool, Fault> {
        falls_at(self.alloc, self.tables, self.within, self.split, job)
    }
}

/// Whether, for each user key of the range `within`, sequences strictly decrease if the tables are
/// read one after the other.
///
/// Tables that bounds tell apart from each other one aren't walked. Of the others, what `within`
/// has of ranges of about one size is walked by `workers`, each a job.
pub(crate) fn entries_fall<'t, C: SharedComparator + 'static, G: Gate + Sync, R: Threads + Sync>(
    workers: &Workers<'_, R, G>,
    tables: &[&SoundTable<'t, C>],
    within: Range<'_>,
) -> Result<bool, Fault>
    ensures falls { IfOk result (λ falls. (falls ≡ true)
        ↔ AreFallingIn (IsIn C.cmp (key_range within.entry))
        (entries_of_lists (map (λ t. t.now.entries) tables.now))) }
    ensures memory { IfErr result (λ e. e ≡ fault Memory) }
{
    let alloc = workers.alloc();
    let walked = tables_to_walk(alloc, tables)?;
    if walked.is_empty() {
        return Ok(true);
    }
    let split = sampled_split::<C>(alloc, &walked)?;
    walk_falls(workers, &walked, within, &split)
}

/// The same, of all tables. What `within` has of the ranges of the split is walked, each a job.
fn walk_falls<'t, C: SharedComparator + 'static, G: Gate + Sync, R: Threads + Sync>(
    workers: &Workers<'_, R, G>,
    tables: &[&SoundTable<'t, C>],
    within: Range<'_>,
    split: &Split<C>,
) -> Result<bool, Fault>
    ensures falls { IfOk result (λ falls. (falls ≡ true)
        ↔ AreFallingIn (IsIn C.cmp (key_range within.entry))
        (entries_of_lists (map (λ t. t.now.entries) tables.now))) }
    ensures memory { IfErr result (λ e. e ≡ fault Memory) }
{
    let labour = Falls {
        alloc: workers.alloc(),
        tables,
        within,
        split,
    };
    let found = workers.run(&labour, count_ranges(split))?;
    Ok(are_all_true(&found))
}

/// The same as `entries_fall`, of all user keys.
pub(crate) fn all_entries_fall<
    't,
    C: SharedComparator + 'static,
    G: Gate + Sync,
    R: Threads + Sync,
>(workers: &Workers<'_, R, G>, tables: &[&SoundTable<'t, C>]) -> Result<bool, Fault>
    ensures falls { IfOk result (λ falls. (falls ≡ true)
        ↔ AreFalling (entries_of_lists (map (λ t. t.now.entries) tables.now))) }
    ensures memory { IfErr result (λ e. e ≡ fault Memory) }
{
    let all = Range {
        lower: None,
        upper: None,
    };
    entries_fall(workers, tables, all)
}

/// How many ranges a split has.
fn count_ranges<C: Comparator>(split: &Split<C>) -> u64
    ensures number { result ≡ length split.now + 1 }
    ensures few { result ≤ 4096 }
    ensures cover { IsCover C.cmp split.now }
{
    split.len()
}

/// Whether each of them is true.
fn are_all_true(found: &[bool]) -> bool
    ensures { result ≡ list_all (λ b. b) found.now }
{
    found.iter().all(|it| *it)
}

/// Whether the entries of the tables fall in what `within` has of the range of this number.
fn falls_at<'t, C: Comparator + 't>(
    alloc: Global,
    tables: &[&SoundTable<'t, C>],
    within: Range<'_>,
    split: &Split<C>,
    number: u64,
) -> Result<bool, Fault>
    requires { number < length split.now + 1 }
    ensures falls { IfOk result
        (TellsRange C.cmp (key_range within.entry) split.now (map (λ t. t.now.entries) tables.now)
        number) }
    ensures memory { IfErr result (λ e. e ≡ fault Memory) }
{
    let range = common_range::<C>(within, split.range(number));
    let cursors = cursors_from(alloc, tables, range)?;
    Ok(falls_in(alloc, cursors, range)?)
}
