//! The whole of a compaction.

ghost use Rattle.std.specs.Prelude.{◌≡◌, ◌≤◌, map, Ok, IfOk, IfErr};
ghost use Rattle.ikey.specs.Answers.{EqualOrMemory, FailsOrMemory};
ghost use Rattle.split.specs.Boundaries.{IsSplit};
ghost use Rattle.compact.specs.Inputs.{inputs_reading};
ghost use Rattle.compact.specs.OneThread.{Answer, compaction_result, one_thread};
ghost use Rattle.compact.specs.Request.{request_in, request_test};
ghost use Rattle.compact.specs.SurvivingReads.{LeavesReads};
ghost use Rattle.compact.specs.AnswerIn.{answer_in};
ghost use Rattle.compact.specs.MergedRequest.{runs_answer};
ghost use Rattle.board.specs.declared.limits.TheConstants.{MAX_WORKERS};

use crate::inputs::check_inputs;
use crate::merged_request::Merged;
use crate::plan_encoder::Job;
use crate::ranges::merge_ranges;
use crate::request::Request;
use crate::request_law::passed_law;
use crate::surviving_reads::reads_survive;
use crate::workers::check_workers;
use board::Gate;
use cut::ranges_cut;
use edit::Outcome;
use ikey::{Comparator, Fault, SharedComparator};
use keep::{RangeRun, distinct_law};
use split::Split;
use std::alloc::Global;
use std::marker::PhantomData;
use std::thread::Threads;
use table::SoundTable;

/// Compacts by 1 to 64 workers, and answers the tables and the edit. They are what one thread
/// answers, whatever the ranges of the split, the number of workers and the order of their jobs.
///
/// Its workers draw from a board three times: an input a job, a range a job, a data block a job.
/// It checks the tables of the inputs itself. The program calls parts of it instead, after it has
/// checked the inputs, and all tables of the folder unless `--no-verify` is given. A job of its
/// workers encodes a whole table then, by [`cut::Plan::table`]:
///
/// - `compact DIR` calls [`merge_request`] and [`Merged::planned`]. Then it writes each
///   [`crate::Planned::group`] by `install::write_source_group`.
/// - `compact --out` calls [`compact_tables`].
///
/// Reads survive (`LeavesReads`). Premises (`IsOver`):
///
/// - the inputs were picked from a lawful version with files at levels up to 6;
/// - the request has the bytes of their tables, log numbers below 2^64, and a first number at or
///   above the version's next file.
///
/// Then the edit applies, the version after it is lawful with the outputs, and each get at a
/// readable sequence answers as before.
///
/// The first that applies:
///
/// - `Workers`: `workers` is outside 1 to 64.
/// - What `Request::check` refuses.
/// - The fault of the first invalid input, with its place.
/// - `Duplicate`: the inputs have one user key and sequence twice.
/// - `Numbers` or `TooLarge` of the outputs.
///
/// The only other fault is `Memory`.
pub fn compact<'a, C: SharedComparator + 'static, G: Gate + Sync, R: Threads + Sync>(
    rt: &R,
    alloc: Global,
    request: &Request<'a>,
    split: &Split<C>,
    workers: u64,
    gate: &G,
) -> Result<Outcome, Fault>
    ensures same { EqualOrMemory answer_in result
        (compaction_result C.cmp C.short_keys workers (request_in request.now)) }
    ensures leaves_reads { IfOk result
        (λ outcome. LeavesReads C.cmp (request_in request.now) (answer_in outcome)) }
{
    passed_law::<C>();
    check_workers(workers)?;
    request.check::<C>()?;
    let files = &request.picked.files;
    let tables = check_inputs::<C, G, R>(rt, alloc, files, request.tables, workers, gate)?;
    let merged = merge_request(rt, alloc, request, &tables, split, workers, gate)?;
    merged.written(rt, alloc, Job::Block, gate)
}

/// Compacts tables that are checked already, those of the request's inputs in their order: just
/// what [`compact`] answers. It checks no table again, and a job of its workers encodes a whole
/// table: the call of `compact --out`.
///
/// The first that applies:
///
/// - `Workers`: `workers` is outside 1 to 64.
/// - What `Request::check` refuses.
/// - `Duplicate`: the tables have one user key and sequence twice.
/// - `Numbers` or `TooLarge` of the outputs.
///
/// The only other fault is `Memory`.
pub fn compact_tables<'t, C: SharedComparator + 'static, G: Gate + Sync, R: Threads + Sync>(
    rt: &R,
    alloc: Global,
    request: &Request<'_>,
    tables: &[SoundTable<'t, C>],
    split: &Split<C>,
    workers: u64,
    gate: &G,
) -> Result<Outcome, Fault>
    requires read { inputs_reading C.cmp 0 request.now.picked.now.files.items
        (map (λ t. t.now) request.now.tables.now)
        ≡ Ok (map (λ t. t.entries) tables.now) }
    ensures same { EqualOrMemory answer_in result
        (compaction_result C.cmp C.short_keys workers (request_in request.now)) }
    ensures leaves_reads { IfOk result
        (λ outcome. LeavesReads C.cmp (request_in request.now) (answer_in outcome)) }
{
    let merged = merge_request(rt, alloc, request, tables, split, workers, gate)?;
    merged.written(rt, alloc, Job::Table, gate)
}

/// Merges tables that are checked already, those of the request's inputs in their order, by 1 to 64
/// workers. What is merged answers as [`compact_tables`]: [`Merged::planned`] plans its outputs, so
/// that the tables can be written group by group.
///
/// The first that applies:
///
/// - `Workers`: `workers` is outside 1 to 64.
/// - What `Request::check` refuses.
/// - `Duplicate`: the tables have one user key and sequence twice.
///
/// The only other fault is `Memory`.
pub fn merge_request<'q, 't, C: SharedComparator + 'static, G: Gate + Sync, R: Threads + Sync>(
    rt: &R,
    alloc: Global,
    request: &'q Request<'_>,
    tables: &[SoundTable<'t, C>],
    split: &Split<C>,
    workers: u64,
    gate: &G,
) -> Result<Merged<'q, 't, C>, Fault>
    requires read { inputs_reading C.cmp 0 request.now.picked.now.files.items
        (map (λ t. t.now) request.now.tables.now)
        ≡ Ok (map (λ t. t.entries) tables.now) }
    ensures merged { IfOk result (λ merged. merged
        ≡ compaction_result C.cmp C.short_keys workers (request_in request.now)) }
    ensures refused { IfErr result (λ e. FailsOrMemory e
        (compaction_result C.cmp C.short_keys workers (request_in request.now))) }
    ensures leaves_reads { IfOk result (λ merged. (answer : Answer) → merged ≡ Ok answer →
        LeavesReads C.cmp (request_in request.now) answer) }
{
    reads_survive::<C>();
    passed_law::<C>();
    check_workers(workers)?;
    request.check::<C>()?;
    let runs = merge_tested(rt, alloc, request, tables, split, workers, gate)?;
    Ok(Merged {
        request,
        runs,
        workers,
        order: PhantomData,
    })
}

/// Merges the tables of a request that passed its tests.
fn merge_tested<'t, C: SharedComparator + 'static, G: Gate + Sync, R: Threads + Sync>(
    rt: &R,
    alloc: Global,
    request: &Request<'_>,
    tables: &[SoundTable<'t, C>],
    split: &Split<C>,
    workers: u64,
    gate: &G,
) -> Result<Vec<RangeRun<'t>>, Fault>
    requires some { 1 ≤ workers }
    requires limited { workers ≤ MAX_WORKERS }
    requires tested { request_test C.cmp (request_in request.now) ≡ Ok tt }
    requires read { inputs_reading C.cmp 0 request.now.picked.now.files.items
        (map (λ t. t.now) request.now.tables.now)
        ≡ Ok (map (λ t. t.entries) tables.now) }
    ensures merged { IfOk result (λ runs. one_thread C.cmp C.short_keys (request_in request.now)
        ≡ runs_answer C.cmp C.short_keys (request_in request.now) runs.items) }
    ensures refused { IfErr result (λ e. FailsOrMemory e
        (one_thread C.cmp C.short_keys (request_in request.now))) }
{
    distinct_law::<C>();
    ranges_cut::<C>();
    passed_law::<C>();
    split_law(split);
    let inputs = request.picked;
    let listed = request.snapshots.listed();
    let floor = request.snapshots.floor(request.last_sequence);
    merge_ranges(
        rt, alloc, tables, split, listed, floor, inputs, workers, gate,
    )
}

/// The boundaries of a split rise. A call does nothing.
fn split_law<C: Comparator>(split: &Split<C>)
    ensures { IsSplit C.cmp split.now }
{
    let _ = split.len();
}
