//! All jobs of a labour, done by several workers.

ghost use Rattle.std.specs.Prelude.{◌≡◌, ◌⊎◌, ◌↔◌, ◌<◌, ◌≤◌, ℕ, [], None, Err, IfOk, IfErr};
ghost use Rattle.std.specs.Prelude.{All, replicate, vec_len, vec_capacity};
ghost use Rattle.coding.specs.declared.fault.Fault.{Fault};
ghost use Rattle.board.specs.declared.pool.RunFault.{RunFault};
ghost use Rattle.board.specs.RunAnswer.{AreResults, IsRefused};
ghost use Rattle.board.specs.Seats.{IsUnused};
ghost use Rattle.board.specs.WorkerResult.{IsShift, IsFiled};
ghost use Rattle.board.specs.declared.limits.TheConstants.{MAX_JOBS, MAX_WORKERS};

use crate::board::Board;
use crate::labour::{Gate, Labour};
use crate::places::{place, take_all};
use crate::seat::Seat;
use crate::shift::Shift;
use crate::worker::{least_of, serve};
use crate::workers::Workers;
use coding::{Fault, FaultName};
use std::alloc::{AllocError, Global};
use std::thread;
use std::thread::Threads;

/// Why a run has no results.
#[derive(Clone, Copy, PartialEq, Eq)]
pub enum RunFault {
    /// A job that failed, with its fault: `Memory`, or the one that the labour states of it. Each
    /// job before it has a result.
    Job { job: u64, fault: Fault },
    /// The number of workers is outside 1 to 64.
    Workers,
    /// There was no memory for the seats or the results.
    Memory,
}

/// Does the jobs below `jobs` of `labour` by 1 to 64 `workers`, and answers their results in order.
/// There are at most 2^40 jobs.
///
/// - Workers draw jobs from one board, and skip those above a job that has failed.
/// - Each worker calls `gate` around each job that it draws.
/// - Memory for all results is taken before a worker starts. If a thread can't be started, workers
///   run one after the other.
///
/// Faults:
///
/// - `Job`: the least job that failed. A worker without memory for a result fails that job with
///   `Memory`.
/// - `Workers`: exactly if `workers` is outside 1 to 64.
/// - `Memory`: there was no memory for the seats or the results.
pub fn run<L: Labour + Sync, G: Gate + Sync, R: Threads + Sync>(
    rt: &R,
    alloc: Global,
    labour: &L,
    jobs: u64,
    workers: u64,
    gate: &G,
) -> Result<Vec<L::Out>, RunFault>
where
    L::Out: Drop + Send,
    requires few { jobs ≤ MAX_JOBS }
    requires within { jobs ≤ L.jobs labour.now }
    ensures ok { IfOk result
        (λ v. AreResults (L.refusal labour.now) (L.gives labour.now) jobs v.items) }
    ensures workers { (result ≡ Err RunFault.Workers) ↔ ((workers ≡ 0) ⊎ (MAX_WORKERS < workers)) }
    ensures refused { (job : ℕ) (fault : Fault) → result ≡ Err (RunFault.Job job fault)
        → IsRefused (L.refusal labour.now) (L.gives labour.now) jobs job fault }
{
    let Ok(workers) = Workers::new(rt, alloc, workers, gate) else {
        return Err(RunFault::Workers);
    };
    workers.run(labour, jobs)
}

impl From<RunFault> for Fault {
    ghost use Rattle.std.specs.Prelude.{◌≡◌};
    ghost use Rattle.board.specs.RunAnswer.{fault_of_run};

    ghost from_gives = { λ why e. e ≡ fault_of_run why };

    fn from(why: RunFault) -> Fault {
        match why {
            RunFault::Job { job: _, fault } => fault,
            RunFault::Workers => Fault::of(FaultName::Workers),
            RunFault::Memory => Fault::of(FaultName::Memory),
        }
    }
}

/// The results of all jobs, or the least job that failed.
pub(crate) fn run_board<L: Labour + Sync, G: Gate + Sync, R: Threads + Sync>(
    workers: &Workers<'_, R, G>,
    labour: &L,
    board: Board,
    jobs: u64,
    seats: Vec<Seat>,
) -> Result<Result<Vec<L::Out>, (u64, Fault)>, AllocError>
where
    L::Out: Drop + Send,
    requires jobs { (board.jobs ≡ jobs) × (jobs ≤ MAX_JOBS) }
    requires within { jobs ≤ L.jobs labour.now }
    requires seats { All (IsUnused board) seats.items × (vec_len seats ≡ board.seats)
        × (0 < board.seats) }
    ensures ok { IfOk result (λ o. IfOk o (λ v.
        AreResults (L.refusal labour.now) (L.gives labour.now) jobs v.items)) }
    ensures refused { IfOk result (λ o. IfErr o (λ r.
        IsRefused (L.refusal labour.now) (L.gives labour.now) jobs r.0 r.1)) }
{
    let alloc = workers.alloc();
    let mut places = no_results(alloc, jobs as usize)?;
    let results = Vec::with_capacity(alloc, jobs as usize)?;
    let mut back = Vec::with_capacity(alloc, seats.len())?;
    let shifts = work_all(workers, &board, labour, seats)?;
    let refused = file_all(labour, &board, shifts, &mut places, &mut back);
    let _tally = board.close(back);
    match refused {
        Some(refused) => Ok(Err(refused)),
        None => Ok(Ok(take_all(labour, places, results))),
    }
}

// `count` places without a result.
fn no_results<T: Drop>(alloc: Global, count: usize) -> Result<Vec<Option<T>>, AllocError>
    ensures { IfOk result (λ v. v.items ≡ replicate count None) }
{
    let mut places = Vec::with_capacity(alloc, count)?;
    while places.len() < count {
        places.push_reserved(None);
    }
    Ok(places)
}

// Takes in what each worker left: its results, its seat, and the least job that it failed.
fn file_all<L: Labour>(
    labour: &L,
    board: &Board,
    mut shifts: Vec<Shift<L::Out>>,
    places: &mut Vec<Option<L::Out>>,
    seats: &mut Vec<Seat>,
) -> Option<(u64, Fault)>
where
    L::Out: Drop,
    requires shifts { All (IsShift (L.refusal labour.now) (L.gives labour.now) board.now)
        shifts.items }
    requires places { IsFiled (L.refusal labour.now) (L.gives labour.now) board.now
        seats.old.items places.old.items None }
    requires room { (seats.old.items ≡ []) × (vec_len shifts ≤ vec_capacity seats.old) }
    ensures filed { IsFiled (L.refusal labour.now) (L.gives labour.now) board.now
        seats.new.items places.new.items result }
    ensures len { vec_len seats.new ≡ vec_len shifts }
{
    let mut refused = None;
    while let Some(shift) = shifts.pop() {
        let Shift {
            seat,
            results,
            refused: least,
        } = shift;
        place(labour, places, results);
        refused = least_of(refused, least);
        seats.push_reserved(seat);
    }
    shifts.destroy_empty();
    refused
}

// Each seat is given to a worker.
fn work_all<L: Labour + Sync, G: Gate + Sync, R: Threads + Sync>(
    workers: &Workers<'_, R, G>,
    board: &Board,
    labour: &L,
    seats: Vec<Seat>,
) -> Result<Vec<Shift<L::Out>>, AllocError>
where
    L::Out: Drop + Send,
    requires seats { All (IsUnused board.now) seats.items }
    requires within { board.now.jobs ≤ L.jobs labour.now }
    ensures shifts { IfOk result (λ v.
        All (IsShift (L.refusal labour.now) (L.gives labour.now) board.now) v.items) }
    ensures len { IfOk result (λ v. vec_len v ≡ vec_len seats) }
{
    let alloc = workers.alloc();
    let gate = workers.gate();
    thread::map_vec(
        workers.threads(),
        seats,
        &|seat| serve(board, labour, gate, alloc, seat),
    )
}
