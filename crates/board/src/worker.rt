//! What a worker does.

ghost use Rattle.std.specs.Prelude.{◌≤◌, ℕ, List, ◌++◌, Option};
ghost use Rattle.coding.specs.declared.fault.Fault.{Fault};
ghost use Rattle.board.specs.RunAnswer.{IsFaultOf};
ghost use Rattle.board.specs.Seats.{IsUnused};
ghost use Rattle.board.specs.WorkerResult.{HasDrawn, HasSpent, IsShift, IsLeastFailed};

use crate::board::Board;
use crate::job::Job;
use crate::labour::{Gate, Labour};
use crate::seat::Seat;
use crate::shift::Shift;
use coding::{Fault, FaultName};
use std::alloc::Global;

/// Draws jobs until there is none, and does each of them.
pub(crate) fn serve<L: Labour, G: Gate>(
    board: &Board,
    labour: &L,
    gate: &G,
    alloc: Global,
    seat: Seat,
) -> Shift<L::Out>
where
    L::Out: Drop,
    requires seat { IsUnused board.now seat }
    requires within { board.now.jobs ≤ L.jobs labour.now }
    ensures { IsShift (L.refusal labour.now) (L.gives labour.now) board.now result }
{
    let mut shift = Shift {
        seat,
        results: Vec::new(alloc),
        refused: None,
    };
    while let Some(job) = board.draw(&mut shift.seat) {
        serve_job(board, labour, gate, &mut shift, job);
    }
    shift
}

// Does one job, and calls the gate before and after it.
fn serve_job<L: Labour, G: Gate>(
    board: &Board,
    labour: &L,
    gate: &G,
    shift: &mut Shift<L::Out>,
    job: Job,
)
where
    L::Out: Drop,
    requires drawn { HasDrawn (L.refusal labour.now) (L.gives labour.now)
        board.now job shift.old }
    requires within { board.now.jobs ≤ L.jobs labour.now }
    ensures { HasSpent (L.refusal labour.now) (L.gives labour.now) board.now shift.old shift.new }
{
    let number = job.number();
    let seat = shift.seat.number();
    gate.pass(seat, number);
    work_unless_skipped(board, labour, shift, job);
    gate.left(seat, number);
}

// Does one job, unless it is skipped.
fn work_unless_skipped<L: Labour>(board: &Board, labour: &L, shift: &mut Shift<L::Out>, job: Job)
where
    L::Out: Drop,
    requires drawn { HasDrawn (L.refusal labour.now) (L.gives labour.now)
        board.now job shift.old }
    requires within { board.now.jobs ≤ L.jobs labour.now }
    ensures { HasSpent (L.refusal labour.now) (L.gives labour.now) board.now shift.old shift.new }
{
    let Some(job) = board.skip(&mut shift.seat, job) else {
        return;
    };
    let number = job.number();
    let out = match labour.work(number) {
        Ok(out) => out,
        Err(fault) => {
            refuse(board, labour, shift, job, fault);
            return;
        }
    };
    let Ok(()) = shift.results.push((number, out)) else {
        refuse(board, labour, shift, job, Fault::of(FaultName::Memory));
        return;
    };
    board.done(&mut shift.seat, job);
}

// Fails a job with its fault.
fn refuse<L: Labour>(board: &Board, labour: &L, shift: &mut Shift<L::Out>, job: Job, fault: Fault)
where
    L::Out: Drop,
    requires drawn { HasDrawn (L.refusal labour.now) (L.gives labour.now)
        board.now job shift.old }
    requires fault { IsFaultOf (L.refusal labour.now) job fault }
    ensures { HasSpent (L.refusal labour.now) (L.gives labour.now) board.now shift.old shift.new }
{
    let _ = labour;
    let refused = Some((job.number(), fault));
    shift.refused = least_of(shift.refused, refused);
    board.fail(&mut shift.seat, job);
}

// The lesser of two jobs that failed, each the least of some.
pub(crate) fn least_of(
    one: Option<(u64, Fault)>,
    other: Option<(u64, Fault)>,
) -> Option<(u64, Fault)>
    ensures { (refusal : ℕ → Option Fault) (xs ys : List ℕ)
        → IsLeastFailed refusal xs one → IsLeastFailed refusal ys other
        → IsLeastFailed refusal (xs ++ ys) result }
{
    let Some((job, fault)) = one else {
        return other;
    };
    let Some((next, reason)) = other else {
        return Some((job, fault));
    };
    if job <= next {
        return Some((job, fault));
    }
    Some((next, reason))
}
