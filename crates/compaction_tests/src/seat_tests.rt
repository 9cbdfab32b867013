//! What no clause says of seats: which one draws what, that two threads draw, and that calls
//! succeed.

ghost use Rattle.std.specs.Prelude.{◌≡◌, All, IfSome};

use board::{Board, Seat, Tally};
use std::alloc::Global;
use std::test::*;
use std::thread;
use std::thread::Threads;

/// The last seat, if one is left.
fn take_last(board: &Board, seats: &mut Vec<Seat>) -> Option<Seat>
    requires { All (λ p. p.board ≡ board.now) seats.old.items }
    ensures seat { IfSome result (λ p. p.board ≡ board.now) }
    ensures rest { All (λ p. p.board ≡ board.now) seats.new.items }
{
    seats.pop()
}

/// Puts a seat after the others, if there is memory for it.
fn put_back(board: &Board, seats: &mut Vec<Seat>, seat: Seat)
    requires { All (λ p. p.board ≡ board.now) seats.old.items × (seat.board ≡ board.now) }
    ensures { All (λ p. p.board ≡ board.now) seats.new.items }
{
    let _ = board;
    let _pushed = seats.push(seat);
}

/// Whether a seat draws these jobs in this order, and then none.
fn draws(board: &Board, mut seat: Seat, numbers: &[u64]) -> bool
    requires { seat.board ≡ board.now }
{
    for number in numbers {
        let Some(job) = board.draw(&mut seat) else {
            return false;
        };
        let is_next = job.number() == *number;
        board.done(&mut seat, job);
        if !is_next {
            return false;
        }
    }
    let Some(job) = board.draw(&mut seat) else {
        return true;
    };
    board.done(&mut seat, job);
    false
}

/// Whether the seat `at` does. The seats are in the order of their numbers.
fn draws_at(board: &Board, mut made: Vec<Seat>, at: u64, numbers: &[u64]) -> bool
    requires { All (λ p. p.board ≡ board.now) made.items }
{
    for _ in 0..64 {
        let Some(seat) = take_last(board, &mut made) else {
            return false;
        };
        if made.len() as u64 == at {
            return draws(board, seat, numbers);
        }
    }
    false
}

/// A seat that draws alone: the jobs and seats of its board, its number, and what it draws.
struct Drawn {
    name: &'static str,
    jobs: u8,
    seats: u64,
    at: u64,
    numbers: &'static [u64],
}

const DRAWN: &[Drawn] = &[
    Drawn {
        name: "the first of two, of five jobs",
        jobs: 5,
        seats: 2,
        at: 0,
        numbers: &[0, 2, 4, 1, 3],
    },
    Drawn {
        name: "the second of two, of five jobs",
        jobs: 5,
        seats: 2,
        at: 1,
        numbers: &[1, 3, 0, 2, 4],
    },
    Drawn {
        name: "the first of 64, of three jobs",
        jobs: 3,
        seats: 64,
        at: 0,
        numbers: &[0, 1, 2],
    },
    Drawn {
        name: "seat 22 of 64, of three jobs",
        jobs: 3,
        seats: 64,
        at: 22,
        numbers: &[0, 1, 2],
    },
    Drawn {
        name: "a lone one, of no jobs",
        jobs: 0,
        seats: 1,
        at: 0,
        numbers: &[],
    },
];

/// Whether a seat draws so if no other draws.
fn draws_alone(alloc: Global, row: &Drawn) -> bool {
    match Board::new(alloc, u64::from(row.jobs), row.seats) {
        Ok((board, made)) => draws_at(&board, made, row.at, row.numbers),
        Err(_) => false,
    }
}

/// Whether a seat draws job 3 and fails it, and another one sees that too.
fn is_seen(board: &Board, seat: &mut Seat, other: &mut Seat) -> bool
    requires { (seat.old.board ≡ board.now) × (other.old.board ≡ board.now) }
{
    if board.least_fault(other).is_some() {
        return false;
    }
    let Some(job) = board.draw(seat) else {
        return false;
    };
    let is_third = job.number() == 3;
    board.fail(seat, job);
    is_third && board.least_fault(seat) == Some(3) && board.least_fault(other) == Some(3)
}

/// Whether the last of a board's seats sees that the one before it fails job 3.
fn is_seen_by_last(board: &Board, seats: &mut Vec<Seat>) -> bool
    requires { All (λ p. p.board ≡ board.now) seats.old.items }
{
    let Some(mut last) = take_last(board, seats) else {
        return false;
    };
    let Some(mut before) = take_last(board, seats) else {
        return false;
    };
    is_seen(board, &mut before, &mut last)
}

/// Whether the last of five seats sees it. Job 3 is in the share of the one before it.
fn is_failure_seen(alloc: Global) -> bool {
    match Board::new(alloc, 5, 5) {
        Ok((board, mut seats)) => is_seen_by_last(&board, &mut seats),
        Err(_) => false,
    }
}

/// Draws and spends jobs until there is none.
fn spend_all(board: &Board, mut seat: Seat) -> Seat
    requires { seat.board ≡ board.now }
    ensures { result.board ≡ board.now }
{
    while let Some(job) = board.draw(&mut seat) {
        board.done(&mut seat, job);
    }
    seat
}

/// Does so at two seats, by two threads.
fn spend_by_two<R: Threads>(rt: &R, board: &Board, first: Seat, second: Seat) -> (Seat, Seat)
    requires { (first.board ≡ board.now) × (second.board ≡ board.now) }
    ensures { (result.0.board ≡ board.now) × (result.1.board ≡ board.now) }
{
    thread::join(
        rt,
        || -> Seat
            requires { first.board ≡ board.now }
            ensures { result.board ≡ board.entry.now }
        { spend_all(board, first) },
        || -> Seat
            requires { second.board ≡ board.now }
            ensures { result.board ≡ board.entry.now }
        { spend_all(board, second) },
    )
}

/// Does so at the last two seats.
fn spend_at_two<R: Threads>(rt: &R, board: &Board, seats: &mut Vec<Seat>)
    requires { All (λ p. p.board ≡ board.now) seats.old.items }
    ensures { All (λ p. p.board ≡ board.now) seats.new.items }
{
    let Some(second) = take_last(board, seats) else {
        return;
    };
    let Some(first) = take_last(board, seats) else {
        return;
    };
    let (first, second) = spend_by_two(rt, board, first, second);
    put_back(board, seats, first);
    put_back(board, seats, second);
}

/// The counts after each of ten thousand jobs was spent.
const SPENT: Tally = Tally {
    done: 10_000,
    failed: 0,
    skipped: 0,
    least: None,
};

/// Whether two threads draw each of ten thousand jobs once.
fn are_spent<R: Threads>(rt: &R, alloc: Global) -> bool {
    match Board::new(alloc, 10_000, 2) {
        Ok((board, mut seats)) => {
            spend_at_two(rt, &board, &mut seats);
            board.close(seats) == SPENT
        }
        Err(_) => false,
    }
}

#[test]
fn seats_draw_each_job_once(rt: HostRuntime) {
    for row in DRAWN {
        assert!(rt; draws_alone(rt.alloc(), row), "{}", row.name);
    }
    assert!(rt; is_failure_seen(rt.alloc()));
    assert!(rt; are_spent(&rt, rt.alloc()));
}
