//! The calls on a board.

ghost use Rattle.std.specs.Prelude.{◌≡◌, All, IfSome};

use board::{Board, Seat, Tally};

/// The last seat of a board, if one is left.
fn last_seat(board: &Board, seats: &mut Vec<Seat>) -> Option<Seat>
    requires { All (λ p. p.board ≡ board.now) seats.old.items }
    ensures seat { IfSome result (λ p. p.board ≡ board.now) }
    ensures rest { All (λ p. p.board ≡ board.now) seats.new.items }
{
    seats.pop()
}

/// Puts a seat after the others, if there is memory for it.
fn put_back(board: &Board, seats: &mut Vec<Seat>, seat: Seat)
    requires { All (λ p. p.board ≡ board.now) seats.old.items × (seat.board ≡ board.now) }
    ensures { All (λ p. p.board ≡ board.now) seats.new.items }
{
    let _ = board;
    let _pushed = seats.push(seat);
}

/// Draws a job and fails it. Whether it has this `number`, and is the least that failed.
fn is_failed(board: &Board, seat: &mut Seat, number: u64) -> bool
    requires { seat.old.board ≡ board.now }
    ensures { seat.new.board ≡ board.now }
{
    let Some(job) = board.draw(seat) else {
        return false;
    };
    let is_drawn = job.number() == number;
    board.fail(seat, job);
    is_drawn && board.least_fault(seat) == Some(number)
}

/// Draws a job. Whether it has this `number`, and comes back from `skip` as `comes_back` says. If
/// it does, it is done.
fn is_drawn(board: &Board, seat: &mut Seat, number: u64, comes_back: bool) -> bool
    requires { seat.old.board ≡ board.now }
    ensures { seat.new.board ≡ board.now }
{
    let Some(job) = board.draw(seat) else {
        return false;
    };
    let is_right = job.number() == number;
    let Some(job) = board.skip(seat, job) else {
        return is_right && !comes_back;
    };
    board.done(seat, job);
    is_right && comes_back
}

/// Draws jobs 4, 0, 1 and 2. The first is skipped.
fn are_drawn(board: &Board, seat: &mut Seat) -> bool
    requires { seat.old.board ≡ board.now }
    ensures { seat.new.board ≡ board.now }
{
    is_drawn(board, seat, 4, false)
        && is_drawn(board, seat, 0, true)
        && is_drawn(board, seat, 1, true)
        && is_drawn(board, seat, 2, true)
}

/// On a board of five jobs and five seats, seat 3 fails job 3, and then seat 4 draws the others.
pub fn are_worked(board: &Board, seats: &mut Vec<Seat>) -> bool
    requires { All (λ p. p.board ≡ board.now) seats.old.items }
    ensures { All (λ p. p.board ≡ board.now) seats.new.items }
{
    let Some(mut last) = last_seat(board, seats) else {
        return false;
    };
    let Some(mut before) = last_seat(board, seats) else {
        return false;
    };
    let is_right = is_failed(board, &mut before, 3) && are_drawn(board, &mut last);
    put_back(board, seats, before);
    put_back(board, seats, last);
    is_right
}

/// Closes that board: jobs 0, 1 and 2 are done, 3 has failed, and 4 was skipped.
pub fn is_closed(board: Board, seats: Vec<Seat>) -> bool
    requires { All (λ p. p.board ≡ board) seats.items }
{
    let tally = Tally {
        done: 3,
        failed: 1,
        skipped: 1,
        least: Some(3),
    };
    board.close(seats) == tally
}
