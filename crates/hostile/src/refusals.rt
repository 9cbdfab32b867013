//! What is refused while calls are made: by a library that is loaded before the C library, from
//! `tests/refuse.c`. Without it nothing is.
//!
//! The library is told by requests for more memory than any system grants.

use std::alloc::{AllocError, Global};

/// What is refused from an order on. It ends the order before.
#[derive(Drop)]
pub enum Order {
    Nothing,
    /// The request for memory of this number, the first one being 1.
    Request(u64),
    /// The same of the requests of this thread.
    RequestHere(u64),
    /// Each request by which the program would have this many bytes more than now.
    Bytes(usize),
    /// Each thread from this number on.
    Threads(u64),
}

/// More bytes than a system grants. From here on orders lie 2^40 bytes apart, and a number is added
/// to each.
const NOTHING: usize = 1 << 47;

/// Nothing is refused. But the next request is, if something was since the last such question.
const WAS_REFUSED: usize = NOTHING + (1 << 40);

const REQUEST: usize = NOTHING + (2 << 40);

const REQUEST_HERE: usize = NOTHING + (3 << 40);

const BYTES: usize = NOTHING + (4 << 40);

const THREADS: usize = NOTHING + (5 << 40);

/// Nothing is refused. But the next request is, if the program has another number of bytes than at
/// the last order.
const IS_CHANGED: usize = NOTHING + (6 << 40);

/// A request of this thread ends the program. It ends no order before.
const FORBIDDEN: usize = NOTHING + (7 << 40);

/// The largest number that an order has.
const MOST: usize = (1 << 40) - 1;

/// Whether a request for this many bytes is granted. They are given back.
fn is_granted(alloc: Global, len: usize) -> bool {
    let piece: Result<Vec<u8>, AllocError> = Vec::with_capacity(alloc, len);
    piece.is_ok()
}

/// How many bytes are asked for to give an order.
fn request_of(order: &Order) -> usize {
    match order {
        Order::Nothing => NOTHING,
        Order::Request(number) => REQUEST.saturating_add((*number as usize).min(MOST)),
        Order::RequestHere(number) => REQUEST_HERE.saturating_add((*number as usize).min(MOST)),
        Order::Bytes(number) => BYTES.saturating_add((*number).min(MOST)),
        Order::Threads(number) => THREADS.saturating_add((*number as usize).min(MOST)),
    }
}

/// Gives an order.
pub fn refuse(alloc: Global, order: &Order) {
    let _ = is_granted(alloc, request_of(order));
}

/// Whether something was refused since the last call of this. From here on nothing is.
pub fn was_refused(alloc: Global) -> bool {
    let _ = is_granted(alloc, WAS_REFUSED);
    !is_granted(alloc, 1)
}

/// Whether the program has as many bytes as at the last order. From here on nothing is refused.
pub fn has_as_many(alloc: Global) -> bool {
    let _ = is_granted(alloc, IS_CHANGED);
    is_granted(alloc, 1)
}

/// From here on a request of this thread for memory ends the program.
pub fn forbid(alloc: Global) {
    let _ = is_granted(alloc, FORBIDDEN + 1);
}

/// From here on it doesn't.
pub fn allow(alloc: Global) {
    let _ = is_granted(alloc, FORBIDDEN);
}

/// Whether the library is there.
pub fn is_there(alloc: Global) -> bool {
    refuse(alloc, &Order::Request(1));
    let is_there = !is_granted(alloc, 1);
    was_refused(alloc) && is_there
}
