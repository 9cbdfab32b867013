//! The workers of a command that check tables.

use board::Workers;
use std::alloc::Global;

/// How many they are, if a command doesn't say it.
const COUNT: u64 = 4;

/// Four workers, which check the tables of a folder for a command without `--workers`.
pub fn checkers<'r, R, G>(rt: &'r R, alloc: Global, gate: &'r G) -> Workers<'r, R, G> {
    let Ok(workers) = Workers::new(rt, alloc, COUNT, gate) else {
        unreachable!()
    };
    workers
}

/// As many as `--workers` says, or four if that is outside 1 to 64: such a number is refused later.
pub fn checkers_of<'r, R, G>(
    rt: &'r R,
    alloc: Global,
    count: u64,
    gate: &'r G,
) -> Workers<'r, R, G> {
    match Workers::new(rt, alloc, count, gate) {
        Ok(workers) => workers,
        Err(_) => checkers(rt, alloc, gate),
    }
}
