//! How many workers and jobs a run has at most.

/// The most workers of a run, and so the most seats of a board.
pub const MAX_WORKERS: u64 = 64;

/// The most jobs of a board: 2^40.
pub const MAX_JOBS: u64 = 1 << 40;
