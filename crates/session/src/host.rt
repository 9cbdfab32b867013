//! What commands ask of the system that they run on.

use disk::{MakesFiles, SystemFiles, WholeFiles};
use std::thread::Threads;
use std::time::Clock;

/// Files, threads, streams and a clock.
pub trait Host: SystemFiles
    + MakesFiles
    + WholeFiles
    + Print
    + Eprint
    + Clock
    + AllocGlobal
    + Threads
    + Sync {}

impl<R> Host for R
where
    R: SystemFiles
        + MakesFiles
        + WholeFiles
        + Print
        + Eprint
        + Clock
        + AllocGlobal
        + Threads
        + Sync,
{}
