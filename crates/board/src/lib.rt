//! A board of numbered jobs. Seats in several threads draw them, each job once, without a lock.
//!
//! [`run`] does all jobs of a [`Labour`] by several workers and answers their results in order.
//! [`Workers`] are the same as a value, which is made once and handed on. Both use the calls of
//! [`Board`], which can be used by themselves:
//!
//! 1. `new` makes a board and its seats.
//! 2. `draw` gives a seat its next job; `done`, `fail` or `skip` spends it. `least_fault` looks at
//!    the least job that failed.
//! 3. `close` ends the board and counts.
//!
//! Each step on what seats share is one atomic claim, settle or look. A rule over all of them holds
//! between any two steps. So what contracts say holds over every schedule.
//!
//! Words of this crate:
//!
//! - A *seat* is a worker's place, a *share* the jobs that it draws first. When its share is empty,
//!   it draws from the next one in turn, round all of them.
//! - A *claim* draws a job of a share. A *settle* notes that a job failed, and a *look* reads the
//!   least that did.
//! - A *view* is what contracts see of what was done at a seat, and its *trail* lists the jobs.
//! - A *shift* is what a worker leaves: its seat, its results, and the least job that it failed. A
//!   *tally* counts what was done at all seats of a closed board.
//!
//! A [`Watch`] is a gate that is told to which long work on a folder its jobs belong.
//!
//! Not stated: which seat draws what, that a thread runs or how many do, and what the gate is told.
//! Nor which fault comes if one job fails by `Memory` and another by name. That a run answers
//! `collected_results` of its answers is proved by its callers.
#![tactic(auto)]

mod board;
mod closing;
mod gathered;
mod job;
mod labour;
mod limits;
mod places;
mod pool;
mod rule;
mod seat;
mod shift;
mod tally;
mod trail;
mod watch;
mod worker;
mod workers;

pub use crate::board::Board;
pub use job::Job;
pub use labour::{Gate, Labour, Open};
pub use limits::{MAX_JOBS, MAX_WORKERS};
pub use pool::{RunFault, run};
pub use seat::Seat;
pub use tally::Tally;
pub use watch::{Watch, Work};
pub use workers::Workers;
