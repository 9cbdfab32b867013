//! Calls for C: parts of one compaction inside anybody's store. `sedvokt.h` declares them, and
//! `sedvokt.c` has each as a test of its pointers and a call of the one that is here.
//!
//! 1. [`proved_check_request`] tests a request without its tables, [`proved_check_closed`] the
//!    choice of its inputs, and [`proved_check_table`] each input.
//! 2. [`proved_merge`] merges the inputs in a range of user keys.
//! 3. [`proved_plan`] tells where the outputs of the runs of all ranges end.
//! 4. [`proved_output`] writes the table of given entries, and [`proved_edit`] the version edit.
//!
//! A call keeps nothing. Only the merge and the boundaries require anything: that the inputs were
//! checked. What C hands over are numbers, bytes, and structs of these ([`Lent`], [`LentRuns`]): a
//! [`Place`] names a part of lent bytes.
//! Each call first tests that all places are within what is lent (`MISUSE`). Then it builds the
//! values of the crates below, asks them, and answers a number: 0, or the number of a fault. What
//! its clause says is said of the places' bytes, so the specs have a definition for each struct
//! (`meta_at`, `entry_at`).
//!
//! A run is told in three arrays (`arrays_of`): the bytes of its entries, how long their keys and
//! values are, and its marks. The host hands it back in its places ([`RunPlaces`]) of three arrays
//! that hold the runs of all ranges (`run_at`).
//!
//! [`calls_law`] is the law that a host which makes these calls has at the end what one thread
//! answers; [`host_law`] is the part of it that is about the merges of the ranges. By
//! [`calls_keep_reads`] the reads of the host's version survive.
#![tactic(auto)]

mod boundary_calls;
mod closed_calls;
mod code;
mod edit_calls;
mod file;
mod host_laws;
mod input;
mod input_tables;
mod key_arrays;
mod lent;
mod merge_calls;
mod order;
mod output_calls;
mod picked;
mod place;
mod plan_calls;
mod range_run;
mod request;
mod request_calls;
mod room;
mod run_arrays;
mod run_entries;
mod run_places;
#[cfg(test)]
mod run_tests;
mod table_calls;
#[cfg(test)]
mod tests;
mod told_run;
mod user_range;

pub use boundary_calls::proved_boundaries;
pub use closed_calls::{FilePlace, proved_check_closed};
pub use code::{DONE, MEMORY, MISUSE, OPEN_INPUTS, ROOM};
pub use edit_calls::{Numbers, proved_edit};
pub use file::File;
pub use host_laws::{calls_keep_reads, calls_law, host_law};
pub use input::{Counts, Input};
pub use key_arrays::KeysSize;
pub use lent::Lent;
pub use merge_calls::proved_merge;
pub use order::{BYTEWISE, SHORTLEX};
pub use output_calls::{Entry, proved_output};
pub use place::Place;
pub use plan_calls::{LentRuns, PlannedOutput, proved_plan};
pub use request::HostRequest;
pub use request_calls::proved_check_request;
pub use run_arrays::{EntryLengths, RunMark, RunSize};
pub use run_places::{LentArrays, RunPlaces};
pub use table_calls::proved_check_table;
pub use user_range::UserRange;
