//! A compaction: what it is asked for, what one thread answers, and the call that answers the same
//! with workers that steal jobs of a board.
//!
//! A [`Request`] names the inputs, the bytes of their tables, the sequences that stay readable, the
//! counters of the edit, and the options of the outputs. [`Request::check`] tests it, in a fixed
//! order; [`Request::edit`] makes the version edit of its outputs. The definition `one_thread` says
//! what one thread answers: the first refusal, or the outputs' tables and the bytes of the edit. It
//! knows neither ranges nor workers.
//!
//! [`compact`] answers that, whatever the workers and the order of their jobs, in three phases:
//!
//! 1. [`check_inputs`] checks the inputs, a table a job.
//! 2. [`merge_ranges`] merges them, a range of user keys a job. Then one thread plans the outputs.
//! 3. The data blocks of the plan are encoded, a block a job, and joined to tables.
//!
//! [`compact_tables`] merges tables that are checked already, and encodes a table a job.
//! [`merge_request`] only merges, and [`Merged::planned`] plans the outputs. The tables of
//! [`Planned`] are then encoded group by group, so that they needn't all be in memory.
//!
//! [`Settings`] has what a compaction of a folder is asked to keep to, as a command line or a
//! caller says. [`reads_survive`] and the laws beside it (`surviving_reads.rt`) say what survives:
//! the version after is lawful, and each get at a sequence that stays readable answers as before.
#![tactic(auto)]

mod block_encoder;
mod closure;
mod compaction;
mod edit_bytes;
mod grouped_plan;
mod inputs;
mod merged_request;
mod outputs_edit;
mod plan_encoder;
mod ranges;
mod request;
mod request_conditions;
mod request_law;
mod settings;
mod surviving_reads;
mod table_encoder;
mod workers;

pub use closure::{
    closed_choice, closed_inputs, first_alone_is_not_closed, inputs_stand_together, picked_choice,
};
pub use compaction::{compact, compact_tables, merge_request};
pub use cut::Plan;
pub use edit::{DeletedFile, Outcome};
pub use grouped_plan::{MAX_TABLES, Planned};
pub use inputs::{check_inputs, matches_metadata};
pub use keep::Snapshots;
pub use merged_request::Merged;
pub use outputs_edit::deletions_of;
pub use ranges::merge_ranges;
pub use request::Request;
pub use request_conditions::{MAX_INPUTS, MAX_SNAPSHOTS};
pub use request_law::passed_law;
pub use settings::Settings;
pub use surviving_reads::{
    closed_reads_survive, edit_applies, gets_after, kept_reads_survive, outputs_hold,
    reads_survive, stands_after,
};
pub use table::Options;
