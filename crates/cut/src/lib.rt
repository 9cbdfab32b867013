//! Where the outputs of a compaction end, and their bytes.
//!
//! 1. [`plan`] takes the runs of all ranges, and answers a [`Plan`]: each output, its data blocks
//!    and the exact length of its table, before a byte is written. It doesn't depend on how the
//!    entries were dealt out to ranges.
//! 2. [`Plan::output`] tells of an output what its entry in the edit needs, [`Plan::block`] the
//!    entries of its data blocks, and [`Plan::block_end`] where they end.
//! 3. [`Plan::jobs`] is the number of data blocks of all outputs, and [`Plan::encode`] encodes one.
//!    Any thread may encode any block.
//! 4. [`Plan::assemble`] joins the blocks, in the order of their numbers, to tables.
//!    [`Plan::table`] makes one whole table at once.
//!
//! [`Plan::groups`] deals the outputs out to plans of a few, so that not all tables are in memory
//! at once.
//!
//! So the bytes of a compaction depend on neither ranges nor workers. The laws of this crate say it
//! over the definitions: [`whole_law`], [`outputs_law`], [`ranges_cut`] and others.
//!
//! The kept entries are one list. An [`EntryCursor`] is a place in it, an [`EntrySpan`] grows entry
//! by entry, and an [`EntryRef`] is entries that stay as they are. An [`EntryWalk`] walks them by
//! chunks. Keys and values stay where the runs have them, and no call of these four takes memory. A
//! `PlannedBlock` is a data block of which no byte is written yet:
//!
//! ```text
//! data block 1 .. data block n    each with its trailer: encode_block, or encode_blocks
//! metaindex, index, footer        close_table
//! ```
//!
//! No contract says how much memory a plan takes.
#![tactic(auto)]

mod block_numbers;
mod block_summary;
mod block_writer;
mod cursor;
mod data_blocks;
mod entry_ref;
mod entry_span;
mod open_block;
mod open_output;
mod output_cuts;
mod output_laws;
mod output_meta;
mod output_plan;
mod plan_assembly;
mod plan_groups;
mod planned_block;
mod planned_output;
mod stops;
mod table_assembly;
mod table_index;
mod table_len;
mod walk;
mod whole_plan;

pub use cursor::EntryCursor;
pub use entry_ref::EntryRef;
pub use entry_span::EntrySpan;
pub use output_laws::{lengths_law, outputs_law, ranges_cut, segments_law, stops_law, whole_law};
pub use output_meta::OutputMeta;
pub use output_plan::{MAX_BLOCKS, plan};
pub use walk::EntryWalk;
pub use whole_plan::Plan;
