//! Which entries of the inputs a compaction keeps, in one range of user keys.
//!
//! 1. [`Snapshots`] says which sequences stay readable: those of a list, and all from a floor on.
//! 2. [`merge_range`] merges cursors over the range and drops what no reader can see.
//! 3. A [`RangeRun`] has the kept entries, and a [`Mark`] for each user key before which the number
//!    of grandparents changes.
//!
//! [`is_rising`] and [`largest_rise`] test what `merge_range` requires. [`one_key`] is the law that
//! no readable sequence sees what is dropped; [`ranges_compose`] the law that ranges may be cut
//! anywhere between user keys.
//!
//! No contract says how much memory a run takes.
#![tactic(auto)]

mod chunk_slice;
mod conditions;
mod drop_rule_laws;
mod entry_chunk;
mod entry_chunks;
mod grandparents;
mod kept_entry;
mod last_version;
mod lengths;
mod mark;
mod range_merge;
mod range_run;
mod rule;
mod snapshots;
mod walk;
mod walk_steps;

pub use chunk_slice::ChunkSlice;
pub use conditions::{is_rising, largest_rise};
pub use drop_rule_laws::{distinct_law, kept_in_range, one_key, range_start_law, ranges_compose};
pub use lengths::{encoded_entry_len, varint_len};
pub use mark::Mark;
pub use range_merge::merge_range;
pub use range_run::RangeRun;
pub use reads::{Cursor, FileMeta, SoundTable, TableCursor};
pub use snapshots::Snapshots;
pub use split::Range;
