//! What a version answers, its tables read from a folder: its rows, how much it has, and the value
//! of a user key.
//!
//! A row is a user key that has a value at a sequence, with that value: what a get answers.
//!
//! 1. A [`RowChoice`] says which rows are wanted, and a [`RowTaker`] is told them; a [`RowCounter`]
//!    counts them ([`row_count_law`]). [`prefix_end`] ends the range of the keys with a prefix.
//! 2. [`scan_unverified`] reads the tables of a lawful version, a range of user keys after the
//!    other, and tells the rows as it comes to them.
//! 3. [`scan_version`] tests the version first.
//! 4. [`version_stats`] tests the version, and counts what it has: [`VersionStats`], of each level
//!    [`LevelStats`], as [`Amounts`]. A [`FileTotal`] is for files that no version names.
//! 5. [`get_unverified`] answers the value of a user key, in a version that was tested before. It
//!    reads of each table that may answer its footer, its index block, and the one data block in
//!    which the entry has to be. What it reads it tests, and nothing else. So its answer is that of
//!    [`reads::get`] if the version is lawful with the tables, and it doesn't test that.
//! 6. [`key_history`] finds all entries of a user key in a version, the newest first, each a
//!    [`PlacedEntry`]; [`entries_in_file`] those of one table, each an [`OwnedEntry`].
//!
//! [`sequence_of`] is the sequence at which a version is read. [`rows_law`] is the law that a
//! lawful version has just one list of rows.
//!
//! No contract says how many tables are read, or how much memory a walk takes.
#![tactic(auto)]

mod amounts;
mod block_search;
mod count_walk;
mod counted_version;
mod decided_user;
mod entry_walk;
mod file_parts;
mod file_search;
mod file_total;
mod folder_get;
mod level_files;
mod level_merges;
mod level_rows;
mod level_stats;
mod merge_walk;
mod owned_entry;
mod placed_entry;
mod prefix_range;
mod range_counts;
mod range_scan;
mod row_choice;
mod row_counter;
mod row_laws;
mod row_limit;
mod row_taker;
mod table_blocks;
mod table_rows;
mod tested_scan;
mod user_entries;
mod version_history;
mod version_scan;

pub use amounts::Amounts;
pub use counted_version::version_stats;
pub use file_total::FileTotal;
pub use folder_get::get_unverified;
pub use level_stats::{LevelStats, VersionStats};
pub use owned_entry::OwnedEntry;
pub use placed_entry::PlacedEntry;
pub use prefix_range::prefix_end;
pub use reads::Kind;
pub use row_choice::RowChoice;
pub use row_counter::{RowCounter, row_count_law};
pub use row_laws::rows_law;
pub use row_taker::RowTaker;
pub use tested_scan::scan_version;
pub use user_entries::entries_in_file;
pub use version_history::key_history;
pub use version_scan::{scan_unverified, sequence_of};
