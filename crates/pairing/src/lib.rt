//! Two blocks of a table, merged into the block of the sorted union of their entries.
//!
//! [`blocks`] is the one public call.
//!
//! 1. File A is tested whole, and then file B.
//! 2. Both are parted at a user key. Two workers merge the part before it and the part from it on.
//! 3. The runs are joined and written as one block. So the block doesn't depend on that key.
//!
//! That both workers run, or how much memory the entries take, no contract says.
#![tactic(auto)]

mod entry_checks;
mod parted_entries;
mod range_pair;
mod tested_cursor;
mod tested_entry;
mod two_blocks;
mod two_ranges;

pub use two_blocks::blocks;
