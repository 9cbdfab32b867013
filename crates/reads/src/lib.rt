//! What a version answers, and whether it is lawful.
//!
//! 1. A [`NumberedTable`] is a checked table with the number of its file.
//! 2. [`lawful`] tests a version with its tables: each table is what the version states of it, and
//!    of each user key newer entries are above older ones.
//! 3. [`tables_newest_first`] and [`falls_in`] make the same test in parts, so that workers may
//!    share it. [`files_newest_first`] and [`is_stated`] make the tests of the files, a table at a
//!    time.
//! 4. [`get`] answers the value of a user key at a sequence.
//!
//! [`has_bounds`], [`is_below`] and [`may_hold`] test what a version states of a file.
//! [`all_files`] lists a version's files, each as a [`LevelFile`]. [`answers_newest_first`] is the
//! law that the entries of a user key answer a get, the newest first.
//!
//! No contract says how long these calls take. Of a version that isn't lawful, no contract says
//! which value `get` answers.
#![tactic(auto)]

mod bounds;
mod entries_walk;
mod file_list;
mod file_order;
mod found_entry;
mod lawfulness;
mod level_file;
mod newest_first_law;
mod numbered_table;
mod table_places;
mod table_search;
mod version_get;

pub use bounds::has_bounds;
pub use edit::FileMeta;
pub use entries_walk::falls_in;
pub use file_list::all_files;
pub use ikey::{Kind, MAX_USER_KEY};
pub use lawfulness::{files_newest_first, is_below, is_stated, lawful, tables_newest_first};
pub use level_file::LevelFile;
pub use newest_first_law::answers_newest_first;
pub use numbered_table::NumberedTable;
pub use split::Range;
pub use table::{Cursor, SoundTable, TableCursor};
pub use version_get::{get, may_hold};
