//! The lines and objects that are printed, and the calls behind the commands that only read.
//!
//! 1. [`manifest`], [`verify`] and [`get_dir`] open a folder and answer. Of one that is opened
//!    already, [`manifest_lines`] are the lines of its version, and [`lawful_line`] is that of a
//!    test. [`unverified_value`] answers a value without testing the version.
//! 2. [`dump`] answers the lines of one table, [`verify_table`] tests one, [`push_row`] makes the
//!    line of one key, [`value_answer`] what is printed of one value.
//! 3. [`compaction_lines`] are the lines of a compaction. [`file_fault_line`], [`key_fault_line`]
//!    and [`fault_count_line`] are those of what is wrong with a version.
//! 4. The calls that end in `_json` make the JSON objects of answers, and [`json_line`] the line of
//!    one: without blanks, and members by name. Keys and values are strings of their texts. Numbers
//!    are decimal and exact, so a reader needs integers of 64 bits.
//! 5. Keys and values are written as a [`Spelling`](texts::Spelling) says. [`value_lines_law`] is
//!    the law of the line of a value.
//! 6. [`stats_text`] is a table with bars for people. [`refusal_json`] tells of a refusal. No
//!    contract says what these hold: the cases of the program compare them. [`status`] is the
//!    status of a refusal.
//!
//! No contract says which of these the program calls for a command.
#![tactic(auto)]

mod compaction_answer;
mod fault_lines;
mod folder_commands;
mod history_lines;
mod json_answers;
mod json_object;
mod json_refusal;
mod json_stats;
mod rows;
mod scan_row;
mod stats_table;
mod table_dump;
mod unverified_get;
mod value_forms;
mod version_answer;
mod version_verdict;

pub use checks::{Open, VersionTotals};
pub use compaction_answer::{CompactionEnd, compaction_json, compaction_lines};
pub use fault_lines::{fault_count_line, file_fault_line, key_fault_line};
pub use folder_commands::{get_dir, manifest, verify};
pub use history_lines::{EntryPlace, entry_line};
pub use json_answers::{
    count_json, entry_json, lawful_json, logs_json, name_json, push_row_json, removed_json,
    valid_json, value_json,
};
pub use json_object::json_line;
pub use json_refusal::{Told, refusal_json, status};
pub use json_stats::stats_json;
pub use scan::FileTotal;
pub use scan_row::push_row;
pub use stats_table::stats_text;
pub use table_dump::dump;
pub use unverified_get::unverified_value;
pub use value_forms::{ValueForm, push_named_value, value_answer, value_lines_law};
pub use version_answer::{manifest_lines, version_json};
pub use version_verdict::{lawful_line, table_entries, verify_table};
