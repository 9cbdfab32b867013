//! The commands that only read: a version, its test, its files, its rows and values, a table, two
//! blocks.
//!
//! Each answers what is left to print, after it was told how long the work took. No contract says
//! which calls are made for a command, nor what is printed.
#![tactic(auto)]

mod block_files;
mod fault_printer;
mod history_printer;
mod input_keys;
mod needed_files;
mod row_printer;
mod stats_printer;
mod table_files;
mod value_printer;
mod version_printer;

pub use block_files::blocks_answer;
pub use history_printer::history_answer;
pub use input_keys::keys_in_input;
pub use needed_files::files_answer;
pub use row_printer::rows_answer;
pub use stats_printer::stats_answer;
pub use table_files::{table_answer, table_verdict};
pub use value_printer::values_answer;
pub use version_printer::{verdict_answer, version_answer};
