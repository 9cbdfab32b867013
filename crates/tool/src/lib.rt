//! The commands of the program `sedvokt` that change a folder or write into another: their files
//! and locks, what they print, and what is told of a refusal and of the work on a folder.
//!
//! No contract says which calls are made for a command, nor what is told on the standard error.
#![tactic(auto)]

mod clean_work;
mod compaction_notes;
mod compaction_work;
mod folder_change;
mod install_work;
mod job_printer;
mod out_folder;
mod outcome_refusal;
mod outcome_work;
mod printed_work;
mod step_printer;

pub use clean_work::{clean_folder, removable_answer};
pub use compaction_work::compact_folder;
pub use install_work::install_outcomes;
pub use job_printer::job_answer;
pub use out_folder::{OutState, state_of};
pub use outcome_work::write_compaction;
