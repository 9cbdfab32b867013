//! What is told of a refusal of work on a folder: the file that is refused, and words for it.
//!
//! 1. [`explained`]: a refusal with what is told of it. [`compaction_explained`]: the same of a
//!    compaction. [`table_explained`]: the same without looking for the file.
//! 2. [`sizes_in_turn`]: the refusal of a table that is too large, or of one before it.
//! 3. [`unlike_edit`]: which new table is not as an edit states it. [`file_fault`]: what is told of
//!    such a table.
//! 4. [`missing_file`]: what is told of a missing file.
//!
//! None of these changes a folder. No contract says which file it is, nor what is told.
#![tactic(auto)]

mod edit_fields;
mod folder_refusal;
mod manifest_refusal;
mod settings_refusal;
mod stated_tables;
mod table_turns;
mod unlawful_version;
mod words;

pub use folder_refusal::{compaction_explained, explained, is_of_no_file, table_explained};
pub use stated_tables::unlike_edit;
pub use table_turns::sizes_in_turn;
pub use words::{Stated, file_fault, missing_file};
