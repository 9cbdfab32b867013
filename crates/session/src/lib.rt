//! What the commands of the program have in common: locks and files, a folder that is opened once
//! ([`Session`]), a refusal and its words, what is told of logs and of progress on the standard
//! error, and lines that are printed.
//!
//! What is read of a folder again to tell of the work on it:
//!
//! 1. [`replayed_log`]: which logs LevelDB would replay, by their names.
//! 2. [`unneeded_files`]: which files its version doesn't need.
//! 3. [`deleted_files`]: which files went into a compaction. [`have_filter`]: whether one of them
//!    has a filter block.
//!
//! None of these changes a folder. No contract says which files or logs these are, what is told,
//! nor which calls of the system are made.
#![tactic(auto)]

mod amount_texts;
mod compaction_inputs;
mod explanations;
mod filter_blocks;
mod folder_files;
mod folder_locks;
mod host;
mod opened_folder;
mod progress_line;
mod refusal;
mod reporter;
mod tested_sizes;
mod user_files;

pub use amount_texts::total_text;
pub use compaction_inputs::deleted_files;
pub use disk::Disk;
pub use edit::{FileMeta, LAST_LEVEL, LEVELS};
pub use explanations::{CLOSE_ONCE, Words, in_words, of_file};
pub use filter_blocks::have_filter;
pub use folder::{Bytewise, Comparator, Opened, Order, Shortlex, manifest_name};
pub use folder_files::{
    UnneededFiles, is_there, logs_with_writes, missing_log, names_in, path_in, replayed_log,
    unneeded_files,
};
pub use folder_locks::{Access, locked, no_database};
pub use host::Host;
pub use opened_folder::{
    Session, bytes_of, open_in, open_session, print_lines, refused_at, refused_opened,
    tell_replaced,
};
pub use progress_line::{ProgressLine, WorkLeft};
pub use refusal::{Answer, Refusal, RefusalText, said, told, told_of_file};
pub use reporter::{Beginning, RefusedTable, Telling, tell_time};
pub use tested_sizes::{bytes_of_files, large_table, size_refusal, sizes_tested, table_file_name};
pub use user_files::{read_file, replace_file, sync_folder_of};
