//! One compaction of a database folder: it is opened, what was opened is synced, its tables are
//! checked, inputs are picked and compacted, and the outcome is installed.
//!
//! 1. [`Settings`] says which workers, ranges, snapshots and options.
//! 2. [`compact_dir`] does all of it. Its steps are `folder::open`, [`sync_version`] and
//!    [`compact_opened`], for callers that need what was opened in between. What installs something
//!    takes a [`SyncedVersion`], which none but the second makes of what was opened.
//! 3. Without a test [`compact_opened`] reads the inputs alone: its caller knows that the version
//!    is lawful. [`opened_after`] makes what a folder is opened as after it: the next one's.
//! 4. Parts of the compaction of all levels: [`bottom`] and [`next_level`] say which levels it
//!    takes; [`tell_step`] tells a [`CleanWatch`] of a compaction that was installed; [`clean`]
//!    asks it for names, and removes the files of these that the version doesn't need.
//! 5. [`outcome`] only reads: it answers the outcome of a [`Choice`] of inputs, with the numbers
//!    that are asked for, after a test of the version or without one. [`write_outcome`] writes it
//!    into another folder. [`files_to_compact`] names the files that it needs of a level without a
//!    test; [`parts_to_compact`] are the parts of a level. [`outcome_of_picked`] answers the
//!    outcome of inputs that its caller found.
//! 6. Parts of these calls, for those who compact whole levels or install an outcome later:
//!    [`version_is_state`], [`test_files`], [`load_inputs`], [`checked_inputs`], [`bytes_of`],
//!    [`manifest_of`], [`outcome_answer`], [`edit_is_bytes`]. [`name_edits`] installs what was
//!    written of several compactions, by one manifest.
//! 7. All tell a [`Watch`] of the work; [`Open`] is the one that does nothing.
//!
//! What the clauses say. They are of a folder that tells contracts what it holds, but for `device`,
//! `refused` and the calls of `runs`.
//!
//! - `answer`: the step or the outcome, or the first refusal in the order of the call's own
//!   documentation. The crate makes no text: the lines of a step are `answers::compaction_lines`.
//! - `left`: the folder holds what it held, at most synced; or a compaction was installed, and at
//!   Ok CURRENT names the manifest of the edited version. Without a test that is if the version
//!   passes one.
//! - `device`: Device if the device failed during the call, and only then.
//! - `other`: Ok isn't answered if CURRENT is another one than was opened.
//! - `runs` of [`sync_version`]: CURRENT, its manifest, both names of each table, and then the
//!   folder are synced. `same`: it holds what it held. `stands`: at Ok it stands for the version,
//!   if it reads as it. `refused`: Device or Memory.
//!
//! The laws tie a compaction to its installation. After [`sync_version`] a folder stands for the
//! version that was opened, whatever was synced before. The law [`sync_stands`] says when a sync of
//! the folder alone is enough. [`compactions_survive`] says what a crash leaves of the calls of
//! `runs`, of any folder, also one that tells nothing.
#![tactic(auto)]

mod answered_steps;
mod choice;
mod chosen_outcome;
mod clean_watch;
mod cleaning;
mod compaction_outcome;
mod compaction_step;
mod descent;
mod folder_compaction;
mod folder_request;
mod group_tables;
mod held_compaction;
mod held_inputs;
mod input_compaction;
mod input_laws;
mod input_tables;
mod install_laws;
mod install_watch;
mod level_step;
mod named_edits;
mod needed_files;
mod next_opened;
mod outcome_writer;
mod part_choice;
mod part_laws;
mod picked_outcome;
mod planned_installation;
mod ready_manifest;
mod synced_version;
mod test_memory;
mod version_files;
mod version_sync;

pub use answered_steps::outcome_answer;
pub use board::{Watch, Work};
pub use checks::{Open, checkers, checkers_of};
pub use choice::Choice;
pub use chosen_outcome::outcome;
pub use clean_watch::CleanWatch;
pub use cleaning::clean;
pub use compact::{DeletedFile, Settings};
pub use compaction_outcome::CompactionOutcome;
pub use compaction_step::CompactionStep;
pub use descent::{bottom, next_level};
pub use folder_compaction::{compact_dir, compact_opened};
pub use folder_request::manifest_of;
pub use input_tables::{bytes_of, checked_inputs, load_inputs};
pub use install::RemovalWatch;
pub use install_laws::{compactions_survive, sync_stands};
pub use install_watch::InstallWatch;
pub use level_step::tell_step;
pub use named_edits::{WrittenTables, name_edits};
pub use needed_files::files_to_compact;
pub use next_opened::opened_after;
pub use outcome_writer::{EDIT, write_outcome};
pub use part_choice::parts_to_compact;
pub use part_laws::closed_is_installed;
pub use pick::Inputs;
pub use picked_outcome::{OutcomeSettings, edit_is_bytes, outcome_of_picked};
pub use synced_version::{SyncMark, SyncedVersion};
pub use version_files::{test_files, version_is_state};
pub use version_sync::sync_version;
