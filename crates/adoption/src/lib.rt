//! Installs the outcome of a compaction that was carried out elsewhere: its output tables, and a
//! file EDIT that has its version edit.
//!
//! [`begin_taking`] tests the version that was opened, once, unless outputs aren't compared. Then
//! [`take_outcome`] reads these files from a folder, and tests them against the database folder:
//!
//! 1. The edit fits the version: it is an edit of a compaction of files of it, and these are closed
//!    inputs now (`pick::first_missing`). Which closed inputs they are is the caller's choice.
//! 2. Each output is there and is a table, as the edit states it.
//! 3. The outputs hold just what a compaction of the inputs keeps, as [`Comparison`] says.
//!
//! So the edited version is lawful (`compact::kept_reads_survive`), and no other table is read. If
//! outputs aren't compared, [`install_taken`] tests the last version, with tables of the folder.
//!
//! Each outcome is tested against the version that those before it leave, and its tables are
//! written. Then [`install_taken`] installs all of them by one manifest, as a compaction is: a
//! crash at any moment leaves the version before all of them or the one after.
//!
//! The database may have been in use meanwhile. So the counters of the edit that is installed are
//! those of the version now.
#![tactic(auto)]

mod adopted_edit;
mod comparison;
mod edit_fit;
mod given_outcome;
mod joined_installation;
mod kept_comparison;
mod kept_entries;
mod outcome_taking;
mod taken_outcomes;
mod taking_begun;

pub use comparison::Comparison;
pub use joined_installation::install_taken;
pub use outcome_taking::take_outcome;
pub use taken_outcomes::{TakenOutcome, TakenOutcomes};
pub use taking_begun::begin_taking;
