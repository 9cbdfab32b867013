//! Makes the outcome of a compaction current, and removes the files that are not needed then, so
//! that a crash at any moment leaves the version before or the edited one.
//!
//! [`install`] makes its calls in this order, each once, up to one that fails:
//!
//! 1. the tables are made and synced, in any order, by several threads if the folder does so;
//! 2. the manifest is made and synced;
//! 3. CURRENT's text is made under a temporary name and synced, and the folder is synced;
//! 4. CURRENT is read: if it isn't what it was when the version was opened, the answer is Changed
//!    and no further call is made;
//! 5. the temporary name is renamed to CURRENT, and the folder is synced.
//!
//! A caller that makes its tables in groups asks for [`manifest_bytes`], then for [`write_group`]
//! of each group, and then for [`install_manifest`], which does all from the second on. Then the
//! same holds (`IsGroupedInstallation`; the lemmas are in `proofs/Grouped.antt`).
//!
//! Why the first three: CURRENT never names a manifest that a crash could take away.
//!
//! Why the fourth: a program that ignores the folder's lock may have changed the version meanwhile,
//! and the rename would undo that. A change between this read and the rename isn't seen. Files that
//! the other program made under the names of the first three are replaced by then.
//!
//! A compaction leaves its inputs and the manifest before it where they are. [`remove_obsolete`]
//! removes, of the names that it is given, those that [`is_obsolete_file`] tells: files that the
//! version doesn't need (`obsolete_files.rt` says which, `removal.rt` what holds then).
//! [`obsolete_names`] answers these. [`pending_current`] finds a `CURRENT.N` that goleveldb has not
//! renamed yet. Beside one, CURRENT may not name the version that is to be kept.
//!
//! [`work_survives`]: of any row of pieces of work, a crash at any moment leaves a version that was
//! named, with its manifest. A piece writes the tables of an outcome, or names the version that
//! outcomes make, or removes files. So several outcomes may be written before one manifest names
//! what they make. An installation is two pieces ([`installation_survives`];
//! [`install_calls_survive`] says it of its calls alone).
//!
//! Premises of what is said of a crash:
//!
//! - nobody else writes the folder;
//! - it stands for the version: before an installation `StandsAs`, before a removal by its manifest
//!   (`StandsBy`), as after `sync_version` of `store`;
//! - the version's order has the comparator's name;
//! - the outcome makes the edited version of it (`IsEditedBy`);
//! - the crash model of `folder`.
#![tactic(auto)]

mod file_kind;
mod install_steps;
mod installation;
mod manifest;
mod obsolete_files;
mod pending_names;
mod removal;
mod removal_watch;
mod work_survival;

pub use edit::Outcome;
pub use file_kind::FileKind;
pub use folder::{CURRENT, Opened};
pub use install_steps::{install_manifest, write_group, write_source_group};
pub use installation::install;
pub use manifest::manifest_bytes;
pub use obsolete_files::{is_obsolete_file, obsolete_names};
pub use pending_names::pending_current;
pub use removal::remove_obsolete;
pub use removal_watch::RemovalWatch;
pub use work_survival::{
    install_calls_survive, installation_survives, nothing_named, work_survives,
};
