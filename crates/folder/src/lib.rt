//! The folder of a database: its files by name, its order of user keys, the version that its
//! manifest gives, and that version's tables.
//!
//! 1. A [`Folder`] has files by name. One of the system is `Disk` of the crate `disk`.
//! 2. [`open`] gives the order and the version: CURRENT, then the manifest that it names.
//! 3. [`load`] gives the tables of a version, [`load_numbers`] those of some files. A
//!    [`TableReader`] gives them in any thread, if the folder [`ReadsTables`].
//! 4. [`write_source`] writes the tables of a [`TableSource`], each made by one of several workers,
//!    if the folder [`WritesTables`].
//! 5. [`table_name`] and its neighbours give the names of files.
//!
//! The crash model (`specs/Calls.antt`, `specs/Crash.antt`). That a device keeps to it is a
//! premise:
//!
//! - A synced file, in a folder that was synced after that, keeps its bytes until it is made anew
//!   or removed, or a rename replaces it. A renamed file is as synced as it was.
//! - A name without a file at a sync of the folder has none until one is made or renamed to it.
//! - Any other file may hold any bytes after a crash, or be missing.
//! - Until tables that are written together are answered Ok, each is such a file, whatever the
//!   others are.
//! - A rename after which the folder was not synced is wholly there or wholly not. So is a removal.
//! - A call that failed or was under way may be done as far as these say.
#![tactic(auto)]

mod current_version;
mod folder;
mod folder_answer_laws;
mod manifest_version;
mod names;
mod order;
mod part;
mod readings;
mod source_writer;
mod table_loader;
mod table_reader;
mod table_source;
mod trail;
mod writes_tables;

pub use crate::folder::{Folder, FolderFault};
pub use board::{Gate, MAX_WORKERS};
pub use current_version::{Opened, open};
pub use edit::{FileMeta, LEVELS, Version, VersionEdit};
pub use folder_answer_laws::{crash_laws, folder_laws, reading_laws};
pub use ikey::{Bytewise, Comparator, Fault, FaultName, Shortlex};
pub use names::{
    CURRENT, current_text, manifest_name, number_in_current, old_table_name, table_name,
    temporary_name,
};
pub use order::Order;
pub use part::part_of;
pub use readings::{FileRead, Readings};
pub use source_writer::write_source;
pub use table_loader::{file_numbers, load, load_numbers};
pub use table_reader::{NoReader, ReadsTables, TableReader};
pub use table_source::{SourceTables, TableSource};
pub use trail::{AnyWrite, Attempt, FolderCall, Trail, WriteCall};
pub use writes_tables::{TableMaker, WritesTables};
