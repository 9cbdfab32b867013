//! Version edits, and the versions that they make.
//!
//!     edit    = fields, in any order when read
//!     field   = tag, a varint, and then its content
//!
//!     1 comparator        length-prefixed name, UTF-8
//!     2 log number        varint64
//!     3 next file         varint64
//!     4 last sequence     varint64
//!     5 compact pointer   level, length-prefixed internal key
//!     6 deleted file      level, varint64 number
//!     7 new file          level, varint64 number and size, smallest and largest key as in 5
//!     9 previous log      varint64
//!
//! A level is a varint from 0 to 6, and a length a varint below 2^32. A version is the files of a
//! database, each at its level, with counters and a compact pointer for each level. An edit changes
//! a version; a manifest is a log of edits.
//!
//! 1. [`VersionEdit::decode`] reads an edit, and [`VersionEdit::encode`] writes one.
//! 2. [`Version::empty`], then [`Version::apply`] or [`Version::applied`] for each edit.
//! 3. [`Version::files`] answers the files of a level, and [`Version::snapshot_edit`] the edit that
//!    makes the version of an empty one.
//!
//! [`edit_laws`] and [`snapshot_law`] are laws of both. No contract says how long an edit takes.
#![tactic(auto)]

mod copies;
mod edit_effect;
mod field;
mod field_reader;
mod field_writer;
mod file_insertion;
mod files;
mod format_laws;
mod meta;
mod outcome;
mod snapshot;
mod tag;
mod version;
mod version_edit;
mod version_order;

pub use coding::{Fault, FaultName};
pub use format_laws::{edit_laws, snapshot_law};
pub use ikey::{Comparator, InternalKey, KeyBuf};
pub use meta::{CompactPointer, DeletedFile, FileMeta, LAST_LEVEL, LEVELS, NewFile};
pub use outcome::Outcome;
pub use version::Version;
pub use version_edit::VersionEdit;
