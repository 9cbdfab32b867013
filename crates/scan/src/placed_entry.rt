//! An entry of a user key, and where it is.

use crate::owned_entry::OwnedEntry;

/// An entry, and the file that has it.
#[derive(Drop)]
pub struct PlacedEntry {
    /// The level of the file, from 0 to 6.
    pub level: u64,
    /// The number of the file.
    pub file: u64,
    pub entry: OwnedEntry,
}
