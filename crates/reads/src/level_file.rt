//! A file of a version, with its level.

use edit::FileMeta;

/// A file and its level.
#[derive(Clone, Copy)]
pub struct LevelFile<'v> {
    /// From 0 to 6.
    pub level: u64,
    /// What the version states of the file.
    pub meta: &'v FileMeta,
}
