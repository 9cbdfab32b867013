//! What a test tells of a lawful version.

/// What a test tells of a lawful version: how many files it has, and how many entries all their
/// tables have.
#[derive(Clone, Copy, PartialEq, Eq)]
pub struct VersionTotals {
    pub files: usize,
    pub entries: u128,
}
