//! What is told of a version's levels.

use crate::amounts::Amounts;
use table::KeyBuf;

/// What a version has at one of its levels that has a file.
#[derive(Drop)]
pub struct LevelStats {
    /// The level, from 0 to 6.
    pub level: u64,
    /// How much its files and their tables have.
    pub amounts: Amounts,
    /// The smallest internal key of its files.
    pub smallest: KeyBuf,
    /// The largest internal key of its files.
    pub largest: KeyBuf,
}

/// What a version has.
#[derive(Drop)]
pub struct VersionStats {
    /// What it has at each level that has a file. The levels rise.
    pub levels: Vec<LevelStats>,
    /// How much all levels have together.
    pub all: Amounts,
}
