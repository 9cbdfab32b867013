//! What is asked of the compaction of all levels.

use store::Settings;

/// Which inputs of a level a compaction takes.
#[derive(Clone, Copy)]
pub enum Selection {
    /// All its parts, which are installed by one manifest.
    Whole,
    /// Those of its parts that fit, in the same way: each has at most 256 inputs, whose files have
    /// at most so many bytes together. If none fits, what the rules pick of it.
    Fitting(u64),
}

/// What is asked of the compaction of all levels.
#[derive(Clone, Copy)]
pub struct Descent<'s> {
    /// Which inputs of a level one compaction takes.
    pub selection: Selection,
    /// What each compaction is asked to keep to.
    pub settings: Settings<'s>,
    /// How many bytes of tables a test of the version reads at a time. None if it isn't tested,
    /// since it is known to be lawful.
    pub test: Option<u64>,
}
