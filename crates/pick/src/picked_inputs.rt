//! What a compaction takes.

ghost use Rattle.std.specs.Prelude.{◌≡◌};
ghost use Rattle.pick.specs.PickedInputs.{picked_in};
ghost use Rattle.pick.specs.Ranges.{is_in_none};

use crate::range::holds_user;
use edit::{CompactPointer, Comparator, FileMeta};
use std::sync::Arc;

/// An input of a compaction: a file and its level.
#[derive(Drop)]
pub struct InputFile {
    /// The level of the compaction, or the next one.
    pub level: u64,
    /// The file.
    pub meta: FileMeta,
}

/// The inputs of a compaction, and what it has to know of deeper levels.
#[derive(Drop)]
pub struct Inputs {
    /// The level of the compaction, from 0 to 5.
    pub level: u64,
    /// The inputs: files of the level in version order, then those of the next level.
    pub files: Vec<InputFile>,
    /// The grandparents: files of `level` + 2 whose range of user keys overlaps that of all inputs,
    /// in version order.
    pub grandparents: Vec<FileMeta>,
    /// All files of the levels from `level` + 2 to 6, by level and in version order. The parts of a
    /// level share them.
    pub deeper: Arc<Vec<FileMeta>>,
    /// The level's new compact pointer, as the edit sets it: the greatest key of the level's
    /// inputs.
    pub pointer: CompactPointer,
}

/// Whether a user key is at its base: no deeper file's range of user keys holds it.
pub fn is_base<C: Comparator>(inputs: &Inputs, user_key: &[u8]) -> bool
    ensures { result ≡ is_in_none C.cmp (picked_in inputs.now).deeper user_key.now }
{
    !inputs
        .deeper
        .iter()
        .any(|file| holds_user::<C>(file, user_key))
}
