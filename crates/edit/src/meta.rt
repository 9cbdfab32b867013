//! What edits and versions hold: files and compact pointers.

ghost use Rattle.std.specs.Prelude.{Ok};
ghost use Rattle.coding.specs.Answers.{EqualOrMemory};

use coding::Fault;
use ikey::KeyBuf;
use std::alloc::Global;

/// How many levels a version has: 0 to 6.
pub const LEVELS: u64 = 7;

/// The deepest level of a version.
pub const LAST_LEVEL: u64 = LEVELS - 1;

/// A table file: its number, its length, and its smallest and largest key.
#[derive(Drop)]
pub struct FileMeta {
    /// The number in the table's name.
    pub number: u64,
    /// The table's length in bytes.
    pub size: u64,
    /// The first internal key of the table.
    pub smallest: KeyBuf,
    /// The last internal key of the table.
    pub largest: KeyBuf,
}

impl FileMeta {
    pub fn copy(&self, alloc: Global) -> Result<FileMeta, Fault>
        ensures { EqualOrMemory (λ file. file) result (Ok self.now) }
    {
        Ok(FileMeta {
            number: self.number,
            size: self.size,
            smallest: KeyBuf::of(alloc, self.smallest.as_key())?,
            largest: KeyBuf::of(alloc, self.largest.as_key())?,
        })
    }
}

/// A file and its level.
#[derive(Drop)]
pub struct NewFile {
    /// From 0 to 6.
    pub level: u64,
    /// The file.
    pub meta: FileMeta,
}

impl NewFile {
    pub(crate) fn copy(&self, alloc: Global) -> Result<NewFile, Fault>
        ensures { EqualOrMemory (λ file. file) result (Ok self.now) }
    {
        let meta = self.meta.copy(alloc)?;
        Ok(NewFile {
            level: self.level,
            meta,
        })
    }
}

/// The compact pointer of a level: its next compaction begins after this internal key.
#[derive(Drop)]
pub struct CompactPointer {
    /// From 0 to 6.
    pub level: u64,
    /// The largest internal key of the level's inputs in its last compaction.
    pub key: KeyBuf,
}

/// The level and number of a file that an edit deletes. They are ordered by level, then number.
#[derive(Clone, Copy, PartialEq, Eq, PartialOrd, Ord)]
pub struct DeletedFile {
    /// From 0 to 6.
    pub level: u64,
    /// The number in the table's name.
    pub number: u64,
}
