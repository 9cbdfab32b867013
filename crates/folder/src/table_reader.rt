//! Tables of a folder, read by several threads.

use crate::folder::Folder;
use std::alloc::Global;

/// What reads tables of a folder, in any thread.
pub trait TableReader: Send + Sync {
    ghost use Rattle.std.specs.Prelude.{List, ℕ, Option, Ok, IfSome};
    ghost use Rattle.folder.specs.LoadedTables.{IsTableAnswer};

    /// What it tells of the folder's files, as a folder does.
    ghost tells: { Self → List ℕ → Option (List ℕ) → Type 0 };

    /// The bytes of the table of this `number`. None if they can't be had, for whatever reason:
    /// then the folder itself is asked.
    fn table(&self, alloc: Global, number: u64) -> Option<Vec<u8>>
        ensures { IfSome result (λ bytes. IsTableAnswer (tells self.now) number (Ok bytes.items)) };
}

/// A folder whose tables are read by several threads.
pub trait ReadsTables: Folder {
    ghost use Rattle.folder.specs.Folder.{IsToldBy};

    /// What reads its tables.
    type Reader: TableReader + Drop;

    /// What reads its tables, as long as no call that writes is made.
    fn reader(&self) -> Self::Reader
        ensures { IsToldBy (Self.Reader.tells result) (Self.tells self.now) };
}

/// What reads no table.
#[derive(Clone, Copy, Drop)]
pub struct NoReader;

impl TableReader for NoReader {
    ghost tells = { λ _ _ _. ⊥ };

    fn table(&self, _alloc: Global, _number: u64) -> Option<Vec<u8>> {
        None
    }
}
