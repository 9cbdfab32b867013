//! A folder in memory that tells contracts nothing, as a folder of the system does.

ghost use Rattle.std.specs.Prelude.{◌≡◌, ◌∷◌, ◌++◌, [], ℕ, IfSome};
ghost use Rattle.std.specs.List.{AllZip};
ghost use Rattle.folder.specs.Calls.{TellsAfter, Written, step_of};
ghost use Rattle.folder.specs.Folder.{IsToldBy, failures_after};
ghost use Rattle.folder.specs.TableFiles.{named_tables};

use folder::{
    FileRead, Folder, FolderFault, NoReader, Readings, ReadsTables, SourceTables, TableMaker,
    TableReader, WritesTables,
};
use shelf::{Shelf, ShelfMaker, ShelfStep};
use std::thread::Threads;

/// A folder in memory that tells contracts nothing of what it holds. Of one file the last byte is
/// never read.
#[derive(Drop)]
pub(crate) struct SilentShelf<'a> {
    pub shelf: Shelf<'a>,
    /// The name of that file.
    pub short: &'a str,
    pub readings: Readings,
}

impl<'a> SilentShelf<'a> {
    /// The calls that write, the newest first.
    pub fn steps(&self) -> &[ShelfStep] {
        self.shelf.steps()
    }
}

/// What a read answers, without the last byte if it `is_short`.
fn shortened(
    answer: Result<Option<Vec<u8>>, FolderFault>,
    is_short: bool,
) -> Result<Option<Vec<u8>>, FolderFault>
    ensures { (n : ℕ) → failures_after n result ≡ failures_after n answer }
{
    match answer {
        Ok(Some(bytes)) => Ok(Some(without_last(bytes, is_short))),
        Ok(None) => Ok(None),
        Err(fault) => Err(fault),
    }
}

/// These bytes, without the last one if `is_short`.
fn without_last(bytes: Vec<u8>, is_short: bool) -> Vec<u8> {
    let mut bytes = bytes;
    if is_short {
        let _ = bytes.pop();
    }
    bytes
}

impl<'a> Folder for SilentShelf<'a> {
    ghost tells = { λ _ _ _. Unit {0} };

    ghost calls = { λ s. s.shelf.made.trail };

    ghost failed = { λ s. s.shelf.made.failures };

    ghost readings = { λ s. s.readings.files };

    fn read(&mut self, name: &str) -> Result<Option<Vec<u8>>, FolderFault> {
        let whole = self.shelf.read(name);
        let answer = shortened(whole, name == self.short);
        self.readings = self.readings.then(&FileRead {
            trail: self.shelf.trail(),
            name,
            answer: &answer,
        });
        answer
    }

    fn read_part(
        &mut self,
        name: &str,
        offset: u64,
        len: usize,
    ) -> Result<Option<Vec<u8>>, FolderFault> {
        self.shelf.read_part(name, offset, len)
    }

    fn create(&mut self, name: &str, bytes: &[u8]) -> Result<(), FolderFault> {
        self.shelf.create(name, bytes)
    }

    fn write_tables<T: Threads + Sync>(
        &mut self,
        rt: &T,
        tables: &[(u64, Vec<u8>)],
    ) -> Result<(), FolderFault> {
        self.shelf.write_tables(rt, tables)
    }

    fn sync(&mut self, name: &str) -> Result<(), FolderFault> {
        self.shelf.sync(name)
    }

    fn rename(&mut self, from: &str, to: &str) -> Result<(), FolderFault> {
        self.shelf.rename(from, to)
    }

    fn remove(&mut self, name: &str) -> Result<(), FolderFault> {
        self.shelf.remove(name)
    }

    fn sync_folder(&mut self) -> Result<(), FolderFault> {
        self.shelf.sync_folder()
    }

    fn failures(&self) -> u64 {
        self.shelf.failures()
    }
}

impl<'a> ReadsTables for SilentShelf<'a> {
    type Reader = NoReader;

    fn reader(&self) -> NoReader
        ensures { IsToldBy (⟦<NoReader as TableReader>⟧.tells result)
            (⟦<SilentShelf<'a> as Folder>⟧.tells self.now) }
    {
        NoReader
    }
}

impl<'a> WritesTables for SilentShelf<'a> {
    type Maker = ShelfMaker;

    fn maker(&mut self) -> ShelfMaker {
        ShelfMaker
    }

    fn sync_tables<T: Threads + Sync>(
        &mut self,
        rt: &T,
        tables: &SourceTables,
        made: Option<Vec<(u64, Vec<u8>)>>,
    ) -> Result<(), FolderFault>
        requires { IfSome made (λ made.
            AllZip ⟦<ShelfMaker as TableMaker>⟧.is_of made.items tables.now.tables) }
        ensures calls { ⟦<SilentShelf<'a> as Folder>⟧.calls self.new
            ≡ ⟦<SilentShelf<'a> as Folder>⟧.calls self.old
            ++ step_of (Written (named_tables tables.now.tables)) result ∷ [] }
        ensures change { TellsAfter (step_of (Written (named_tables tables.now.tables)) result)
            (⟦<SilentShelf<'a> as Folder>⟧.tells self.old)
            (⟦<SilentShelf<'a> as Folder>⟧.tells self.new) }
        ensures failures { ⟦<SilentShelf<'a> as Folder>⟧.failed self.new
            ≡ failures_after (⟦<SilentShelf<'a> as Folder>⟧.failed self.old) result }
    {
        self.shelf.sync_tables(rt, tables, made)
    }
}
