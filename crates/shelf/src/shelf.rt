//! A folder in memory, for tests.

ghost use Rattle.std.specs.Prelude.{◌≡◌, [], ◌∷◌, ◌++◌, map, IfOk, IfSome};
ghost use Rattle.std.specs.List.{AllZip};
ghost use Rattle.std.specs.Option.{option_map};
ghost use Rattle.folder.specs.Calls.{Tells, TellsAfter, Written, step_of};
ghost use Rattle.folder.specs.Folder.{IsToldBy, failures_after};
ghost use Rattle.folder.specs.TableFiles.{named_tables};
ghost use Rattle.shelf.specs.Shelf.{files_in, held_by};

use crate::call_record::{CallRecord, Failing};
use crate::shelf_step::{ShelfStep, Source};
use folder::{
    AnyWrite, Folder, FolderFault, NoReader, Readings, ReadsTables, SourceTables, TableMaker,
    TableReader, Trail, WriteCall, WritesTables, part_of,
};
use ikey::Fault;
use std::alloc::Global;
use std::marker::Model;
use std::thread::Threads;

/// A folder in memory, of lent files. One of its calls may fail. It records the calls that write.
/// Tables are made one after the other, and each counts as two calls.
///
/// Out of memory a call is `Memory` and changes nothing.
#[derive(Drop)]
pub struct Shelf<'a> {
    start: &'a [(&'a str, &'a [u8])],
    history: CallRecord,
}

/// What keeps tables until they are put on a shelf.
#[derive(Clone, Copy, Drop)]
pub struct ShelfMaker;

impl<'a> Model for Shelf<'a> {
    ghost use Rattle.std.specs.Prelude.{map};
    ghost use Rattle.shelf.specs.Shelf.{ShelfView};

    ghost Value = { ShelfView };

    ghost view = { λ s. record {
      start = map (λ f. (f.0.now, f.1.now)) s.start.now;
      made = s.history;
    } };
}

impl<'a> Shelf<'a> {
    /// The folder of these files by their names. Of several files of one name the first counts. No
    /// call fails.
    pub fn new(alloc: Global, files: &'a [(&'a str, &'a [u8])]) -> Shelf<'a>
        ensures tells { Tells (⟦<Shelf<'a> as Folder>⟧.tells result)
            (files_in (map (λ f. (f.0.now, f.1.now)) files.now)) }
        ensures calls { ⟦<Shelf<'a> as Folder>⟧.calls result ≡ [] }
        ensures failed { ⟦<Shelf<'a> as Folder>⟧.failed result ≡ 0 }
        ensures none { result
            ≡ record {
              start = map (λ f. (f.0.now, f.1.now)) files.now;
              made = record { steps = []; trail = []; readings = []; calls = 0; failures = 0 };
            } }
    {
        let history = CallRecord {
            alloc,
            steps: Vec::new(alloc),
            failing: None,
            calls: 0,
            failures: 0,
            trail: Trail::new(),
            readings: Readings::none(),
        };
        let start = files;
        Shelf { start, history }
    }

    /// The same folder, of which this call fails.
    pub fn failing(self, failing: Failing) -> Shelf<'a>
        ensures { result ≡ self.entry }
    {
        Shelf {
            history: CallRecord {
                failing: Some(failing),
                ..self.history
            },
            ..self
        }
    }

    /// How many calls were made, up to 2^64 - 1.
    pub fn calls(&self) -> u64
        ensures { result ≡ self.now.made.calls }
    {
        self.history.calls
    }

    /// The calls that write, the newest first. One that ran out of memory is left out.
    pub fn steps(&self) -> &[ShelfStep]
        ensures { result.now ≡ self.now.made.steps }
    {
        &self.history.steps
    }

    /// The calls that write, as contracts see them.
    pub fn trail(&self) -> &Trail
        ensures { result.now.steps ≡ self.now.made.trail }
    {
        &self.history.trail
    }

    /// The bytes under a `name`. None if no file has it.
    pub fn file<'x>(&'x self, name: &'x str) -> Option<&'x [u8]>
        ensures { ⟦<Shelf<'a> as Folder>⟧.tells self.now name.now
            (option_map (λ bytes. bytes.now) result) }
    {
        let mut sought = name;
        for step in &self.history.steps {
            match step.source(sought) {
                Source::Bytes(bytes) => return Some(bytes),
                Source::Nothing => return None,
                Source::Name(other) => sought = other,
            }
        }
        file_of(self.start, sought)
    }
}

impl<'a> Folder for Shelf<'a> {
    ghost tells = { λ shelf name held. held_by shelf name ≡ held };

    ghost calls = { λ shelf. shelf.made.trail };

    ghost failed = { λ shelf. shelf.made.failures };

    ghost readings = { λ shelf. shelf.made.readings };

    fn read(&mut self, name: &str) -> Result<Option<Vec<u8>>, FolderFault> {
        let answer = self.copy_of(name);
        self.history.has_read(name, &answer);
        answer
    }

    fn read_part(
        &mut self,
        name: &str,
        offset: u64,
        len: usize,
    ) -> Result<Option<Vec<u8>>, FolderFault> {
        self.history.read()?;
        match self.file(name) {
            Some(bytes) => Ok(Some(Vec::from_slice(
                self.history.alloc,
                part_of(bytes, offset, len),
            )?)),
            None => Ok(None),
        }
    }

    fn create(&mut self, name: &str, bytes: &[u8]) -> Result<(), FolderFault> {
        self.history.write(WriteCall::Create(name, bytes))
    }

    fn write_tables<T: Threads + Sync>(
        &mut self,
        _rt: &T,
        tables: &[(u64, Vec<u8>)],
    ) -> Result<(), FolderFault> {
        let answer = self.history.record_tables(tables);
        self.history.wrote(AnyWrite::Tables(tables), answer)
    }

    fn sync(&mut self, name: &str) -> Result<(), FolderFault> {
        self.history.write(WriteCall::Sync(name))
    }

    fn rename(&mut self, from: &str, to: &str) -> Result<(), FolderFault> {
        self.history.write(WriteCall::Rename(from, to))
    }

    fn remove(&mut self, name: &str) -> Result<(), FolderFault> {
        self.history.write(WriteCall::Remove(name))
    }

    fn sync_folder(&mut self) -> Result<(), FolderFault> {
        self.history.write(WriteCall::SyncFolder)
    }

    fn failures(&self) -> u64 {
        self.history.failures
    }
}

impl<'a> ReadsTables for Shelf<'a> {
    type Reader = NoReader;

    fn reader(&self) -> NoReader
        ensures { IsToldBy (⟦<NoReader as TableReader>⟧.tells result)
            (⟦<Shelf<'a> as Folder>⟧.tells self.now) }
    {
        NoReader
    }
}

impl<'a> WritesTables for Shelf<'a> {
    type Maker = ShelfMaker;

    fn maker(&mut self) -> ShelfMaker {
        ShelfMaker
    }

    fn sync_tables<T: Threads + Sync>(
        &mut self,
        _rt: &T,
        tables: &SourceTables,
        made: Option<Vec<(u64, Vec<u8>)>>,
    ) -> Result<(), FolderFault>
        requires { IfSome made (λ made.
            AllZip ⟦<ShelfMaker as TableMaker>⟧.is_of made.items tables.now.tables) }
        ensures calls { ⟦<Shelf<'a> as Folder>⟧.calls self.new
            ≡ ⟦<Shelf<'a> as Folder>⟧.calls self.old
            ++ step_of (Written (named_tables tables.now.tables)) result ∷ [] }
        ensures change { TellsAfter (step_of (Written (named_tables tables.now.tables)) result)
            (⟦<Shelf<'a> as Folder>⟧.tells self.old) (⟦<Shelf<'a> as Folder>⟧.tells self.new) }
        ensures failures { ⟦<Shelf<'a> as Folder>⟧.failed self.new
            ≡ failures_after (⟦<Shelf<'a> as Folder>⟧.failed self.old) result }
    {
        let answer = self.history.record_made(made);
        self.history.wrote(AnyWrite::Made(tables), answer)
    }
}

impl TableMaker for ShelfMaker {
    type Made = (u64, Vec<u8>);

    ghost use Rattle.std.specs.Prelude.{◌≡◌};

    ghost is_of = { λ made table. (made.0, made.1.items) ≡ table };

    fn make(&self, number: u64, bytes: Vec<u8>) -> Result<(u64, Vec<u8>), Fault> {
        Ok((number, bytes))
    }
}

impl<'a> Shelf<'a> {
    /// A copy of the bytes of a file. None if no file has this `name`.
    fn copy_of(&mut self, name: &str) -> Result<Option<Vec<u8>>, FolderFault>
        ensures held { IfOk result (λ held. held_by self.old name.now
            ≡ option_map (λ bytes. bytes.items) held) }
        ensures start { self.new.start ≡ self.old.start }
        ensures steps { self.new.made.steps ≡ self.old.made.steps }
        ensures failures { self.new.made.failures
            ≡ failures_after self.old.made.failures result }
        ensures trail { self.new.made.trail ≡ self.old.made.trail }
        ensures readings { self.new.made.readings ≡ self.old.made.readings }
    {
        self.history.read()?;
        match self.file(name) {
            Some(bytes) => Ok(Some(Vec::from_slice(self.history.alloc, bytes)?)),
            None => Ok(None),
        }
    }
}

/// The bytes of the first file of a `name`.
fn file_of<'x>(files: &'x [(&'x str, &'x [u8])], name: &str) -> Option<&'x [u8]>
    ensures { option_map (λ bytes. bytes.now) result
        ≡ files_in (map (λ f. (f.0.now, f.1.now)) files.now) name.now }
{
    for (file, bytes) in files {
        if name == *file {
            return Some(bytes);
        }
    }
    None
}
