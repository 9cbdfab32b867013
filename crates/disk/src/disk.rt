//! A folder of the system.

ghost use Rattle.std.specs.Prelude.{◌≡◌, [], ◌∷◌, ◌++◌};
ghost use Rattle.std.specs.Thread.{IsSync};
ghost use Rattle.folder.specs.Calls.{TellsAfter, Written, step_of};
ghost use Rattle.folder.specs.Folder.{IsToldBy, failures_after};
ghost use Rattle.folder.specs.Attempts.{call_in};
ghost use Rattle.folder.specs.TableFiles.{named_tables};

use crate::call_record::CallRecord;
use crate::disk_reader::DiskReader;
use crate::due_files::{files_due, numbers_in};
use crate::failure::{Failure, text_kept};
use crate::file_access::access_in;
use crate::made_table::{DiskMaker, MadeTable, files_of, write_in_turn};
use crate::pending_files::PendingFiles;
use crate::system::{Place, done_in, part_in, read_in};
use crate::system_files::{MakesFiles, SystemFiles};
use crate::table_sizes::{Sizes, sizes_in};
use crate::whole_files::{WholeFiles, sync_all};
use edit::Version;
use folder::{
    AnyWrite, Folder, FolderCall, FolderFault, Order, ReadsTables, SourceTables, TableReader,
    WriteCall, WritesTables, table_name,
};
use ikey::{Fault, FaultName};
use std::marker::Model;
use std::thread::Threads;

/// A folder of the system, at a path. It tells contracts nothing of what it holds.
///
/// Names are taken as they are, so they must not have a slash.
#[derive(Drop)]
pub struct Disk<'r, R> {
    rt: &'r R,
    path: &'r str,
    /// The path of the folder whose CURRENT says who may use new files.
    owner: &'r str,
    history: CallRecord,
    kept: PendingFiles,
}

impl<'r, R> Model for Disk<'r, R> {
    ghost use Rattle.disk.specs.CallHistory.{CallHistory};

    ghost Value = { CallHistory };

    ghost view = { λ d. d.history };
}

impl<'r, R: SystemFiles + AllocGlobal> Disk<'r, R> {
    /// The folder at `path`. No call of it has failed yet, and nothing is read.
    pub fn new(rt: &'r R, path: &'r str) -> Disk<'r, R>
        ensures failed { ⟦<Disk<'r, R> as Folder>⟧.failed result ≡ 0 }
        ensures calls { ⟦<Disk<'r, R> as Folder>⟧.calls result ≡ [] }
    {
        Disk::owned_as(rt, path, path)
    }

    /// The same, but the CURRENT of the folder at `owner` says who may use its new files, and whose
    /// they are.
    pub fn owned_as(rt: &'r R, path: &'r str, owner: &'r str) -> Disk<'r, R>
        ensures failed { ⟦<Disk<'r, R> as Folder>⟧.failed result ≡ 0 }
        ensures calls { ⟦<Disk<'r, R> as Folder>⟧.calls result ≡ [] }
    {
        Disk {
            rt,
            path,
            owner,
            history: CallRecord::new(rt.alloc()),
            kept: PendingFiles::new(rt.alloc()),
        }
    }

    /// The number of the first table of `version`, as [`load`](folder::load) asks for them, of more
    /// than 2^30 bytes. None is read.
    ///
    /// - Missing: a table is missing.
    /// - Memory: out of memory.
    ///
    /// Tables from the first on that the system tells nothing of are not tested, since loading
    /// fails there.
    pub fn large_table(&mut self, order: Order, version: &Version) -> Result<Option<u64>, Fault> {
        let alloc = self.rt.alloc();
        let numbers = numbers_in(alloc, order, version)?;
        match sizes_in(self.rt, alloc, self.path, &numbers)? {
            Sizes::Missing(number) => {
                self.history.last_read = table_name(alloc, number)?;
                Err(Fault::of(FaultName::Missing))
            }
            Sizes::TooLarge(number) => Ok(Some(number)),
            Sizes::Readable => Ok(None),
        }
    }

    /// The newest call that failed by the device. None if none did.
    pub fn last_failure(&self) -> Option<&Failure> {
        self.history.last_failure.as_ref()
    }

    /// The name of the file that was read last, whether it was there or not; or of the table that
    /// [`Disk::large_table`] found missing since. None if there is none.
    pub fn last_read(&self) -> Option<&str> {
        let name = self.history.last_read.as_str();
        if name.is_empty() { None } else { Some(name) }
    }
}

impl<'r, R: SystemFiles + WholeFiles + AllocGlobal + Threads> Disk<'r, R> {
    /// Syncs the files of `version` by several threads, before [`Folder::sync`] of them is asked
    /// for. These are CURRENT, the manifest of the number `manifest`, and each table, under its
    /// older name if it has only that.
    ///
    /// A later sync of such a file makes no call and answers as this one did, until a file is made,
    /// renamed or removed. If this one failed, that lasts until the file itself is made, renamed or
    /// removed. A file that can't be opened now, for whatever reason, is synced when that is asked
    /// for.
    pub fn sync_ahead(&mut self, order: Order, version: &Version, manifest: u64)
        ensures failed { ⟦<Disk<'r, R> as Folder>⟧.failed self.new
            ≡ ⟦<Disk<'r, R> as Folder>⟧.failed self.old }
        ensures calls { ⟦<Disk<'r, R> as Folder>⟧.calls self.new
            ≡ ⟦<Disk<'r, R> as Folder>⟧.calls self.old }
    {
        let alloc = self.rt.alloc();
        if let Ok(mut files) = files_due(alloc, order, version, manifest) {
            sync_all(self.rt, alloc, self.path, &mut files);
            self.kept.keep_ahead(files);
        }
    }
}

impl<'r, R: SystemFiles + AllocGlobal> Folder for Disk<'r, R> {
    ghost tells = { λ _ _ _. Unit {0} };

    ghost calls = { λ disk. disk.trail };

    ghost failed = { λ disk. disk.failures };

    ghost readings = { λ disk. disk.readings };

    fn read(&mut self, name: &str) -> Result<Option<Vec<u8>>, FolderFault> {
        self.history.last_read = text_kept(self.rt.alloc(), name);
        let found = read_in(self.rt, self.rt.alloc(), self.path, name);
        let answer = self.history.counted(found, FolderCall::Read, name);
        self.history.has_read(name, &answer);
        answer
    }

    fn read_part(
        &mut self,
        name: &str,
        offset: u64,
        len: usize,
    ) -> Result<Option<Vec<u8>>, FolderFault> {
        self.history.last_read = text_kept(self.rt.alloc(), name);
        let answer = part_in(self.rt, self.rt.alloc(), self.path, name, offset, len);
        self.history.counted(answer, FolderCall::Read, name)
    }

    fn create(&mut self, name: &str, bytes: &[u8]) -> Result<(), FolderFault> {
        self.write(WriteCall::Create(name, bytes))
    }

    fn write_tables<T: Threads + Sync>(
        &mut self,
        rt: &T,
        tables: &[(u64, Vec<u8>)],
    ) -> Result<(), FolderFault> {
        let answer = self.made(rt, tables);
        self.history.wrote(AnyWrite::Tables(tables), answer)
    }

    fn sync(&mut self, name: &str) -> Result<(), FolderFault> {
        self.write(WriteCall::Sync(name))
    }

    fn rename(&mut self, from: &str, to: &str) -> Result<(), FolderFault> {
        self.write(WriteCall::Rename(from, to))
    }

    fn remove(&mut self, name: &str) -> Result<(), FolderFault> {
        self.write(WriteCall::Remove(name))
    }

    fn sync_folder(&mut self) -> Result<(), FolderFault> {
        self.write(WriteCall::SyncFolder)
    }

    fn failures(&self) -> u64 {
        self.history.failures
    }
}

impl<'r, R: SystemFiles + WholeFiles + AllocGlobal> ReadsTables for Disk<'r, R> {
    type Reader = DiskReader<'r, R>;

    fn reader(&self) -> DiskReader<'r, R>
        ensures { IsToldBy (⟦<DiskReader<'r, R> as TableReader>⟧.tells result)
            (⟦<Disk<'r, R> as Folder>⟧.tells self.now) }
    {
        DiskReader {
            rt: self.rt,
            folder: self.path,
        }
    }
}

impl<'r, R: SystemFiles + MakesFiles + AllocGlobal> WritesTables for Disk<'r, R> {
    type Maker = DiskMaker<'r, R>;

    fn maker(&mut self) -> DiskMaker<'r, R> {
        self.kept.forget_ahead("");
        DiskMaker::new(self.rt, self.path, self.owner)
    }

    fn sync_tables<T: Threads + Sync>(
        &mut self,
        _rt: &T,
        tables: &SourceTables,
        made: Option<Vec<MadeTable>>,
    ) -> Result<(), FolderFault>
        requires { IsSync T.row }
        ensures calls { ⟦<Disk<'r, R> as Folder>⟧.calls self.new
            ≡ ⟦<Disk<'r, R> as Folder>⟧.calls self.old
            ++ step_of (Written (named_tables tables.now.tables)) result ∷ [] }
        ensures change { TellsAfter (step_of (Written (named_tables tables.now.tables)) result)
            (⟦<Disk<'r, R> as Folder>⟧.tells self.old) (⟦<Disk<'r, R> as Folder>⟧.tells self.new) }
        ensures failures { ⟦<Disk<'r, R> as Folder>⟧.failed self.new
            ≡ failures_after (⟦<Disk<'r, R> as Folder>⟧.failed self.old) result }
    {
        let answer = self.counted_made(made);
        self.history.wrote(AnyWrite::Made(tables), answer)
    }
}

impl<'r, R: SystemFiles + AllocGlobal> Disk<'r, R> {
    /// Makes tables and syncs them: by several threads if their numbers rise, else one after the
    /// other. No more memory is taken after the first one is begun.
    fn made<T: Threads + Sync>(
        &mut self,
        rt: &T,
        tables: &[(u64, Vec<u8>)],
    ) -> Result<(), FolderFault>
        ensures failures { self.new.failures ≡ failures_after self.old.failures result }
        ensures trail { self.new.trail ≡ self.old.trail }
        ensures readings { self.new.readings ≡ self.old.readings }
    {
        let Ok(mut files) = files_of(self.rt.alloc(), self.path, tables) else {
            return Err(FolderFault::Memory);
        };
        self.kept.forget_all(&files);
        let access = access_in(self.rt, self.rt.alloc(), self.owner);
        if are_rising(tables) {
            self.rt.write_all(rt, access, tables, &mut files);
        } else {
            write_in_turn(self.rt, access, tables, &mut files);
        }
        self.history.counted_all(&files)
    }

    /// What the making and syncing of tables answered. None if memory ran out before all were made.
    fn counted_made(&mut self, made: Option<Vec<MadeTable>>) -> Result<(), FolderFault>
        ensures failures { self.new.failures ≡ failures_after self.old.failures result }
        ensures trail { self.new.trail ≡ self.old.trail }
        ensures readings { self.new.readings ≡ self.old.readings }
    {
        let Some(files) = made else {
            return Err(FolderFault::Memory);
        };
        self.kept.forget_all(&files);
        self.history.counted_all(&files)
    }

    /// Makes a call that writes, and records it.
    fn write(&mut self, call: WriteCall<'_>) -> Result<(), FolderFault>
        ensures trail { self.new.trail ≡ self.old.trail
            ++ step_of (call_in call.entry) result ∷ [] }
        ensures failures { self.new.failures ≡ failures_after self.old.failures result }
        ensures readings { self.new.readings ≡ self.old.readings }
    {
        let place = Place {
            folder: self.path,
            owner: self.owner,
        };
        let done = done_in(self.rt, self.rt.alloc(), place, &mut self.kept, call);
        let (kind, name) = call.told();
        let answer = self.history.counted(done, kind, name);
        self.history.wrote(AnyWrite::One(call), answer)
    }
}

/// Whether the numbers of tables rise, so that no two are one.
fn are_rising(tables: &[(u64, Vec<u8>)]) -> bool {
    tables.is_sorted_by(|table, other| table.0 < other.0)
}
