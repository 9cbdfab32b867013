//! Tables that are made files of the system and synced, each by one of several threads.

ghost use Rattle.std.specs.Prelude.{◌≡◌, ◌<◌, length, IfOk, IfErr, IfSome};
ghost use Rattle.ikey.specs.Answers.{fault};
ghost use Rattle.ikey.specs.fault.FaultName.TheVariants.{Memory};

use crate::file_access::{Access, access_in, new_file};
use crate::system_files::{MakesFiles, OwnedFiles};
use crate::whole_files::path_in;
use folder::{FolderCall, TableMaker, table_name};
use ikey::Fault;
use std::alloc::Global;
use std::fs::File;
use std::io::{ErrorKind, Write};
use std::rt::Files;
use std::{fs, io};

/// A table that is to be made a file and synced, or that was.
#[derive(Drop)]
pub struct MadeTable {
    pub(crate) name: String,
    path: String,
    /// The last call on it, and what that answered.
    pub(crate) call: FolderCall,
    pub(crate) answer: io::Result<()>,
}

impl MadeTable {
    /// The table of a `number` that is to be made a file of a folder.
    fn of_number(alloc: Global, folder: &str, number: u64) -> Result<MadeTable, Fault>
        ensures { IfErr result (λ e. e ≡ fault Memory) }
    {
        let name = table_name(alloc, number)?;
        let path = path_in(alloc, folder, name.as_str())?;
        Ok(MadeTable {
            name,
            path,
            call: FolderCall::Create,
            answer: Ok(()),
        })
    }

    /// Syncs the file that was made, by the same handle; or keeps why it wasn't made.
    fn sync(&mut self, made: io::Result<File>) {
        match made {
            Ok(file) => {
                self.call = FolderCall::Sync;
                self.answer = file.sync_all();
            }
            Err(error) => self.answer = Err(error),
        }
    }

    /// Makes the file and syncs it.
    pub(crate) fn write<R: OwnedFiles>(
        &mut self,
        rt: &R,
        access: io::Result<Option<Access>>,
        bytes: &[u8],
    ) {
        let made = file_at(rt, self.path.as_str(), access, bytes);
        self.sync(made);
    }
}

/// What makes tables files of a folder of the system, in any thread.
#[derive(Drop)]
pub struct DiskMaker<'r, R> {
    rt: &'r R,
    alloc: Global,
    folder: &'r str,
    /// Who may use the files, or why that isn't known.
    access: io::Result<Option<Access>>,
}

impl<'r, R: OwnedFiles + AllocGlobal> DiskMaker<'r, R> {
    /// What makes files of this `folder`. Who may use them, the CURRENT of `owner` says.
    pub(crate) fn new(rt: &'r R, folder: &'r str, owner: &str) -> DiskMaker<'r, R> {
        let alloc = rt.alloc();
        DiskMaker {
            rt,
            alloc,
            folder,
            access: access_in(rt, alloc, owner),
        }
    }
}

impl<'r, R: MakesFiles> TableMaker for DiskMaker<'r, R> {
    type Made = MadeTable;

    ghost is_of = { λ _ _. Unit {0} };

    fn make(&self, number: u64, bytes: Vec<u8>) -> Result<MadeTable, Fault> {
        let mut table = MadeTable::of_number(self.alloc, self.folder, number)?;
        let made = match self.access {
            Ok(access) => self.rt.made(table.path.as_str(), access, &bytes),
            Err(error) => Err(error),
        };
        table.sync(made);
        Ok(table)
    }
}

/// The files that these tables are to be in a folder, each under the name of its number.
pub(crate) fn files_of(
    alloc: Global,
    folder: &str,
    tables: &[(u64, Vec<u8>)],
) -> Result<Vec<MadeTable>, Fault>
    ensures { IfOk result (λ files. length files.items ≡ length tables.now) }
{
    let mut files = Vec::with_capacity(alloc, tables.len())?;
    for (number, _) in tables {
        files.push(MadeTable::of_number(alloc, folder, *number)?)?;
    }
    Ok(files)
}

/// Makes each of these tables its file and syncs it, one after the other.
pub(crate) fn write_in_turn<R: OwnedFiles>(
    rt: &R,
    access: io::Result<Option<Access>>,
    tables: &[(u64, Vec<u8>)],
    files: &mut [MadeTable],
)
    requires { length files.old ≡ length tables.now }
{
    for (place, file) in files.iter_mut().enumerate() {
        file.write(rt, access, &tables[place].1);
    }
}

/// The place of the first file that the device failed; if it failed none, that of the first one for
/// which memory ran out. None if all were made and synced.
pub(crate) fn first_failed(files: &[MadeTable]) -> Option<usize>
    ensures { IfSome result (λ place. place < length files.now) }
{
    match place_of_failed(files, true) {
        Some(place) => Some(place),
        None => place_of_failed(files, false),
    }
}

/// The place of the first file that failed: by the device, or for any reason.
fn place_of_failed(files: &[MadeTable], is_by_device: bool) -> Option<usize>
    ensures { IfSome result (λ place. place < length files.now) }
{
    for (place, file) in files.iter().enumerate() {
        if has_failed(&file.answer, is_by_device) {
            return Some(place);
        }
    }
    None
}

/// Whether a call failed: by the device, or for any reason.
fn has_failed(answer: &io::Result<()>, is_by_device: bool) -> bool {
    match answer {
        Ok(()) => false,
        Err(error) => !is_by_device || error.kind() != ErrorKind::OutOfMemory,
    }
}

/// Makes a file anew as [`made_at`] does, if who may use it is known.
fn file_at<R: OwnedFiles>(
    rt: &R,
    path: &str,
    access: io::Result<Option<Access>>,
    bytes: &[u8],
) -> io::Result<File> {
    made_at(rt, path, access?, bytes)
}

/// Makes a file anew at `path`, of these bytes. What was there before keeps its bytes, if it has
/// another name or is open elsewhere.
///
/// If that fails, the part of the file that was written is removed, if it can be. Else a disk that
/// is full would stay full.
pub(crate) fn made_at<R: OwnedFiles>(
    rt: &R,
    path: &str,
    access: Option<Access>,
    bytes: &[u8],
) -> io::Result<File> {
    remove_at(rt, path)?;
    let made = written_at(rt, path, access, bytes);
    if let Err(error) = &made
        // Then another program has made the file.
        && error.kind() != ErrorKind::AlreadyExists
    {
        let _ = remove_at(rt, path);
    }
    made
}

/// Makes a file at `path`, where none is.
fn written_at<R: OwnedFiles>(
    rt: &R,
    path: &str,
    access: Option<Access>,
    bytes: &[u8],
) -> io::Result<File> {
    let mut file = new_file(rt, path, access)?;
    file.write_all(bytes)?;
    Ok(file)
}

/// Removes the file at `path`, if it is there.
pub(crate) fn remove_at<R: Files>(rt: &R, path: &str) -> io::Result<()> {
    match fs::remove_file(rt, path) {
        Err(error) if error.kind() == ErrorKind::NotFound => Ok(()),
        answer => answer,
    }
}
