//! Tables that are made and synced together: those that are held, and those of a source.

ghost use Rattle.std.specs.Prelude.{◌≡◌};

use crate::folder_disk_tests::{has, make_folder, new_path, remove_folder};
use crate::folder_system_tests::path_of;
use crate::folder_told_tests::is_told;
use crate::known_versions::{Tables, made};
use board::Open;
use coding::{Fault, FaultName};
use disk::Disk;
use folder::*;
use shelf::Shelf;
use std::alloc::Global;
use std::process::Abort;
use std::rt::Files;
use std::thread::Threads;

const THREE: Tables = &[(3, b"three"), (5, b"five"), (8, b"")];

/// Those tables by the names of their files.
const OF_THREE: &[(&str, &[u8])] = &[
    ("000003.ldb", b"three"),
    ("000005.ldb", b"five"),
    ("000008.ldb", b""),
];

/// Of one number twice the last table counts.
const TWICE: Tables = &[(5, b"five"), (5, b"another")];

/// Where the tables are until they are written.
#[derive(Clone, Copy, Debug)]
enum Form {
    /// All of them are held.
    Held,
    /// Each is made by one of n workers.
    Made(u64),
}

/// Ways in which tables are written. Workers are 1 to 64; others are as the nearest of these.
const FORMS: &[Form] = &[
    Form::Held,
    Form::Made(0),
    Form::Made(2),
    Form::Made(u64::MAX),
];

/// Tables that are made when they are asked for.
#[derive(Clone, Copy)]
struct Given {
    tables: Tables,
    /// The place of one for which there is no memory.
    without_memory: Option<usize>,
}

impl TableSource for Given {
    ghost use Rattle.std.specs.Prelude.{map};

    ghost tables = { λ s. map (λ t. (t.0, t.1.now)) s.tables.now };

    fn len(&self) -> usize {
        self.tables.len()
    }

    fn number(&self, place: usize) -> u64 {
        self.tables[place].0
    }

    fn table(&self, alloc: Global, place: usize) -> Result<(u64, Vec<u8>), Fault> {
        if self.without_memory == Some(place) {
            return Err(Fault::of(FaultName::Memory));
        }
        let (number, bytes) = self.tables[place];
        Ok((number, Vec::from_slice(alloc, bytes)?))
    }
}

/// Writes these tables into a folder.
fn written<F: WritesTables, R: Threads + Sync>(
    rt: &R,
    alloc: Global,
    folder: &mut F,
    wanted: Tables,
    form: Form,
) -> Result<(), FolderFault> {
    match form {
        Form::Held => {
            let tables = made(alloc, wanted)?;
            folder.write_tables(rt, &tables)
        }
        Form::Made(workers) => {
            let source = Given {
                tables: wanted,
                without_memory: None,
            };
            write_source(rt, alloc, folder, &source, workers, &Open)
        }
    }
}

/// Whether a folder has what THREE and then TWICE leave.
fn has_tables(folder: &mut impl Folder) -> bool {
    has(folder, "000003.ldb", Some(b"three"))
        && has(folder, "000005.ldb", Some(b"another"))
        && has(folder, "000008.ldb", Some(b""))
}

/// Whether a folder takes tables in this form, then others, and then none.
fn are_written<R: Threads + Sync>(
    rt: &R,
    alloc: Global,
    disk: &mut Disk<'_, HostRuntime>,
    form: Form,
) -> bool {
    written(rt, alloc, disk, THREE, form).is_ok()
        && written(rt, alloc, disk, TWICE, form).is_ok()
        && written(rt, alloc, disk, &[], form).is_ok()
        && has_tables(disk)
        && disk.failures() == 0
}

#[test]
fn tables_are_written_together(rt: HostRuntime) {
    for form in FORMS {
        let path = new_path(&rt, "together").expect(&rt, "a path");
        make_folder(&rt, path.as_str());
        let mut disk = Disk::new(&rt, path.as_str());
        assert!(rt; are_written(&rt, rt.alloc(), &mut disk, *form), "{form:?}");
        remove_folder(&rt, path.as_str());
    }
}

/// Whether a folder of the system has those of the three tables whose names are not this one.
fn has_others(folder: &mut impl Folder, name: &str) -> bool {
    for (other, bytes) in OF_THREE {
        if *other != name && !has(folder, other, Some(bytes)) {
            return false;
        }
    }
    true
}

/// Makes a folder of the system, and in it one that has the name of a table.
fn take(rt: &(impl Files + Abort), alloc: Global, path: &str, name: &str) {
    let taken = path_of(rt, alloc, path, name);
    make_folder(rt, path);
    make_folder(rt, taken.as_str());
}

/// Whether the newest call that failed was to make this table, whose name is taken.
fn is_told_of(rt: &impl Abort, alloc: Global, disk: &Disk<'_, HostRuntime>, name: &str) -> bool {
    let line = format!(in alloc; "cannot create {name}: Is a directory").expect(rt, "memory");
    is_told(rt, alloc, disk, line.as_str())
}

/// Whether the other tables are written into this folder, if it has the name of one.
fn keeps_no_other_out<R: Threads + Sync + Abort>(
    rt: &R,
    alloc: Global,
    disk: &mut Disk<'_, HostRuntime>,
    name: &str,
    form: Form,
) -> bool {
    written(rt, alloc, disk, THREE, form) == Err(FolderFault::Device)
        && disk.failures() == 1
        && is_told_of(rt, alloc, disk, name)
        && has_others(disk, name)
}

/// A table that isn't made doesn't keep the others out.
#[test]
fn each_table_that_is_not_made(rt: HostRuntime) {
    for (name, _) in OF_THREE {
        for form in FORMS {
            let path = new_path(&rt, name).expect(&rt, "a path");
            take(&rt, rt.alloc(), path.as_str(), name);
            let mut disk = Disk::new(&rt, path.as_str());
            assert!(rt;
                keeps_no_other_out(&rt, rt.alloc(), &mut disk, name, *form),
                "{name} {form:?}"
            );
            remove_folder(&rt, path.as_str());
        }
    }
}

/// Whether a folder answers Memory, if memory runs out for the table at `place`.
fn runs_out<F: WritesTables, R: Threads + Sync>(
    rt: &R,
    alloc: Global,
    folder: &mut F,
    place: usize,
    workers: u64,
) -> bool {
    let source = Given {
        tables: THREE,
        without_memory: Some(place),
    };
    write_source(rt, alloc, folder, &source, workers, &Open) == Err(FolderFault::Memory)
        && folder.failures() == 0
}

/// Whether neither a folder of the system nor one in memory takes a table if memory runs out for
/// the one at `place`, and the first takes all after that.
fn goes_on<R: Threads + Sync>(
    rt: &R,
    alloc: Global,
    disk: &mut Disk<'_, HostRuntime>,
    place: usize,
    workers: u64,
) -> bool {
    let mut shelf = Shelf::new(alloc, &[]);
    runs_out(rt, alloc, disk, place, workers)
        && runs_out(rt, alloc, &mut shelf, place, workers)
        && shelf.calls() == 0
        && written(rt, alloc, disk, THREE, Form::Made(workers)).is_ok()
        && has_others(disk, "")
}

#[test]
fn each_table_without_memory(rt: HostRuntime) {
    for place in 0..THREE.len() {
        for workers in [1, 4] {
            let path = new_path(&rt, "memory").expect(&rt, "a path");
            make_folder(&rt, path.as_str());
            let mut disk = Disk::new(&rt, path.as_str());
            assert!(rt;
                goes_on(&rt, rt.alloc(), &mut disk, place, workers),
                "{place} {workers}"
            );
            remove_folder(&rt, path.as_str());
        }
    }
}
