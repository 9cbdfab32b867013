//! What is told of an unlawful version: the first fault that all its tables have.

ghost use Rattle.folder.specs.Reports.{OnlyReads};

use crate::stated_tables::table_file;
use crate::words::{Stated, file_fault};
use checks::{Open, checkers};
use coding::{Fault, FaultName};
use disk::Disk;
use edit::{LEVELS, Version};
use faults::{FaultTaker, FileFault, all_faults};
use folder::{Folder, Opened, Order, open};
use ikey::{Bytewise, Comparator, KeyBuf, Kind, MAX_SEQUENCE, MAX_USER_KEY, Shortlex};
use session::{Host, RefusalText, Telling, path_in, table_file_name};
use std::alloc::Global;
use table::{Cursor, TableCursor, check};
use texts::text_of;

/// What a manifest states of a table.
const MANIFEST: Stated = Stated {
    by: "the manifest",
    remedy: "restore the file from a copy",
};

/// What to do about tables that don't go together.
const RESTORE: &str = "restore the folder from a copy";

/// What is told of the first fault of a folder's version for which it is refused by this name,
/// Lawless or Bounds. None if there is none, or if it can't be found. All tables are read again, in
/// the memory that is told.
pub(crate) fn unlawful_refusal<R: Host>(
    rt: &R,
    telling: Telling<'_>,
    name: FaultName,
) -> Option<RefusalText> {
    let mut folder = Disk::new(rt, telling.folder);
    let opened = open(rt.alloc(), &mut folder).ok()?;
    let mut finder = FaultFinder {
        rt,
        path: telling.folder,
        opened: &opened,
        name,
        told: None,
    };
    let workers = checkers(rt, rt.alloc(), &Open);
    let found = all_faults(&workers, &mut folder, &opened, telling.memory, &mut finder);
    match found {
        Ok(_) => finder.told,
        Err(_) => None,
    }
}

/// Who is told faults until the first one of a name, and keeps what is told of it.
#[derive(Drop)]
struct FaultFinder<'t, R> {
    rt: &'t R,
    path: &'t str,
    opened: &'t Opened,
    name: FaultName,
    told: Option<RefusalText>,
}

impl<'t, R: Host> FaultTaker for FaultFinder<'t, R> {
    fn file_fault(&mut self, number: u64, fault: FileFault) -> bool {
        if !is_refused_so(fault, self.name) {
            return true;
        }
        let (alloc, path) = (self.rt.alloc(), self.path);
        let mut folder = Disk::new(self.rt, path);
        let version = &self.opened.version;
        let told = file_told(alloc, &mut folder, path, version, number, fault);
        self.told = told.unwrap_or(None);
        false
    }

    fn key_fault(&mut self, user: &[u8], file: u64, other: u64) -> bool {
        if self.name == FaultName::Lawless {
            let (alloc, path) = (self.rt.alloc(), self.path);
            let mut folder = Disk::new(self.rt, path);
            let files = KeyFiles { user, file, other };
            let told = key_told(alloc, &mut folder, path, self.opened.order, files);
            self.told = told.unwrap_or(None);
        }
        false
    }
}

/// Whether a fault of a file is why work is refused by this name: that a table isn't as the version
/// states it is told of an input as Bounds.
fn is_refused_so(fault: FileFault, name: FaultName) -> bool {
    match fault {
        FileFault::Refused(refused) => refused == name,
        FileFault::NotBelow(_) | FileFault::Overlaps(_) => name == FaultName::Lawless,
        FileFault::Length { .. } | FileFault::Smallest | FileFault::Largest => true,
    }
}

/// What is told of a fault of the file of a number, in a folder at a path. It only reads.
fn file_told<F: Folder>(
    alloc: Global,
    folder: &mut F,
    path: &str,
    version: &Version,
    number: u64,
    fault: FileFault,
) -> Result<Option<RefusalText>, Fault>
    ensures reads { OnlyReads F.Folder folder.old folder.new }
{
    let name = table_file_name(alloc, folder, number)?;
    let path = path_in(alloc, path, name.as_str())?;
    let path = path.as_str();
    match fault {
        FileFault::NotBelow(next) => {
            let wrong = format!(in alloc; "its number is not below the next file number, {next}");
            Ok(RefusalText::new(alloc, path, wrong, RESTORE))
        }
        FileFault::Overlaps(other) => {
            let other = table_file_name(alloc, folder, other)?;
            let level = level_of(alloc, version, number)?;
            let wrong = format!(in alloc; "its keys overlap those of {other} at level {level}");
            Ok(RefusalText::new(alloc, path, wrong, RESTORE))
        }
        fault => Ok(file_fault(alloc, path, fault, MANIFEST)),
    }
}

/// The level of the file of a number.
fn level_of(alloc: Global, version: &Version, number: u64) -> Result<u64, Fault> {
    for level in 0..LEVELS {
        let files = version.files::<Bytewise>(alloc, level)?;
        if files.iter().any(|file| file.number == number) {
            return Ok(level);
        }
    }
    Ok(0)
}

/// A user key, and the files of two entries of it that are not in their order.
#[derive(Clone, Copy)]
struct KeyFiles<'k> {
    user: &'k [u8],
    /// The number of the file that is searched first.
    file: u64,
    /// That of the file whose entry isn't older. It may be the same.
    other: u64,
}

/// What is told of a user key that has an entry in a file that isn't newer than that in another. It
/// only reads. None if their sequences can't be read.
fn key_told<F: Folder>(
    alloc: Global,
    folder: &mut F,
    path: &str,
    order: Order,
    files: KeyFiles<'_>,
) -> Result<Option<RefusalText>, Fault>
    ensures reads { OnlyReads F.Folder folder.old folder.new }
{
    let KeyFiles { user, file, other } = files;
    let Some(first) = sequences_of(alloc, folder, order, file, user)? else {
        return Ok(None);
    };
    let Some(second) = sequences_of(alloc, folder, order, other, user)? else {
        return Ok(None);
    };
    let (here, there) = match first.repeated {
        Some(repeated) if file == other => (repeated, repeated),
        _ => (first.least, second.greatest),
    };
    let name = table_file_name(alloc, folder, file)?;
    let other = table_file_name(alloc, folder, other)?;
    let path = path_in(alloc, path, name.as_str())?;
    let key = text_of(alloc, user)?;
    let wrong = if here != there {
        format!(in alloc;
            "user key {key} has sequence {here} here, and the newer {there} in {other}, which is \
                searched later"
        )
    } else {
        format!(in alloc; "user key {key} has sequence {here} here, and once more in {other}")
    };
    let remedy = "restore the folder from a copy, or have LevelDB compact all of it";
    Ok(RefusalText::new(alloc, path.as_str(), wrong, remedy))
}

/// The sequences that a table has of a user key.
#[derive(Clone, Copy)]
struct KeySequences {
    greatest: u64,
    least: u64,
    /// The first one that it has twice.
    repeated: Option<u64>,
}

impl KeySequences {
    /// The same with the next sequence in the table's order.
    fn with(self, sequence: u64) -> KeySequences {
        let is_repeated = self.repeated.is_none() && sequence == self.least;
        KeySequences {
            greatest: self.greatest,
            least: sequence,
            repeated: if is_repeated {
                Some(sequence)
            } else {
                self.repeated
            },
        }
    }
}

/// The sequences that the table of a number has of a user key. None if it has none, or can't be
/// read.
fn sequences_of<F: Folder>(
    alloc: Global,
    folder: &mut F,
    order: Order,
    number: u64,
    user: &[u8],
) -> Result<Option<KeySequences>, Fault>
    ensures reads { OnlyReads F.Folder folder.old folder.new }
{
    let Some((_, bytes)) = table_file(alloc, folder, number)? else {
        return Ok(None);
    };
    match order {
        Order::Bytewise => sequences_in::<Bytewise>(alloc, &bytes, user),
        Order::Shortlex => sequences_in::<Shortlex>(alloc, &bytes, user),
    }
}

/// The same in the bytes of a table.
fn sequences_in<C: Comparator>(
    alloc: Global,
    bytes: &[u8],
    user: &[u8],
) -> Result<Option<KeySequences>, Fault> {
    if user.len() > MAX_USER_KEY {
        return Ok(None);
    }
    let table = check::<C>(alloc, bytes)?;
    let first = KeyBuf::new(alloc, user, MAX_SEQUENCE, Kind::Put)?;
    let mut cursor = TableCursor::new(alloc, &table)?;
    cursor.seek(first.as_key())?;
    let mut found: Option<KeySequences> = None;
    while cursor.valid() {
        let key = cursor.key();
        if key.user() != user {
            return Ok(found);
        }
        let sequence = key.sequence();
        found = match found {
            Some(before) => Some(before.with(sequence)),
            None => Some(KeySequences {
                greatest: sequence,
                least: sequence,
                repeated: None,
            }),
        };
        cursor.advance()?;
    }
    Ok(found)
}
