//! What a folder of the system keeps of its files from one call to the next.

ghost use Rattle.std.specs.Prelude.{◌<◌, length, IfSome};

use crate::made_table::MadeTable;
use std::alloc::{AllocError, Global};
use std::fs::File;
use std::io;

/// A file that was made, and is open until it is synced.
#[derive(Drop)]
struct Made {
    name: String,
    file: File,
}

/// A file that is synced before that is asked for.
#[derive(Drop)]
pub(crate) struct Due {
    pub name: String,
    /// The name that it has instead if no file has the first one.
    pub older: Option<String>,
    /// What its sync answered, under the name that it has now. None if it wasn't opened.
    pub answer: Option<io::Result<()>>,
}

/// The files that were made and not synced since, and those that were synced ahead.
#[derive(Drop)]
pub(crate) struct PendingFiles {
    alloc: Global,
    made: Vec<Made>,
    /// By name, since each of thousands of tables is looked for.
    ahead: Vec<Due>,
}

impl PendingFiles {
    /// No file.
    pub fn new(alloc: Global) -> PendingFiles {
        PendingFiles {
            alloc,
            made: Vec::new(alloc),
            ahead: Vec::new(alloc),
        }
    }

    /// Keeps a file that was made under this `name`.
    pub fn keep(&mut self, name: &str, file: File) -> Result<(), AllocError> {
        let name = String::from_str(self.alloc, name)?;
        self.made.push(Made { name, file })?;
        Ok(())
    }

    /// Takes the file that was made under this `name`. None if there is none, or it was synced
    /// since.
    pub fn taken(&mut self, name: &str) -> Option<File> {
        let place = place_of(&self.made, name)?;
        Some(self.made.swap_remove(place).file)
    }

    /// Keeps which files were synced ahead.
    pub fn keep_ahead(&mut self, mut files: Vec<Due>) {
        files.sort_unstable_by(|file, other| file.name.as_str().cmp(other.name.as_str()));
        self.ahead = files;
    }

    /// Forgets which files were synced ahead, but for those whose sync failed and that have another
    /// name than this.
    pub fn forget_ahead(&mut self, name: &str) {
        self.ahead
            .retain(|due| has_failed(due) && due.name.as_str() != name);
    }

    /// Forgets these files, which are made anew.
    pub fn forget_all(&mut self, files: &[MadeTable]) {
        for file in files {
            let name = file.name.as_str();
            self.forget_ahead(name);
            drop(self.taken(name));
        }
    }

    /// What the sync ahead of the file of this `name` answered. None if it wasn't synced ahead.
    pub fn answer(&self, name: &str) -> Option<io::Result<()>> {
        let found = self
            .ahead
            .binary_search_by(|due| due.name.as_str().cmp(name));
        match found {
            Ok(place) => self.ahead[place].answer,
            Err(_) => None,
        }
    }
}

/// Whether the sync of a file failed.
fn has_failed(due: &Due) -> bool {
    match due.answer {
        Some(answer) => answer.is_err(),
        None => false,
    }
}

/// The place of the file that was made under this `name`.
fn place_of(made: &[Made], name: &str) -> Option<usize>
    ensures { IfSome result (λ place. place < length made.now) }
{
    for (place, file) in made.iter().enumerate() {
        if file.name.as_str() == name {
            return Some(place);
        }
    }
    None
}
