//! What a folder answered when it was asked for whole files, as clauses read it.

ghost use Rattle.std.specs.Prelude.{◌≡◌, List, []};
ghost use Rattle.std.specs.Borrow.{ftrue};
ghost use Rattle.folder.specs.Readings.{Reading, readings_after};

use crate::folder::FolderFault;
use crate::trail::Trail;
use std::marker::Model;

/// The files read so far, in order. A proof's value: it takes no memory, and nothing is done with
/// it at run time.
#[derive(Drop)]
pub struct Readings {
    pub ghost files: { List Reading },
}

impl Model for Readings {
    ghost also_owns = { λ _. ftrue };
}

/// A call that reads a file of this name: the calls that write before it, and what it answers.
#[derive(Clone, Copy, Drop)]
pub struct FileRead<'a> {
    pub trail: &'a Trail,
    pub name: &'a str,
    pub answer: &'a Result<Option<Vec<u8>>, FolderFault>,
}

impl Readings {
    /// None yet.
    pub fn none() -> Readings
        ensures { result.files ≡ [] }
    {
        Readings {}
    }

    /// With those of one more call.
    pub fn then(&self, _read: &FileRead<'_>) -> Readings
        ensures { result.files ≡ readings_after self.now.files _read.now.trail.now.steps
            _read.now.name.now _read.now.answer.now }
    {
        Readings {}
    }
}
