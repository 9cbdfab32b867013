//! The calls that write to a folder, as clauses read them.

ghost use Rattle.std.specs.Prelude.{◌≡◌, List, [], ◌∷◌, ◌++◌};
ghost use Rattle.std.specs.Borrow.{ftrue};
ghost use Rattle.folder.specs.Calls.{Step};

use crate::table_source::SourceTables;
use std::marker::Model;

/// The calls so far. A proof's value: it takes no memory, and nothing is done with it at run time.
#[derive(Drop)]
pub struct Trail {
    pub ghost steps: { List Step },
}

impl Model for Trail {
    ghost also_owns = { λ _. ftrue };
}

/// A kind of calls on a folder.
#[derive(Clone, Copy, PartialEq, Eq)]
pub enum FolderCall {
    Read,
    Create,
    Sync,
    Rename,
    Remove,
    SyncFolder,
}

/// A call that writes, of one file or of the folder.
#[derive(Clone, Copy, Drop)]
pub enum WriteCall<'a> {
    Create(&'a str, &'a [u8]),
    Sync(&'a str),
    Rename(&'a str, &'a str),
    Remove(&'a str),
    SyncFolder,
}

/// A call that writes: of one file or of the folder, of tables by their numbers, or of those of a
/// source.
#[derive(Clone, Copy, Drop)]
pub enum AnyWrite<'a> {
    One(WriteCall<'a>),
    Tables(&'a [(u64, Vec<u8>)]),
    Made(&'a SourceTables),
}

/// A call, and whether it was done.
#[derive(Clone, Copy, Drop)]
pub struct Attempt<'a> {
    pub call: AnyWrite<'a>,
    pub is_done: bool,
}

impl<'a> WriteCall<'a> {
    /// Which call it is, and the name of its file. The name is empty of the folder.
    pub fn told(self) -> (FolderCall, &'a str) {
        match self {
            WriteCall::Create(name, _) => (FolderCall::Create, name),
            WriteCall::Sync(name) => (FolderCall::Sync, name),
            WriteCall::Rename(from, _) => (FolderCall::Rename, from),
            WriteCall::Remove(name) => (FolderCall::Remove, name),
            WriteCall::SyncFolder => (FolderCall::SyncFolder, ""),
        }
    }
}

impl Trail {
    ghost use Rattle.folder.specs.Attempts.{step_in};

    /// The trail of no call.
    pub fn new() -> Trail
        ensures { result.steps ≡ [] }
    {
        Trail {}
    }

    /// The trail with one more call.
    pub fn then(&self, _attempt: &Attempt<'_>) -> Trail
        ensures { result.steps ≡ self.now.steps ++ step_in _attempt.now ∷ [] }
    {
        Trail {}
    }
}
