//! The calls that wrote to a folder in memory.

ghost use Rattle.std.specs.Prelude.{◌≡◌};
ghost use Rattle.folder.specs.Calls.{Files};
ghost use Rattle.shelf.specs.Shelf.{files_after_step};
ghost use Rattle.shelf.specs.Source.{from_source};

/// A call that writes.
#[derive(Drop)]
pub enum ShelfCall {
    /// A file was made of these bytes. If the call failed, these are the first half of the bytes it
    /// was given.
    Create(String, Vec<u8>),
    Sync(String),
    Rename(String, String),
    Remove(String),
    SyncFolder,
}

/// A call that writes, and what became of it.
#[derive(Drop)]
pub struct ShelfStep {
    pub call: ShelfCall,
    /// Whether it answered Ok.
    pub is_done: bool,
    /// Whether what it writes may be read. It may be so even if the call failed.
    pub is_shown: bool,
}

/// Where the bytes under a name come from, after a step.
pub(crate) enum Source<'a> {
    /// The step made the file, of these bytes.
    Bytes(&'a [u8]),
    /// The step removed the file.
    Nothing,
    /// They are the bytes under this name before the step.
    Name(&'a str),
}

impl ShelfStep {
    /// Where the bytes under `name` come from, after this step.
    pub(crate) fn source<'a>(&'a self, name: &'a str) -> Source<'a>
        ensures { (files : Files) → files_after_step self.now files name.now
            ≡ from_source files result }
    {
        if !self.is_shown {
            return Source::Name(name);
        }
        match &self.call {
            ShelfCall::Create(made, bytes) if made.as_str() == name => Source::Bytes(bytes),
            ShelfCall::Rename(from, to) if to.as_str() == name => Source::Name(from.as_str()),
            ShelfCall::Rename(from, _) if from.as_str() == name => Source::Nothing,
            ShelfCall::Remove(removed) if removed.as_str() == name => Source::Nothing,
            _ => Source::Name(name),
        }
    }
}
