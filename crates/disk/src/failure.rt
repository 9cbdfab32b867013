//! Which call of a folder of the system failed, and why.

use folder::FolderCall;
use std::alloc::{AllocError, Global};
use std::fmt::{self, Display, Formatter, Write};
use std::io;
use std::io::ErrorKind;

/// A call of a folder that the device failed.
///
/// It prints as a line without its end: `cannot create 000031.ldb: No space left on device`, or
/// `cannot sync the folder: Input/output error`.
#[derive(Drop)]
pub struct Failure {
    /// Which call it was.
    pub call: FolderCall,
    /// The name of the file, the one before of a file that is renamed. It is empty if the call was
    /// about the folder, or if memory for it was refused.
    pub name: String,
    /// What the system answered.
    pub error: io::Error,
    /// That in the system's words, without its number. It is empty if memory for it was refused.
    words: String,
}

impl Failure {
    /// The failure of a call on the file of this `name`.
    pub(crate) fn new(alloc: Global, call: FolderCall, name: &str, error: io::Error) -> Failure {
        Failure {
            call,
            name: text_kept(alloc, name),
            error,
            words: error_words(alloc, &error).unwrap_or(String::new(alloc)),
        }
    }

    /// Whether a file was not read since it has more than 2^30 bytes.
    pub fn is_too_large(&self) -> bool {
        self.call == FolderCall::Read && self.error.kind() == ErrorKind::FileTooLarge
    }
}

impl Display for Failure {
    fn fmt<W: Write>(&self, f: &mut Formatter<W>) -> fmt::Result {
        f.write_str(words_of(self.call))?;
        f.write_str(self.name.as_str())?;
        f.write_str(": ")?;
        if self.words.is_empty() {
            Display::fmt(&self.error, f)
        } else {
            f.write_str(self.words.as_str())
        }
    }
}

/// A copy of a text. Empty if memory for it is refused.
pub(crate) fn text_kept(alloc: Global, text: &str) -> String {
    String::from_str(alloc, text).unwrap_or(String::new(alloc))
}

/// What is said of a call before the name of its file.
fn words_of(call: FolderCall) -> &'static str {
    match call {
        FolderCall::Read => "cannot read ",
        FolderCall::Create => "cannot create ",
        FolderCall::Sync => "cannot sync ",
        FolderCall::Rename => "cannot rename ",
        FolderCall::Remove => "cannot remove ",
        FolderCall::SyncFolder => "cannot sync the folder",
    }
}

/// An error in the system's words, without its number.
pub fn error_words(alloc: Global, error: &io::Error) -> Result<String, AllocError> {
    let text = format!(in alloc; "{error}")?;
    match text.as_str().split_once(" (os error ") {
        Some((words, _)) => String::from_str(alloc, words),
        None => Ok(text),
    }
}
