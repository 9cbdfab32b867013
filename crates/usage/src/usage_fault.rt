//! Why a command line asks for nothing.

use clap::error::ErrorKind;
use std::alloc::AllocError;

/// Why a command line asks for nothing that can be done.
#[derive(Drop)]
pub enum Usage {
    /// The text of the key of `blocks` is no hexadecimal digits.
    Key,
    /// The text of a key of `get`, `history` or `scan` is no hexadecimal digits, and neither
    /// `--text` nor `--utf8` is given.
    Hexadecimal,
    /// The text of a key of `get`, `history` or `scan` stands for no bytes, and one of them is
    /// given.
    Text,
    /// The text of a list of snapshots, of `compact` or `install`, is no list of numbers.
    Snapshots,
    /// Out of memory.
    Memory,
    /// The words are no command, or help or the version was asked for. The error says which, and
    /// has the text for the user.
    Clap(clap::Error),
}

impl From<AllocError> for Usage {
    fn from(_e: AllocError) -> Usage {
        Usage::Memory
    }
}

impl From<clap::Error> for Usage {
    fn from(error: clap::Error) -> Usage {
        if error.kind() == ErrorKind::OutOfMemory {
            Usage::Memory
        } else {
            Usage::Clap(error)
        }
    }
}
