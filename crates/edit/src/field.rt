//! One field of an edit, in the bytes where it lies.

use crate::meta::DeletedFile;
use ikey::InternalKey;

/// A compact pointer, its key in the bytes where it lies.
#[derive(Clone, Copy)]
pub(crate) struct PointerContent<'a> {
    pub level: u64,
    pub key: InternalKey<'a>,
}

/// A new file, its keys in the bytes where they lie.
#[derive(Clone, Copy)]
pub(crate) struct FileContent<'a> {
    pub level: u64,
    pub number: u64,
    pub size: u64,
    pub smallest: InternalKey<'a>,
    pub largest: InternalKey<'a>,
}

/// A field of an edit, its text and its keys in the bytes where they lie.
#[derive(Clone, Copy)]
pub(crate) enum Field<'a> {
    Comparator(&'a str),
    LogNumber(u64),
    NextFile(u64),
    LastSequence(u64),
    Pointer(PointerContent<'a>),
    Deleted(DeletedFile),
    Added(FileContent<'a>),
    PreviousLog(u64),
}
