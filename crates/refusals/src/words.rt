//! What is told of a file that is missing, and of a table that is not as it is stated.

use faults::FileFault;
use session::{RefusalText, Words, of_file, told, told_of_file};
use std::alloc::{AllocError, Global};

/// What is wrong, unless there was no memory for it, and what to do about it.
pub(crate) type Text = (Result<String, AllocError>, &'static str);

/// Who states what a table is.
#[derive(Clone, Copy)]
pub struct Stated {
    /// Its name.
    pub by: &'static str,
    /// What to do about a table that isn't so.
    pub remedy: &'static str,
}

/// What is told of a folder's file of this name that is missing.
pub fn missing_file(alloc: Global, folder: &str, name: &str) -> Option<RefusalText> {
    let (wrong, remedy) = if name.starts_with("MANIFEST-") {
        (
            "it is missing, and CURRENT names it: the database is damaged",
            "restore the folder from a copy",
        )
    } else {
        (
            "it is missing, and the manifest names it",
            "restore the file from a copy",
        )
    };
    told_of_file(alloc, folder, name, Words { wrong, remedy })
}

/// What is told of the table at a path, of which this is wrong with what is stated of it, or which
/// is refused by itself. None if it is wrong with other tables.
pub fn file_fault(
    alloc: Global,
    path: &str,
    fault: FileFault,
    stated: Stated,
) -> Option<RefusalText> {
    let by = stated.by;
    let wrong = match fault {
        FileFault::Length { held, stated } => {
            format!(in alloc; "it has {held} bytes, and {by} says {stated}")
        }
        FileFault::Smallest => {
            format!(in alloc; "its smallest key is not the one that {by} says")
        }
        FileFault::Largest => format!(in alloc; "its largest key is not the one that {by} says"),
        FileFault::Refused(name) => return told(alloc, path, of_file(name)),
        FileFault::NotBelow(_) | FileFault::Overlaps(_) => return None,
    };
    RefusalText::new(alloc, path, wrong, stated.remedy)
}
