//! The files that a compaction takes out of a version. No contract says which ones.

ghost use Rattle.std.specs.Prelude.{◌≤◌};
ghost use Rattle.edit.specs.declared.meta.TheConstants.{LAST_LEVEL};

use coding::Fault;
use edit::{DeletedFile, LEVELS, Version};
use ikey::Bytewise;
use std::alloc::Global;
use std::collections::BTreeSet;

/// The number and the length of each file of a version that is `deleted`: of the inputs of a
/// compaction.
pub fn deleted_files(
    alloc: Global,
    version: &Version,
    deleted: &BTreeSet<DeletedFile>,
) -> Result<Vec<(u64, u64)>, Fault> {
    let mut files = Vec::new(alloc);
    for level in 0..LEVELS {
        push_deleted(alloc, &mut files, version, deleted, level)?;
    }
    Ok(files)
}

/// Appends those of a level.
fn push_deleted(
    alloc: Global,
    files: &mut Vec<(u64, u64)>,
    version: &Version,
    deleted: &BTreeSet<DeletedFile>,
    level: u64,
) -> Result<(), Fault>
    requires { level ≤ LAST_LEVEL }
{
    for file in version.files::<Bytewise>(alloc, level)? {
        let number = file.number;
        if deleted.contains(&DeletedFile { level, number }) {
            files.push((number, file.size))?;
        }
    }
    Ok(())
}
