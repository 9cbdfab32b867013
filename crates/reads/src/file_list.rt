//! The files of a version, by level and in version order.

ghost use Rattle.std.specs.Prelude.{◌≡◌, ◌++◌, map, IfOk, IfErr, OnOk};
ghost use Rattle.ikey.specs.Answers.{fault};
ghost use Rattle.ikey.specs.fault.FaultName.TheVariants.{Memory};
ghost use Rattle.edit.specs.VersionOrder.{added_from, at_level};
ghost use Rattle.edit.specs.declared.meta.TheConstants.{LEVELS};
ghost use Rattle.reads.specs.FileList.{level_file_in, AreAll};

use crate::level_file::LevelFile;
use edit::{FileMeta, LEVELS, Version};
use ikey::{Comparator, Fault};
use std::alloc::Global;

/// Appends the files of a level.
fn push_level<'v>(
    all: &mut Vec<LevelFile<'v>>,
    level: u64,
    files: &[&'v FileMeta],
) -> Result<(), Fault>
    ensures ok { OnOk result (map level_file_in all.new.items
        ≡ map level_file_in all.old.items ++ map (λ f. at_level level f.now) files.now) }
    ensures memory { IfErr result (λ e. e ≡ fault Memory) }
{
    for file in files {
        all.push(LevelFile { level, meta: file })?;
    }
    Ok(())
}

/// All files of a version, by level and in version order.
pub fn all_files<'v, C: Comparator>(
    alloc: Global,
    version: &'v Version,
) -> Result<Vec<LevelFile<'v>>, Fault>
    ensures all { IfOk result (λ files. AreAll version.now.files (map level_file_in files.items)) }
    ensures order { IfOk result (λ files. map level_file_in files.items
        ≡ added_from C.cmp version.now.files 0 LEVELS) }
    ensures memory { IfErr result (λ e. e ≡ fault Memory) }
{
    let mut all = Vec::new(alloc);
    for level in 0..LEVELS {
        push_level(&mut all, level, &version.files::<C>(alloc, level)?)?;
    }
    Ok(all)
}
