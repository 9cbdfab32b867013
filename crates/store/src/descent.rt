//! Which levels `--all` compacts.

ghost use Rattle.std.specs.Prelude.{◌≡◌, ◌≤◌, IfOk, IfErr, Ok};
ghost use Rattle.folder.specs.Answers.{EqualOrMemory, fault};
ghost use Rattle.folder.specs.fault.FaultName.TheVariants.{Memory};
ghost use Rattle.store.specs.Descent.{IsBottom, IsNextLevel, file_count};
ghost use Rattle.folder.specs.meta.TheConstants.{LAST_LEVEL};

use folder::{Bytewise, Fault, LEVELS, Version};
use std::alloc::Global;

/// The deepest level that has a file, and at least 1: files of level 0 go down, since they may
/// overlap.
pub fn bottom(alloc: Global, version: &Version) -> Result<u64, Fault>
    ensures bottom { IfOk result (IsBottom version.now) }
    ensures memory { IfErr result (λ e. e ≡ fault Memory) }
{
    let mut bottom = 1;
    for level in 2..LEVELS {
        if file_count(alloc, version, level)? > 0 {
            bottom = level;
        }
    }
    Ok(bottom)
}

/// The first level above `bottom` that has a file; None if no such level has one. `bottom` is at
/// most 6, as [`bottom`] answers it.
pub fn next_level(alloc: Global, version: &Version, bottom: u64) -> Result<Option<u64>, Fault>
    requires { bottom ≤ LAST_LEVEL }
    ensures next { IfOk result (IsNextLevel version.now bottom) }
    ensures memory { IfErr result (λ e. e ≡ fault Memory) }
{
    for level in 0..bottom {
        if file_count(alloc, version, level)? > 0 {
            return Ok(Some(level));
        }
    }
    Ok(None)
}

/// How many files a level has. The order of files makes no difference.
fn file_count(alloc: Global, version: &Version, level: u64) -> Result<usize, Fault>
    requires { level ≤ LAST_LEVEL }
    ensures { EqualOrMemory (λ count. count) result (Ok (file_count version.now level)) }
{
    let files = version.files::<Bytewise>(alloc, level)?;
    Ok(files.len())
}
