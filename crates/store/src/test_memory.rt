//! How much the test before a compaction may hold.

ghost use Rattle.std.specs.Prelude.{◌≡◌, IfErr, IfOk, is_some};
ghost use Rattle.folder.specs.Answers.{fault};
ghost use Rattle.folder.specs.fault.FaultName.TheVariants.{Memory};

use folder::{Comparator, Fault, FaultName, Version};
use pick::{InputFile, inputs};
use std::alloc::Global;

/// How many bytes of tables the `test` of a version may hold, if one is asked for: as many as the
/// inputs of the compaction of a `level` have, if these are more. They are held after it anyway.
pub(crate) fn test_memory<C: Comparator>(
    alloc: Global,
    version: &Version,
    level: u64,
    test: Option<u64>,
) -> Result<Option<u64>, Fault>
    ensures asked { IfOk result (λ most. is_some most ≡ is_some test) }
    ensures memory { IfErr result (λ e. e ≡ fault Memory) }
{
    let Some(memory) = test else {
        return Ok(None);
    };
    match inputs::<C>(alloc, version, level) {
        Ok(picked) => Ok(Some(memory.max(bytes_of(&picked.files)))),
        Err(refused) => match refused.name {
            FaultName::Memory => Err(Fault::of(FaultName::Memory)),
            // The compaction is refused, after the test.
            _ => Ok(test),
        },
    }
}

/// How many bytes files have together, as they are stated.
fn bytes_of(files: &[InputFile]) -> u64 {
    let mut bytes = 0u64;
    for file in files {
        bytes = bytes.saturating_add(file.meta.size);
    }
    bytes
}
