//! The data blocks that an index names.

ghost use Rattle.std.specs.Prelude.{◌≡◌, Ok, IsOk};
ghost use Rattle.table.specs.IndexWalk.{block_named};

use crate::handle::BlockHandle;
use crate::table_check::stored_at;
use crate::trailer::reopen_contents;
use block::{SoundBlock, reopen};

/// The data block of whose handle `value` is the spelling, in a table that was checked. No test is
/// made again.
pub(crate) fn block_named<'a>(bytes: &'a [u8], value: &[u8]) -> SoundBlock<'a>
    requires { IsOk (block_named bytes.now value.now) }
    ensures { block_named bytes.now value.now ≡ Ok result.entries }
{
    let Some(found) = BlockHandle::read(value) else {
        unreachable!();
    };
    let Ok(stored) = stored_at(bytes, found.handle) else {
        unreachable!();
    };
    reopen(reopen_contents(stored))
}
