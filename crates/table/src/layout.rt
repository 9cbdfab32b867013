//! The layout of a table, part by part as it is written.
//!
//! ```text
//! data block 1       the first entries, then their trailer
//! ..
//! data block n       the last entries, then their trailer
//! metaindex block    no entry, then its trailer
//! index block        for each data block a key and a handle, then its trailer
//! footer             the handles of metaindex and index, and the magic
//! ```
//!
//! A data block's key in the index is at or above its own keys, and below those of the next. Why:
//! the first index key at or above a sought key names the data block in which to look. The crate
//! `block` has the layout of a block; those of trailer, handle and footer are in `trailer.rt`,
//! `handle.rt` and `footer.rt` beside this.
//!
//! The table of `a` at 1 put `x`, 114 bytes:
//!
//! ```text
//!   0   00 09 01  61 01 01 00 00 00 00 00 00  78  00 00 00 00  01 00 00 00      the data block
//!  21   00  84 dd 88 74                                                          its trailer
//!  26   00 00 00 00  01 00 00 00                                                 the metaindex
//!  34   00  c0 f2 a1 b0                                                          its trailer
//!  39   00 09 02  61 01 01 00 00 00 00 00 00  00 15  00 00 00 00  01 00 00 00   the index
//!  61   00  36 49 25 bf                                                          its trailer
//!  66   1a 08  27 16                                                             the two handles
//!  70   36 bytes 00
//! 106   57 fb 80 8b 24 75 47 db                                                  the magic
//! ```

ghost use Rattle.std.specs.Prelude.{◌≡◌, ◌≤◌, ◌++◌, ◌∷◌, [], length, take, IfOk, IfErr};
ghost use Rattle.std.specs.Prelude.{OnOk, OnErr, IsOkUnless};
ghost use Rattle.coding.specs.Answers.{fault};
ghost use Rattle.coding.specs.declared.fault.FaultName.TheVariants.{Memory};
ghost use Rattle.block.specs.BlockFormat.{block};
ghost use Rattle.table.specs.Trailer.{stored_block};
ghost use Rattle.table.specs.Table.{closing_bytes, handle_entry};
ghost use Rattle.block.specs.declared.builder.TheConstants.{MAX_BLOCK_LEN};

use crate::footer::Footer;
use crate::handle::BlockHandle;
use crate::trailer::Trailer;
use block::BlockBuilder;
use coding::Fault;
use std::alloc::Global;

/// Appends a block and its trailer, and answers the block's handle.
pub fn push_stored(out: &mut Vec<u8>, builder: &BlockBuilder) -> Result<BlockHandle, Fault>
    ensures ok { OnOk result (out.new.items
        ≡ out.old.items ++ stored_block (block builder.now.interval builder.now.entries)) }
    ensures handle { IfOk result (λ h. h ≡ record {
      offset = length out.old.items;
      size = length (block builder.now.interval builder.now.entries);
    }) }
    ensures err { OnErr result (out.new.items ≡ out.old.items) }
    ensures memory { IfErr result (λ e. e ≡ fault Memory) }
{
    let start = out.len();
    builder.push_block(out)?;
    let trailer = Trailer::of(&out[start..]);
    if let Err(refused) = trailer.push(out) {
        // The block is taken off too.
        out.truncate(start);
        return Err(refused);
    }
    Ok(BlockHandle {
        offset: start as u64,
        size: builder.estimate() as u64,
    })
}

/// Appends an entry to an index block: a data block's key and handle. Requires that the index then
/// has at most 2^31 bytes.
///
/// The bytes in `spelling` are lost: it lends its memory to the handle's bytes.
pub fn push_index_entry(
    index: &mut BlockBuilder,
    spelling: &mut Vec<u8>,
    key: &[u8],
    handle: BlockHandle,
) -> Result<(), Fault>
    requires { length (block index.old.interval
        (index.old.entries ++ handle_entry key.now handle.offset handle.size ∷ []))
        ≤ MAX_BLOCK_LEN }
    ensures ok { OnOk result (index.new ≡ record {
      interval = index.old.interval;
      entries = index.old.entries ++ handle_entry key.now handle.offset handle.size ∷ [];
    }) }
    ensures err { OnErr result (index.new ≡ index.old) }
    ensures memory { IsOkUnless result (fault Memory) }
{
    spelling.clear();
    handle.push(spelling)?;
    index.add(key, spelling)
}

/// Appends what comes after the data blocks: the metaindex, the index and the footer.
///
/// Memory may leave some of that after the bytes that were there.
pub fn push_closing(alloc: Global, out: &mut Vec<u8>, index: &BlockBuilder) -> Result<(), Fault>
    requires { index.now.interval ≡ 1 }
    ensures ok { OnOk result (out.new.items
        ≡ out.old.items ++ closing_bytes (length out.old.items) index.now.entries) }
    ensures err { OnErr result (take (length out.old.items) out.new.items ≡ out.old.items) }
    ensures memory { IsOkUnless result (fault Memory) }
{
    let metaindex = push_stored(out, &BlockBuilder::new(alloc, 1))?;
    let index = push_stored(out, index)?;
    Footer { metaindex, index }.push(out)
}
