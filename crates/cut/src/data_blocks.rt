//! The bytes of data blocks, each with its trailer.

ghost use Rattle.std.specs.Prelude.{◌≡◌, ◌≤◌, ◌++◌, length, OnOk, IsOkUnless, Ok};
ghost use Rattle.std.specs.List.{AllByRecursion};
ghost use Rattle.coding.specs.Answers.{EqualOrMemory, fault};
ghost use Rattle.coding.specs.declared.fault.FaultName.TheVariants.{Memory};
ghost use Rattle.block.specs.BlockFormat.{block};
ghost use Rattle.table.specs.Table.{stored_blocks};
ghost use Rattle.table.specs.Trailer.{stored_block};
ghost use Rattle.cut.specs.PlannedBlocks.{block_lists};
ghost use Rattle.block.specs.declared.builder.TheConstants.{MAX_BLOCK_LEN, MAX_RESTART_INTERVAL};

use crate::block_writer::push_block;
use crate::planned_block::PlannedBlock;
use coding::Fault;
use std::alloc::Global;
use table::{TRAILER_LEN, Trailer};

/// The bytes of a data block and its trailer, at a restart interval from 1 to 1,024. Requires that
/// the block has at most 2^31 bytes.
pub(crate) fn encode_block(
    alloc: Global,
    planned: &PlannedBlock<'_, '_>,
    interval: u64,
) -> Result<Vec<u8>, Fault>
    requires positive { 1 ≤ interval }
    requires limited { interval ≤ MAX_RESTART_INTERVAL }
    requires fits { length (block interval planned.now.entries.entries) ≤ MAX_BLOCK_LEN }
    ensures { EqualOrMemory (λ v. v.items) result
        (Ok (stored_block (block interval planned.now.entries.entries))) }
{
    let room = planned.len.saturating_add(TRAILER_LEN as u64);
    let mut out = Vec::with_capacity(alloc, room as usize)?;
    let mut restarts = Vec::new(alloc);
    push_stored(&mut out, &mut restarts, planned, interval)?;
    Ok(out)
}

/// The bytes of consecutive data blocks, each with its trailer, at a restart interval from 1 to
/// 1,024. Requires that each block has at most 2^31 bytes. The memory has room for `room` bytes
/// from the start.
pub(crate) fn encode_blocks(
    alloc: Global,
    blocks: &[PlannedBlock<'_, '_>],
    interval: u64,
    room: usize,
) -> Result<Vec<u8>, Fault>
    requires positive { 1 ≤ interval }
    requires limited { interval ≤ MAX_RESTART_INTERVAL }
    requires fits { AllByRecursion
        (λ b. length (block interval b.entries.entries) ≤ MAX_BLOCK_LEN) blocks.now }
    ensures { EqualOrMemory (λ v. v.items) result
        (Ok (stored_blocks interval (block_lists blocks.now))) }
{
    let mut out = Vec::with_capacity(alloc, room)?;
    let mut restarts = Vec::new(alloc);
    for block in blocks {
        push_stored(&mut out, &mut restarts, block, interval)?;
    }
    Ok(out)
}

/// Appends a data block and its trailer. What `restarts` held is lost: it lends its memory.
fn push_stored(
    out: &mut Vec<u8>,
    restarts: &mut Vec<u32>,
    planned: &PlannedBlock<'_, '_>,
    interval: u64,
) -> Result<(), Fault>
    requires positive { 1 ≤ interval }
    requires limited { interval ≤ MAX_RESTART_INTERVAL }
    requires fits { length (block interval planned.now.entries.entries) ≤ MAX_BLOCK_LEN }
    ensures ok { OnOk result (out.new.items
        ≡ out.old.items ++ stored_block (block interval planned.now.entries.entries)) }
    ensures memory { IsOkUnless result (fault Memory) }
{
    let start = out.len();
    push_block(out, restarts, &planned.entries, interval)?;
    Trailer::of(&out[start..]).push(out)
}
