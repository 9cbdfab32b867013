//! Data blocks, written straight to their place.

ghost use Rattle.std.specs.Prelude.{◌≡◌, ◌==◌, ◌≤◌, ◌<◌, ◌^◌, if◌then◌else◌, [], ◌∷◌, ◌++◌};
ghost use Rattle.std.specs.Prelude.{length, OnOk, IsOkUnless};
ghost use Rattle.std.specs.List.{flat_map};
ghost use Rattle.coding.specs.Answers.{fault};
ghost use Rattle.coding.specs.declared.fault.FaultName.TheVariants.{Memory};
ghost use Rattle.block.specs.EncodedEntry.{encoded_entry_bytes, restarts_from};
ghost use Rattle.block.specs.BlockFormat.{encoded_entries_from, block};
ghost use Rattle.block.specs.declared.builder.TheConstants.{MAX_BLOCK_LEN, MAX_RESTART_INTERVAL};

use crate::entry_ref::EntryRef;
use crate::walk::EntryWalk;
use block::{next_since, push_fields, push_restarts};
use coding::Fault;

/// Appends the block of `entries`, at a restart interval from 1 to 1,024. Requires that it has at
/// most 2^31 bytes. What `restarts` held is lost: it lends its memory.
///
/// The only fault is Memory, which may leave some of the block.
pub(crate) fn push_block(
    out: &mut Vec<u8>,
    restarts: &mut Vec<u32>,
    entries: &EntryRef<'_, '_>,
    interval: u64,
) -> Result<(), Fault>
    requires positive { 1 ≤ interval }
    requires limited { interval ≤ MAX_RESTART_INTERVAL }
    requires fits { length (block interval entries.now.entries) ≤ MAX_BLOCK_LEN }
    ensures ok { OnOk result (out.new.items ≡ out.old.items ++ block interval entries.now.entries) }
    ensures memory { IsOkUnless result (fault Memory) }
{
    restarts.clear();
    push_entries(out, restarts, entries, interval)?;
    if restarts.is_empty() {
        // A block without entries has one restart.
        restarts.push(0)?;
    }
    push_restarts(out, restarts)
}

/// Appends the entries of a block, and their restarts to `restarts`. The only fault is Memory,
/// which may leave some of both.
fn push_entries(
    out: &mut Vec<u8>,
    restarts: &mut Vec<u32>,
    entries: &EntryRef<'_, '_>,
    interval: u64,
) -> Result<(), Fault>
    requires positive { 1 ≤ interval }
    requires limited { interval ≤ MAX_RESTART_INTERVAL }
    requires none { restarts.old.items ≡ [] }
    requires fits { length (block interval entries.now.entries) ≤ MAX_BLOCK_LEN }
    ensures bytes { OnOk result (out.new.items
        ≡ out.old.items
        ++ flat_map encoded_entry_bytes
        (encoded_entries_from interval 0 [] entries.now.entries)) }
    ensures restarts { OnOk result (restarts.new.items
        ≡ restarts_from 0 (encoded_entries_from interval 0 [] entries.now.entries)) }
    ensures memory { IsOkUnless result (fault Memory) }
{
    if entries.len() == 0 {
        return Ok(());
    }
    let start = out.len();
    let mut since = 0;
    let mut walk = EntryWalk::new(entries.first(), None);
    for _ in 0..entries.len() {
        let key = walk.key().bytes();
        push_restart(restarts, since, out.len() - start)?;
        let shared = walk.left_out(since);
        push_fields(out, shared, &key[shared..], walk.value())?;
        since = next_since(since, interval);
        walk.advance();
    }
    Ok(())
}

/// Takes in the offset of an entry if a restart points at it: if the entry is the first of an
/// interval.
fn push_restart(restarts: &mut Vec<u32>, since: u64, offset: usize) -> Result<(), Fault>
    requires { offset < 2 ^ 32 }
    ensures ok { OnOk result (restarts.new.items
        ≡ restarts.old.items ++ (if since == 0 then offset ∷ [] else [])) }
    ensures memory { IsOkUnless result (fault Memory) }
{
    if since == 0 {
        restarts.push(offset as u32)?;
    }
    Ok(())
}
