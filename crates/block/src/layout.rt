//! The layout of a block, part by part as it is written.
//!
//! ```text
//! block:  entry 1 .. entry n
//!         restart: u32            for each restart, the offset of the entry that it points at
//!         restarts: u32           the count: how many restarts there are, at least one
//!
//! entry:  shared: varint          how many bytes of the key before it begin its key
//!         unshared: varint        how many other bytes its key has
//!         value_len: varint
//!         key[shared..]           the other bytes of its key
//!         value
//! ```
//!
//! A number of four bytes has its lowest byte first. A restart points at an entry that shares
//! nothing. Why: a reader can begin there, and find a key by halving.
//!
//! The block of `a` at 2 put `x` and `a` at 1 put `y`, at restart interval 16:
//!
//! ```text
//!  0   00 09 01  61 01 02 00 00 00 00 00 00  78    shares nothing, 9 bytes of key, 1 of value
//! 13   02 07 01  01 00 00 00 00 00 00        79    shares 61 01, 7 bytes of key, 1 of value
//! 24   00 00 00 00                                 the restart
//! 28   01 00 00 00                                 the count
//! ```

ghost use Rattle.std.specs.Prelude.{◌≡◌, ◌+◌, ◌^◌, ◌<◌, ◌≤◌, ◌==◌, if◌then◌else◌, ◌++◌};
ghost use Rattle.std.specs.Prelude.{nat_eq, length, take, false, OnOk, OnErr, IsOkUnless};
ghost use Rattle.std.specs.List.{common_prefix_len};
ghost use Rattle.coding.specs.Answers.{fault};
ghost use Rattle.coding.specs.declared.fault.FaultName.TheVariants.{Memory};
ghost use Rattle.coding.specs.Varint.{varint};
ghost use Rattle.block.specs.EncodedEntry.{encoded_entry_bytes, restart_bytes};

use byteorder::{ByteOrder, LittleEndian};
use coding::{Fault, common_len, push_varint};

/// The number of entries of an interval so far, with one more. It is 0 again after the interval's
/// last entry, so a restart points at the next.
#[inline(always)]
pub fn next_since(since: u64, interval: u64) -> u64
    requires { since < interval }
    ensures { result ≡ (if since + 1 == interval then 0 else since + 1) }
{
    if since + 1 == interval { 0 } else { since + 1 }
}

/// How many bytes of the key before it an entry shares. It is 0 if the entry begins an interval,
/// for then a restart points at it.
///
/// `since` is how many entries of the interval come before it.
#[inline(always)]
pub fn shared_len(since: u64, before: &[u8], key: &[u8]) -> usize
    ensures value { result
        ≡ (if since == 0 then 0 else common_prefix_len nat_eq before.now key.now) }
    ensures within { result ≤ length key.now }
{
    if since == 0 {
        0
    } else {
        common_len(before, key)
    }
}

/// Appends the fields of an entry: three lengths, the unshared bytes of its key, and its value.
///
/// Memory may leave some of them after the bytes that were there.
#[inline(always)]
pub fn push_fields(
    out: &mut Vec<u8>,
    shared: usize,
    unshared: &[u8],
    value: &[u8],
) -> Result<(), Fault>
    ensures ok { OnOk result (out.new.items ≡ out.old.items ++ encoded_entry_bytes (record {
      is_restart = false;
      shared = shared;
      unshared = unshared.now;
      value = value.now;
    })) }
    ensures err { OnErr result (take (length out.old.items) out.new.items ≡ out.old.items) }
    ensures memory { IsOkUnless result (fault Memory) }
{
    push_lengths(out, shared, unshared.len(), value.len())?;
    out.extend_from_slice(unshared)?;
    out.extend_from_slice(value)?;
    Ok(())
}

/// Appends the three lengths of an entry. The only fault is Memory, which may leave some of them
/// after the bytes that were there.
#[inline(always)]
fn push_lengths(
    out: &mut Vec<u8>,
    shared: usize,
    unshared: usize,
    value: usize,
) -> Result<(), Fault>
    ensures ok { OnOk result (out.new.items
        ≡ out.old.items ++ (varint shared ++ (varint unshared ++ varint value))) }
    ensures err { OnErr result (take (length out.old.items) out.new.items ≡ out.old.items) }
    ensures memory { IsOkUnless result (fault Memory) }
{
    if shared < 128 && unshared < 128 && value < 128 {
        // Each of the three varints takes one byte.
        out.extend_from_slice(&[shared as u8, unshared as u8, value as u8])?;
        return Ok(());
    }
    push_varint(out, shared as u64)?;
    push_varint(out, unshared as u64)?;
    push_varint(out, value as u64)
}

/// Appends what ends a block: its restarts and their count, four bytes each.
///
/// Memory may leave some of them after the bytes that were there.
pub fn push_restarts(out: &mut Vec<u8>, restarts: &[u32]) -> Result<(), Fault>
    requires { length restarts.now < 2 ^ 32 }
    ensures ok { OnOk result (out.new.items ≡ out.old.items ++ restart_bytes restarts.now) }
    ensures err { OnErr result (take (length out.old.items) out.new.items ≡ out.old.items) }
    ensures memory { IsOkUnless result (fault Memory) }
{
    out.reserve(4 * restarts.len() + 4)?;
    for restart in restarts {
        let mut offset = [0u8; 4];
        LittleEndian::write_u32(&mut offset, *restart);
        out.extend_from_slice(&offset)?;
    }
    let mut count = [0u8; 4];
    LittleEndian::write_u32(&mut count, restarts.len() as u32);
    out.extend_from_slice(&count)?;
    Ok(())
}
