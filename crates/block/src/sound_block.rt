//! Which bytes are a block: the tests of a reader.

ghost use Rattle.std.specs.Prelude.{◌≡◌, ◌≢◌, ◌<◌, ◌≤◌, ◌^◌, ◌↔◌, [], length, drop, slice_get};
ghost use Rattle.std.specs.Prelude.{slice_index, Some, IsTrue, IfSome, IfNone, IfOk, IsOkAnd};
ghost use Rattle.std.specs.Prelude.{IfErr, List, ℕ};
ghost use Rattle.std.specs.List.{All};
ghost use Rattle.std.specs.Option.{option_map};
ghost use Rattle.std.specs.List.Sorted.{IsStrictlyIncreasing};
ghost use Rattle.block.specs.EncodedEntry.{Entry, IsBlock};
ghost use Rattle.block.specs.BuilderState.{IsArea};
ghost use Rattle.block.specs.EntriesOfBytes.{entries_of_encoded, AreEncodedEntriesAfter};
ghost use Rattle.block.specs.BlockView.{PointsAt};
ghost use Rattle.block.specs.FrontField.{front_field};
ghost use Rattle.block.specs.BlockParts.{BeginsWith, HasBlockParts};
ghost use Rattle.block.specs.BlockPass.{IsNextEncodedEntry, PassState};
ghost use Rattle.coding.specs.Answers.{fault};
ghost use Rattle.coding.specs.declared.fault.FaultName.TheVariants.{Block};

use crate::front::FrontEntry;
use crate::front_entry::front_entry_at;
use byteorder::{ByteOrder, LittleEndian};
use coding::{Fault, FaultName};
use std::marker::Model;

/// The bytes of a restart, and of the count of restarts.
pub const RESTART_LEN: usize = 4;

/// A block that was checked: its entries, and the places among them at which its restarts point.
///
/// The place of a restart is the number of entries before it. The entry there has its whole key, so
/// a walk can begin there. The first place is 0, and each is above the one before it.
#[derive(Drop)]
pub struct SoundBlock<'a> {
    area: &'a [u8],
    restarts: &'a [u8],
}

impl<'a> Model for SoundBlock<'a> {
    ghost use Rattle.block.specs.BuilderState.{IsArea, sound_in};
    ghost use Rattle.block.specs.BlockView.{BlockView};

    ghost Value = { BlockView };

    ghost view = { λ b. sound_in b.area.now b.restarts.now };

    ghost invariant = { λ b. IsArea b.area.now b.restarts.now };
}

impl<'a> SoundBlock<'a> {
    /// The number of restarts, 1 or more.
    pub fn restarts(&self) -> u64
        ensures count { result ≡ length self.now.restarts }
        ensures some { 0 < result }
        ensures first { slice_get self.now.restarts 0 ≡ Some 0 }
        ensures rising { IsStrictlyIncreasing self.now.restarts }
        ensures within { 0 < length self.now.entries →
            All (λ place. place < length self.now.entries) self.now.restarts }
    {
        (self.restarts.len() / RESTART_LEN) as u64
    }

    /// The key of the entry at the restart of number `restart`, counted from 0; None if the block
    /// has no entries. It is a part of the block's bytes.
    ///
    /// It reads that entry alone, and takes no memory.
    pub fn key_at(&self, restart: u64) -> Option<&'a [u8]>
        requires { restart < length self.now.restarts }
        ensures { option_map (λ key. key.now) result
            ≡ option_map (λ e. e.key)
            (slice_get self.now.entries (slice_index self.now.restarts restart)) }
    {
        let front = front_entry_at(self.area_from(restart))?;
        Some(front.unshared)
    }

    /// The same block, over the same bytes.
    pub fn copy(&self) -> SoundBlock<'a>
        ensures { result ≡ self.now }
    {
        SoundBlock {
            area: self.area,
            restarts: self.restarts,
        }
    }

    /// The bytes before the restarts.
    pub(crate) fn area(&self) -> &'a [u8]
        ensures entries { entries_of_encoded [] result.now ≡ self.now.entries }
        ensures encoded { AreEncodedEntriesAfter [] result.now }
    {
        self.area
    }

    /// The bytes from the entry at a restart up to the restarts.
    pub(crate) fn area_from(&self, restart: u64) -> &'a [u8]
        requires { restart < length self.now.restarts }
        ensures entries { entries_of_encoded [] result.now
            ≡ drop (slice_index self.now.restarts restart) self.now.entries }
        ensures encoded { AreEncodedEntriesAfter [] result.now }
    {
        let (_, numbers) = self.restarts.split_at(restart as usize * RESTART_LEN);
        let offset = LittleEndian::read_u32(numbers) as usize;
        let (_, rest) = self.area.split_at(offset);
        rest
    }
}

/// Reads bytes as a block: its entries, and the places among them at which its restarts point.
///
/// Bytes are a block if all of this holds; else they are refused as Block, and for nothing else:
///
/// - there is at least one restart, and the restarts are before the count, four bytes each;
/// - the first restart is 0, and the restarts rise strictly;
/// - the bytes before the restarts are entries, one after the other, with nothing left over;
/// - an entry is three varints below 2^32, each in its shortest spelling, then the unshared bytes
///   of its key, then its value;
/// - shared is at most the length of the key before, and 0 at the first entry;
/// - each restart is the offset of an entry whose shared is 0;
/// - if there is no entry, there is one restart.
///
/// Any such block is read, not only that of `BlockBuilder`: a key may share fewer bytes than it
/// could, and a restart may point at any entry that shares nothing. The order of keys isn't tested.
///
/// It reads the bytes once, and takes no memory.
pub fn check(bytes: &[u8]) -> Result<SoundBlock<'_>, Fault>
    ensures found { IfOk result (λ block. IsBlock bytes.now block.entries) }
    ensures places { IfOk result (λ block. PointsAt bytes.now block.restarts) }
    ensures only { (entries : List Entry) → IsBlock bytes.now entries →
        IsOkAnd result (λ block. block.entries ≡ entries) }
    ensures refused { IfErr result (λ e. e ≡ fault Block) }
{
    let Some(parts) = split(bytes) else {
        return Err(Fault::of(FaultName::Block));
    };
    if !are_entries(parts.area, parts.restarts) {
        return Err(Fault::of(FaultName::Block));
    }
    Ok(SoundBlock {
        area: parts.area,
        restarts: parts.restarts,
    })
}

/// Reads bytes that are known to be a block, as those that [`check`] accepted. No test is made
/// again.
///
/// It reads only the count of restarts, whatever the block holds, and takes no memory.
pub fn reopen(bytes: &[u8]) -> SoundBlock<'_>
    requires { (entries : List Entry) × IsBlock bytes.now entries }
    ensures found { IsBlock bytes.now result.entries }
    ensures places { PointsAt bytes.now result.restarts }
    ensures only { (entries : List Entry) → IsBlock bytes.now entries → result.entries ≡ entries }
{
    let Some(parts) = split(bytes) else {
        unreachable!();
    };
    SoundBlock {
        area: parts.area,
        restarts: parts.restarts,
    }
}

/// The two parts of a block before the count of its restarts.
#[derive(Clone, Copy)]
pub(crate) struct Parts<'a> {
    pub area: &'a [u8],
    pub restarts: &'a [u8],
}

/// The bytes before the restarts, and those of the restarts. None if the bytes have no such parts:
/// at least one restart, and then their count.
pub(crate) fn split(bytes: &[u8]) -> Option<Parts<'_>>
    ensures found { IfSome result
        (λ parts. HasBlockParts bytes.now parts.area.now parts.restarts.now) }
    ensures none { IfNone result ((area restarts : List ℕ) → HasBlockParts bytes.now area restarts →
        ⊥) }
{
    if bytes.len() < RESTART_LEN {
        return None;
    }
    let (front, count) = bytes.split_at(bytes.len() - RESTART_LEN);
    let count = LittleEndian::read_u32(count) as usize;
    if count == 0 || front.len() < count * RESTART_LEN {
        return None;
    }
    let (area, restarts) = front.split_at(front.len() - count * RESTART_LEN);
    Some(Parts { area, restarts })
}

/// Whether the next restart is `at`.
#[inline(always)]
fn is_next(pending: &[u8], at: usize) -> bool
    ensures { IsTrue result ↔ ((at < 2 ^ 32) × BeginsWith pending.now at) }
{
    pending.len() >= RESTART_LEN && LittleEndian::read_u32(pending) as usize == at
}

/// Whether the restarts begin with 0, and are no more than that if there are no entries.
pub(crate) fn are_begun(area: &[u8], restarts: &[u8]) -> bool
    ensures begins { IsTrue result → BeginsWith restarts.now 0 }
    ensures nothing { IsTrue result → area.now ≡ [] → IsArea area.now restarts.now }
    ensures only { IsArea area.now restarts.now → IsTrue result }
{
    if !is_next(restarts, 0) {
        return false;
    }
    if area.is_empty() {
        return restarts.len() == RESTART_LEN;
    }
    true
}

/// The next entry as it is stored, and the restarts after it.
#[derive(Clone, Copy)]
pub(crate) struct NextEntry<'a> {
    pub front: FrontEntry<'a>,
    pub pending: &'a [u8],
}

/// The entry at the front of `rest`, and the restarts after it. None if there is no entry, if it
/// shares more than the key before it has, or if a restart points at it and it shares something.
#[inline(always)]
pub(crate) fn next_entry<'a>(
    area: &[u8],
    rest: &'a [u8],
    pending: &'a [u8],
    key_len: usize,
) -> Option<NextEntry<'a>>
    requires { length rest.now ≤ length area.now }
    ensures next { IfSome result (λ next.
        IsNextEncodedEntry area.now rest.now pending.now key_len (front_field next.front)
        next.pending.now) }
    ensures none { IfNone result ((restarts : List ℕ) → rest.now ≢ [] →
        PassState area.now restarts rest.now pending.now key_len
        → IsArea area.now restarts → ⊥) }
{
    let at = area.len() - rest.len();
    let Some(front) = front_entry_at(rest) else {
        return None;
    };
    if front.shared > key_len {
        return None;
    }
    if !is_next(pending, at) {
        return Some(NextEntry { front, pending });
    }
    if front.shared != 0 {
        return None;
    }
    let (_, pending) = pending.split_at(RESTART_LEN);
    Some(NextEntry { front, pending })
}

/// Whether the bytes before the restarts are entries, and each restart is the offset of an entry
/// that shares nothing.
fn are_entries(area: &[u8], restarts: &[u8]) -> bool
    requires { length restarts.now < 2 ^ 34 }
    ensures { IsTrue result ↔ IsArea area.now restarts.now }
{
    if !are_begun(area, restarts) {
        return false;
    }
    if area.is_empty() {
        return true;
    }
    let mut rest = area;
    let mut pending = restarts;
    let mut key_len = 0;
    while !rest.is_empty() {
        let Some(next) = next_entry(area, rest, pending, key_len) else {
            return false;
        };
        let front = next.front;
        key_len = front.shared + front.unshared.len();
        rest = front.rest;
        pending = next.pending;
    }
    pending.is_empty()
}
