//! The walk over the entries of a block.

ghost use Rattle.std.specs.Prelude.{◌≡◌, ◌<◌, ◌↔◌, [], length, IsTrue, IfOk, OnOk, OnErr};
ghost use Rattle.std.specs.Prelude.{IsOkUnless, IfErr, slice_get, slice_index, Some, drop};
ghost use Rattle.std.specs.Option.{option_map};
ghost use Rattle.block.specs.EntriesOfBytes.{entries_of_encoded, AreEncodedEntriesAfter};
ghost use Rattle.coding.specs.Answers.{fault};
ghost use Rattle.coding.specs.declared.fault.FaultName.TheVariants.{Memory};

use crate::front_entry::front_entry_at;
use crate::key_room::KeyRoom;
use crate::read_ahead::ReadAhead;
use crate::sound_block::SoundBlock;
use coding::Fault;
use std::alloc::Global;
use std::marker::Model;

/// A place in a block: the entries from there on, in the order of the block.
///
/// It lends the block's bytes, and owns one key.
#[derive(Drop)]
pub struct BlockCursor<'a> {
    valid: bool,
    key: KeyRoom,
    value: &'a [u8],
    rest: &'a [u8],
    ahead: ReadAhead,
}

impl<'a> Model for BlockCursor<'a> {
    ghost use Rattle.std.specs.Prelude.{List};
    ghost use Rattle.block.specs.EncodedEntry.{Entry};

    ghost Value = { List Entry };

    ghost use Rattle.block.specs.CursorPlace.{remaining_entries, IsWalking};

    ghost view = { remaining_entries };

    ghost invariant = { IsWalking };
}

impl<'a> BlockCursor<'a> {
    /// All entries of `block`. It takes the memory of one key.
    pub fn new(alloc: Global, block: &SoundBlock<'a>) -> Result<BlockCursor<'a>, Fault>
        ensures all { IfOk result (λ cursor. cursor ≡ block.now.entries) }
        ensures memory { IfErr result (λ e. e ≡ fault Memory) }
    {
        BlockCursor::over(alloc, block.area())
    }

    /// The entries of `block` from its restart of number `restart` on, counted from 0. It takes the
    /// memory of one key.
    pub fn at(alloc: Global, block: &SoundBlock<'a>, restart: u64) -> Result<BlockCursor<'a>, Fault>
        requires { restart < length block.now.restarts }
        ensures from { IfOk result (λ cursor. cursor
            ≡ drop (slice_index block.now.restarts restart) block.now.entries) }
        ensures memory { IfErr result (λ e. e ≡ fault Memory) }
    {
        BlockCursor::over(alloc, block.area_from(restart))
    }

    /// No entries. Takes no memory.
    pub fn none(alloc: Global) -> BlockCursor<'a>
        ensures { result ≡ [] }
    {
        BlockCursor {
            valid: false,
            key: KeyRoom::new(alloc),
            value: &[],
            rest: &[],
            ahead: ReadAhead::nothing(),
        }
    }

    /// Whether an entry is still to come.
    #[inline(always)]
    pub fn valid(&self) -> bool
        ensures { IsTrue result ↔ (0 < length self.now) }
    {
        self.valid
    }

    /// The key of the next entry, until the next `advance`.
    #[inline(always)]
    pub fn key(&self) -> &[u8]
        requires { 0 < length self.now }
        ensures { option_map (λ e. e.key) (slice_get self.now 0) ≡ Some result.now }
    {
        self.key.as_slice()
    }

    /// The value of the next entry, a part of the block's bytes.
    #[inline(always)]
    pub fn value(&self) -> &'a [u8]
        requires { 0 < length self.now }
        ensures { option_map (λ e. e.value) (slice_get self.now 0) ≡ Some result.now }
    {
        self.value
    }

    /// Whether the next entry is the last one.
    #[inline(always)]
    pub fn is_last(&self) -> bool
        requires { 0 < length self.now }
        ensures { IsTrue result ↔ (length self.now ≡ 1) }
    {
        self.rest.is_empty()
    }

    /// Takes off the next entry.
    #[inline(always)]
    pub fn advance(&mut self) -> Result<(), Fault>
        requires { 0 < length self.old }
        ensures ok { OnOk result (self.new ≡ drop 1 self.old) }
        ensures err { OnErr result (self.new ≡ self.old) }
        ensures memory { IsOkUnless result (fault Memory) }
    {
        let Some(front) = front_entry_at(self.rest) else {
            self.valid = false;
            return Ok(());
        };
        self.key.replace_end(front.shared, front)?;
        self.value = front.value;
        self.rest = front.rest;
        self.ahead.reach(front.rest);
        Ok(())
    }

    /// Goes to the first entry of another block. The key stays in the same memory if that is
    /// enough.
    pub fn enter(&mut self, block: &SoundBlock<'a>) -> Result<(), Fault>
        ensures ok { OnOk result (self.new ≡ block.now.entries) }
        ensures err { OnErr result (self.new ≡ self.old) }
        ensures memory { IsOkUnless result (fault Memory) }
    {
        let Some(first) = front_entry_at(block.area()) else {
            self.valid = false;
            return Ok(());
        };
        self.key.replace_end(0, first)?;
        self.valid = true;
        self.value = first.value;
        self.rest = first.rest;
        self.ahead = ReadAhead::nothing();
        Ok(())
    }

    /// The entries in `encoded`, the first of which has its whole key.
    fn over(alloc: Global, encoded: &'a [u8]) -> Result<BlockCursor<'a>, Fault>
        requires { AreEncodedEntriesAfter [] encoded.now }
        ensures all { IfOk result (λ cursor. cursor ≡ entries_of_encoded [] encoded.now) }
        ensures memory { IfErr result (λ e. e ≡ fault Memory) }
    {
        let Some(front) = front_entry_at(encoded) else {
            return Ok(BlockCursor::none(alloc));
        };
        let mut key = KeyRoom::new(alloc);
        key.replace_end(front.shared, front)?;
        Ok(BlockCursor {
            valid: true,
            key,
            value: front.value,
            rest: front.rest,
            ahead: ReadAhead::nothing(),
        })
    }
}
