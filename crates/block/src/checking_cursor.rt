//! The walk over bytes that may be a block.

ghost use Rattle.std.specs.Prelude.{◌≡◌, ◌<◌, ◌↔◌, [], false, length, drop, slice_get, IsTrue};
ghost use Rattle.std.specs.Prelude.{IfOk, IfErr, OnOk, OnErr, Some, Ok};
ghost use Rattle.std.specs.Option.{option_map};
ghost use Rattle.coding.specs.Answers.{FailsOrMemory};
ghost use Rattle.block.specs.BlockReading.{block_reading};

use crate::key_room::KeyRoom;
use crate::sound_block::{are_begun, next_entry, split};
use coding::{Fault, FaultName};
use std::alloc::Global;
use std::marker::Model;

/// A place in bytes that may be a block: the bytes, the entries in them, and those still to come.
///
/// Each step tests one entry more and what restarts say of it, as `check` does. If no entry is
/// still to come, the bytes are a block of the entries. Until then a step may refuse them. So the
/// entries themselves can be tested in the same walk.
///
/// Over bytes that are a block it shows the entries that `check` reads. Over others it may show
/// some entries before it is refused. It lends the bytes, and owns one key.
#[derive(Drop)]
pub struct CheckingCursor<'a> {
    bytes: &'a [u8],
    area: &'a [u8],
    pending: &'a [u8],
    rest: &'a [u8],
    valid: bool,
    key: KeyRoom,
    value: &'a [u8],
}

impl<'a> Model for CheckingCursor<'a> {
    ghost use Rattle.block.specs.CheckedBytes.{BlockChecking};

    ghost Value = { BlockChecking };

    ghost use Rattle.block.specs.CheckingWalk.{checking_of, IsTesting};

    ghost view = { checking_of };

    ghost invariant = { IsTesting };
}

impl<'a> CheckingCursor<'a> {
    /// The end of a block without entries. Takes no memory.
    pub fn none(alloc: Global) -> CheckingCursor<'a>
        ensures { result.ahead ≡ [] }
    {
        CheckingCursor {
            bytes: &[0, 0, 0, 0, 1, 0, 0, 0],
            area: &[],
            pending: &[],
            rest: &[],
            valid: false,
            key: KeyRoom::new(alloc),
            value: &[],
        }
    }

    /// Goes to the first entry of other bytes. The key stays in the same memory if that is enough.
    ///
    /// Faults: Block if this step finds that the bytes are no block; else only Memory. A refusal
    /// leaves the cursor unchanged.
    pub fn enter(&mut self, bytes: &'a [u8]) -> Result<(), Fault>
        ensures bytes { OnOk result (self.new.bytes ≡ bytes.now) }
        ensures ahead { OnOk result (self.new.ahead ≡ self.new.all) }
        ensures all { OnOk result
            (IfOk (block_reading bytes.now) (λ entries. self.new.all ≡ entries)) }
        ensures err { OnErr result (self.new ≡ self.old) }
        ensures refused { IfErr result (λ e. FailsOrMemory e (block_reading bytes.now)) }
    {
        let Some(parts) = split(bytes) else {
            return Err(Fault::of(FaultName::Block));
        };
        if !are_begun(parts.area, parts.restarts) {
            return Err(Fault::of(FaultName::Block));
        }
        if parts.area.is_empty() {
            self.bytes = bytes;
            self.area = parts.area;
            self.valid = false;
            return Ok(());
        }
        let Some(first) = next_entry(parts.area, parts.area, parts.restarts, 0) else {
            return Err(Fault::of(FaultName::Block));
        };
        self.key.replace_end(0, first.front)?;
        self.bytes = bytes;
        self.area = parts.area;
        self.pending = first.pending;
        self.rest = first.front.rest;
        self.valid = true;
        self.value = first.front.value;
        Ok(())
    }

    /// Whether an entry is still to come. If none is, the bytes are a block of all the entries.
    #[inline(always)]
    pub fn valid(&self) -> bool
        ensures some { IsTrue result ↔ (0 < length self.now.ahead) }
        ensures ended { result ≡ false → block_reading self.now.bytes ≡ Ok self.now.all }
    {
        self.valid
    }

    /// The key of the next entry, until the next `advance`.
    #[inline(always)]
    pub fn key(&self) -> &[u8]
        requires { 0 < length self.now.ahead }
        ensures { option_map (λ e. e.key) (slice_get self.now.ahead 0) ≡ Some result.now }
    {
        self.key.as_slice()
    }

    /// The value of the next entry, a part of the bytes.
    #[inline(always)]
    pub fn value(&self) -> &'a [u8]
        requires { 0 < length self.now.ahead }
        ensures { option_map (λ e. e.value) (slice_get self.now.ahead 0) ≡ Some result.now }
    {
        self.value
    }

    /// Takes off the next entry, and tests the one after it.
    ///
    /// Faults: Block if this step finds that the bytes are no block; else only Memory. A refusal
    /// leaves the cursor unchanged.
    #[inline(always)]
    pub fn advance(&mut self) -> Result<(), Fault>
        requires { 0 < length self.old.ahead }
        ensures ok { OnOk result (self.new ≡ record {
          bytes = self.old.bytes;
          all = self.old.all;
          ahead = drop 1 self.old.ahead;
        }) }
        ensures err { OnErr result (self.new ≡ self.old) }
        ensures refused { IfErr result (λ e. FailsOrMemory e (block_reading self.old.bytes)) }
    {
        if self.rest.is_empty() {
            if !self.pending.is_empty() {
                return Err(Fault::of(FaultName::Block));
            }
            self.valid = false;
            return Ok(());
        }
        let key_len = self.key.len();
        let Some(next) = next_entry(self.area, self.rest, self.pending, key_len) else {
            return Err(Fault::of(FaultName::Block));
        };
        self.key.replace_end(next.front.shared, next.front)?;
        self.pending = next.pending;
        self.rest = next.front.rest;
        self.value = next.front.value;
        Ok(())
    }
}
