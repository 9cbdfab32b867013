//! Writing a block, entry by entry.

ghost use Rattle.std.specs.Prelude.{◌≡◌, ◌^◌, ◌≤◌, ◌↔◌, [], ◌++◌, length, false, IsTrue, IfOk};
ghost use Rattle.std.specs.Prelude.{IfErr, OnOk, OnErr, IsOkUnless};
ghost use Rattle.coding.specs.Answers.{fault};
ghost use Rattle.coding.specs.declared.fault.FaultName.TheVariants.{Memory};
ghost use Rattle.block.specs.EncodedEntry.{encoded_entry_bytes};
ghost use Rattle.block.specs.BlockFormat.{block};
ghost use Rattle.block.specs.BuilderView.{with_entry, last_key};
ghost use Rattle.block.specs.declared.builder.TheConstants.{MAX_BLOCK_LEN, MAX_RESTART_INTERVAL};

use crate::layout::{next_since, push_fields, push_restarts, shared_len};
use crate::sound_block::RESTART_LEN;
use coding::Fault;
use std::alloc::Global;
use std::marker::Model;

/// The most entries from one restart of a block that is written to the next.
pub const MAX_RESTART_INTERVAL: u64 = 1_024;

/// The most bytes of a block that is written, 2^31.
pub const MAX_BLOCK_LEN: usize = 1 << 31;

/// The bytes of a block without entries: one restart, and the count of restarts.
pub const EMPTY_BLOCK_LEN: usize = 2 * RESTART_LEN;

/// A block that is being written: its restart interval and its entries so far.
///
/// 1. The entry at each multiple of the interval, counted from 0, is stored with its whole key, and
///    a restart points at it. Why: a reader can begin there.
/// 2. Any other entry shares the longest common beginning with the key before it.
///
/// `check` reads the block as the same entries. A block may have at most 2^31 bytes.
#[derive(Drop)]
pub struct BlockBuilder {
    /// The number of entries from one restart to the next.
    interval: u64,
    /// The entries as they are in the block.
    bytes: Vec<u8>,
    /// The offsets of the entries with whole keys.
    restarts: Vec<u32>,
    /// The key of the last entry; empty if there is none.
    last: Vec<u8>,
    /// The number of entries after the last whole interval.
    since: u64,
}

impl Model for BlockBuilder {
    ghost use Rattle.std.specs.Prelude.{[]};
    ghost use Rattle.block.specs.EntriesOfBytes.{entries_of_encoded};
    ghost use Rattle.block.specs.BuilderView.{BlockBuilding};
    ghost use Rattle.block.specs.BuilderState.{IsBlockBuilder};

    ghost Value = { BlockBuilding };

    ghost view = { λ b.
        record { interval = b.interval; entries = entries_of_encoded [] b.bytes.items } };

    ghost invariant = { λ b.
        IsBlockBuilder b.interval (entries_of_encoded [] b.bytes.items) b.bytes.items
        b.restarts.items b.last.items b.since };
}

impl BlockBuilder {
    /// A block without entries, at a restart interval from 1 to 1,024. Takes no memory.
    pub fn new(alloc: Global, interval: u64) -> BlockBuilder
        requires positive { 1 ≤ interval }
        requires limited { interval ≤ MAX_RESTART_INTERVAL }
        ensures { result ≡ record { interval = interval; entries = [] } }
    {
        BlockBuilder {
            interval,
            bytes: Vec::new(alloc),
            restarts: Vec::new(alloc),
            last: Vec::new(alloc),
            since: 0,
        }
    }

    /// Appends an entry. A key is any bytes, and the order of keys isn't tested.
    ///
    /// Requires that the block then has at most 2^31 bytes. One entry adds at most 34 to the bytes
    /// of its key and value.
    pub fn add(&mut self, key: &[u8], value: &[u8]) -> Result<(), Fault>
        requires { length (block self.old.interval (with_entry self.old.entries key.now value.now))
            ≤ MAX_BLOCK_LEN }
        ensures ok { OnOk result (self.new ≡ record {
          interval = self.old.interval;
          entries = with_entry self.old.entries key.now value.now;
        }) }
        ensures err { OnErr result (self.new ≡ self.old) }
        ensures memory { IsOkUnless result (fault Memory) }
    {
        let shared = shared_len(self.since, &self.last, key);
        // Each growth comes before the first change, so that a refused one changes nothing.
        self.restarts.reserve(1)?;
        self.last.reserve(key.len())?;
        let offset = self.bytes.len();
        push_encoded_entry(&mut self.bytes, shared, &key[shared..], value)?;
        if self.since == 0 {
            self.restarts.push(offset as u32)?;
        }
        self.last.truncate(shared);
        self.last.extend_from_slice(&key[shared..])?;
        self.since = next_since(self.since, self.interval);
        Ok(())
    }

    /// The length in bytes, from 8 to 2^31, of the block that `finish` would answer now.
    pub fn estimate(&self) -> usize
        ensures { result ≡ length (block self.now.interval self.now.entries) }
    {
        // A block without entries has one restart.
        self.bytes.len() + 4 * self.restarts.len().max(1) + 4
    }

    /// Whether there is no entry.
    pub fn is_empty(&self) -> bool
        ensures { IsTrue result ↔ (self.now.entries ≡ []) }
    {
        self.bytes.is_empty()
    }

    /// The key of the last entry; empty if there is none.
    pub fn last_key(&self) -> &[u8]
        ensures { result.now ≡ last_key [] self.now.entries }
    {
        &self.last
    }

    /// Takes all entries out, and keeps their memory for other entries.
    pub fn clear(&mut self)
        ensures { self.new ≡ record { interval = self.old.interval; entries = [] } }
    {
        self.bytes.clear();
        self.restarts.clear();
        self.last.clear();
        self.since = 0;
    }

    /// Appends the block that `finish` would answer now.
    pub fn push_block(&self, out: &mut Vec<u8>) -> Result<(), Fault>
        ensures ok { OnOk result (out.new.items
            ≡ out.old.items ++ block self.now.interval self.now.entries) }
        ensures err { OnErr result (out.new.items ≡ out.old.items) }
        ensures memory { IsOkUnless result (fault Memory) }
    {
        let start = out.len();
        // A block without entries has one restart.
        let only = [0];
        let written = if self.restarts.is_empty() {
            only.as_slice()
        } else {
            self.restarts.as_slice()
        };
        out.extend_from_slice(&self.bytes)?;
        if let Err(refused) = push_restarts(out, written) {
            out.truncate(start);
            return Err(refused);
        }
        Ok(())
    }

    /// The block: the entries, their restarts, and the count of restarts. A block without entries
    /// has the one restart 0.
    ///
    /// The only fault is Memory, and then the builder and its entries are gone.
    pub fn finish(self) -> Result<Vec<u8>, Fault>
        ensures ok { IfOk result (λ bytes. bytes.items ≡ block self.interval self.entries) }
        ensures memory { IfErr result (λ e. e ≡ fault Memory) }
    {
        let BlockBuilder {
            mut bytes,
            restarts,
            ..
        } = self;
        // A block without entries has one restart.
        let first = [0];
        let written = if restarts.is_empty() {
            first.as_slice()
        } else {
            restarts.as_slice()
        };
        push_restarts(&mut bytes, written)?;
        Ok(bytes)
    }
}

/// Appends the fields of an entry.
fn push_encoded_entry(
    out: &mut Vec<u8>,
    shared: usize,
    unshared: &[u8],
    value: &[u8],
) -> Result<(), Fault>
    ensures ok { OnOk result (out.new.items ≡ out.old.items ++ encoded_entry_bytes (record {
      is_restart = false;
      shared = shared;
      unshared = unshared.now;
      value = value.now;
    })) }
    ensures err { OnErr result (out.new.items ≡ out.old.items) }
    ensures memory { IsOkUnless result (fault Memory) }
{
    let start = out.len();
    let written = push_fields(out, shared, unshared, value);
    if written.is_err() {
        out.truncate(start);
    }
    written
}
