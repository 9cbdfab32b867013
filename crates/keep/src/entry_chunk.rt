//! A chunk of the kept entries of a range.
//!
//!     keys    key 0 | key 1 | key 2 | ...      one buffer
//!     kept    end of key i in it, the length that it shares with key i - 1,
//!             value i                          a slice of an input's bytes
//!             and the lengths up to entry i in a block, added up

ghost use Rattle.std.specs.Prelude.{◌≡◌, ◌<◌, [], ◌∷◌, ◌++◌, length, drop, OnOk, OnErr};
ghost use Rattle.std.specs.Prelude.{IsOkUnless, Ok, ◌≤◌, nat_eq, map};
ghost use Rattle.std.specs.List.{common_prefix_len};
ghost use Rattle.reads.specs.BuilderView.{last_key};
ghost use Rattle.coding.specs.Answers.{EqualOrMemory, fault};
ghost use Rattle.coding.specs.declared.fault.FaultName.TheVariants.{Memory};
ghost use Rattle.keep.specs.KeyBuffer.{IsNextSum};

use crate::chunk_slice::ChunkSlice;
use crate::kept_entry::KeptEntry;
use crate::lengths::encoded_entry_len;
use coding::Fault;
use ikey::InternalKey;
use std::alloc::Global;
use std::marker::Model;

/// A list of kept entries.
///
/// Their keys lie in one buffer, one after the other. Their values are slices of the inputs' bytes.
#[derive(Drop)]
pub(crate) struct EntryChunk<'a> {
    keys: Vec<u8>,
    kept: Vec<KeptEntry<'a>>,
}

impl<'a> Model for EntryChunk<'a> {
    ghost use Rattle.std.specs.Prelude.{List};
    ghost use Rattle.reads.specs.EncodedEntry.{Entry};

    ghost Value = { List Entry };

    ghost use Rattle.keep.specs.KeyBuffer.{entries_at, AreKeys};

    ghost view = { λ p. entries_at 0 p.keys.items p.kept.items };

    ghost invariant = { λ p. AreKeys 0 p.keys.items p.kept.items };
}

impl<'a> EntryChunk<'a> {
    /// The empty chunk. Takes no memory.
    pub fn new(alloc: Global) -> EntryChunk<'a>
        ensures { result ≡ [] }
    {
        EntryChunk {
            keys: Vec::new(alloc),
            kept: Vec::new(alloc),
        }
    }

    /// An empty chunk with room for as many entries as this one has, and for as many bytes of keys.
    pub fn emptied(&self, alloc: Global) -> Result<EntryChunk<'a>, Fault>
        ensures { EqualOrMemory (λ entries. entries) result (Ok []) }
    {
        Ok(EntryChunk {
            keys: Vec::with_capacity(alloc, self.keys.len())?,
            kept: Vec::with_capacity(alloc, self.kept.len())?,
        })
    }

    /// Appends an entry whose key shares `shared` bytes with the last one. Requires that there are
    /// fewer than 4,096.
    pub fn push(
        &mut self,
        key: InternalKey<'_>,
        value: &'a [u8],
        shared: usize,
    ) -> Result<(), Fault>
        requires room { length self.old < 4096 }
        requires shared { 0 < length self.old →
            shared ≡ common_prefix_len nat_eq (last_key [] self.old) key.bytes.now }
        requires within { shared ≤ length key.bytes.now }
        ensures ok { OnOk result (self.new ≡ self.old
            ++ record { key = key.entry.bytes.now; value = value.now } ∷ []) }
        ensures err { OnErr result (self.new ≡ self.old) }
        ensures memory { IsOkUnless result (fault Memory) }
    {
        self.kept.reserve(1)?;
        self.keys.extend_from_slice(key.bytes())?;
        let end = self.keys.len();
        let len = encoded_entry_len(shared, key.bytes().len() - shared, value.len());
        let entry = KeptEntry {
            end: end as u32,
            shared: shared as u32,
            value,
            sum: next_sum(&self.kept, len),
        };
        self.kept.push(entry).unwrap();
        Ok(())
    }

    /// The number of entries.
    pub fn len(&self) -> usize
        ensures { result ≡ length self.now }
    {
        self.kept.len()
    }

    /// The entries from `place` on.
    #[inline(always)]
    pub fn slice_from(&self, place: usize) -> ChunkSlice<'_, 'a>
        requires { place < length self.now }
        ensures { result ≡ drop place self.now }
    {
        ChunkSlice::of(&self.keys, &self.kept, place)
    }
}

/// The sum of lengths up to an entry of this length after those kept; 0 if it is the first.
fn next_sum(kept: &[KeptEntry<'_>], len: u64) -> u64
    ensures { IsNextSum (map (λ k. k.sum) kept.now) len result }
{
    match kept.last() {
        Some(last) => last.sum.saturating_add(len),
        None => 0,
    }
}
