//! What a merge of a range answers.

ghost use Rattle.std.specs.Prelude.{◌≡◌, ◌<◌, [], ◌∷◌, ◌++◌, length, take, drop, slice_get};
ghost use Rattle.std.specs.Prelude.{OnOk, OnErr, IsOkUnless, Some, nat_eq, ◌≤◌};
ghost use Rattle.std.specs.List.{AllByRecursion, common_prefix_len};
ghost use Rattle.reads.specs.BuilderView.{last_key};
ghost use Rattle.std.specs.Option.{option_map};
ghost use Rattle.coding.specs.Answers.{fault};
ghost use Rattle.coding.specs.declared.fault.FaultName.TheVariants.{Memory};
ghost use Rattle.ikey.specs.Key.{IsInternalKey};
ghost use Rattle.ikey.specs.declared.key.TheConstants.{TAG_LEN};
ghost use Rattle.keep.specs.Runs.{Run};

use crate::chunk_slice::ChunkSlice;
use crate::entry_chunks::EntryChunks;
use crate::mark::Mark;
use coding::Fault;
use ikey::InternalKey;
use std::alloc::Global;
use std::marker::Model;

/// The kept entries of a range, and its marks.
///
/// Entries lie in chunks of 4,096. A chunk has its keys in one buffer; values are slices of the
/// inputs' bytes. So an entry takes 32 bytes and those of its key, and no allocation of its own.
#[derive(Drop)]
pub struct RangeRun<'a> {
    kept: EntryChunks<'a>,
    marks: Vec<Mark>,
}

impl<'a> Model for RangeRun<'a> {
    ghost use Rattle.keep.specs.Runs.{Run};

    ghost Value = { Run };

    ghost view = { λ r. record { kept = r.kept; marks = r.marks.items } };
}

impl<'a> RangeRun<'a> {
    /// No entry and no mark.
    pub fn new(alloc: Global) -> RangeRun<'a>
        ensures { result ≡ record { kept = []; marks = [] } }
    {
        RangeRun {
            kept: EntryChunks::new(alloc),
            marks: Vec::new(alloc),
        }
    }

    /// Appends a kept entry whose key shares `shared` bytes with the last one.
    pub fn push(
        &mut self,
        key: InternalKey<'_>,
        value: &'a [u8],
        shared: usize,
    ) -> Result<(), Fault>
        requires shared { shared
            ≡ common_prefix_len nat_eq (last_key [] self.old.kept) key.bytes.now }
        requires within { shared ≤ length key.bytes.now }
        ensures ok { OnOk result (self.new ≡ record {
          kept = self.old.kept ++ record { key = key.entry.bytes.now; value = value.now } ∷ [];
          marks = self.old.marks;
        }) }
        ensures err { OnErr result (self.new ≡ self.old) }
        ensures memory { IsOkUnless result (fault Memory) }
    {
        self.kept.push(key, value, shared)
    }

    /// The bytes of the last kept key, an internal key; none if there is no entry.
    pub fn last_key(&self) -> &[u8]
        ensures value { result.now ≡ last_key [] self.now.kept }
        ensures tagged { 0 < length self.now.kept → TAG_LEN ≤ length result.now }
    {
        let len = self.kept.len();
        if len == 0 {
            return &[];
        }
        self.kept.slice_from(len - 1).key(0).bytes()
    }

    /// Appends a mark, with `below` grandparents, before the next kept entry.
    pub fn push_mark(&mut self, below: usize) -> Result<(), Fault>
        ensures ok { OnOk result (self.new ≡ record {
          kept = self.old.kept;
          marks = self.old.marks ++ record { below = below; kept = length self.old.kept } ∷ [];
        }) }
        ensures err { OnErr result (self.new ≡ self.old) }
        ensures memory { IsOkUnless result (fault Memory) }
    {
        let kept = self.kept.len();
        self.marks.push(Mark { below, kept })?;
        Ok(())
    }

    /// The number of kept entries. Their keys are internal keys.
    pub fn len(&self) -> usize
        ensures number { result ≡ length self.now.kept }
        ensures keys { AllByRecursion (λ e. IsInternalKey e.key) self.now.kept }
    {
        self.kept.len()
    }

    /// The internal key of the kept entry at `place`.
    pub fn key(&self, place: usize) -> InternalKey<'_>
        requires { place < length self.now.kept }
        ensures { option_map (λ e. e.key) (slice_get self.now.kept place) ≡ Some result.bytes.now }
    {
        self.kept.slice_from(place).key(0)
    }

    /// The value of the kept entry at `place`, a slice of an input's bytes.
    pub fn value(&self, place: usize) -> &'a [u8]
        requires { place < length self.now.kept }
        ensures { option_map (λ e. e.value) (slice_get self.now.kept place) ≡ Some result.now }
    {
        self.kept.slice_from(place).value(0)
    }

    /// The kept entries from `place` on that lie in one chunk, at least one.
    #[inline(always)]
    pub fn slice_from(&self, place: usize) -> ChunkSlice<'_, 'a>
        requires { place < length self.now.kept }
        ensures some { 0 < length result }
        ensures front { take (length result) (drop place self.now.kept) ≡ result }
    {
        self.kept.slice_from(place)
    }

    /// The marks, in order.
    ///
    /// The run of a range has one at its first entry. It has another at each user key at which the
    /// number of grandparents below differs from that of the user key before.
    pub fn marks(&self) -> &[Mark]
        ensures { result.now ≡ self.now.marks }
    {
        &self.marks
    }
}
