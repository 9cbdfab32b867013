//! Consecutive kept entries of a chunk.

ghost use Rattle.std.specs.Prelude.{◌≡◌, ◌+◌, ◌-◌, ◌^◌, ◌<◌, ◌≤◌, [], take, drop, length, Some};
ghost use Rattle.std.specs.Prelude.{slice_get, slice_range};
ghost use Rattle.std.specs.Option.{option_map};
ghost use Rattle.reads.specs.BuilderView.{last_key};
ghost use Rattle.keep.specs.KeyBuffer.{entries_at, start_of, AreKeys};
ghost use Rattle.keep.specs.SharedLengths.{shared_lens};
ghost use Rattle.keep.specs.Sizes.{later_entries_size};

use crate::kept_entry::KeptEntry;
use ikey::InternalKey;
use std::marker::Model;

/// Consecutive kept entries of a run that lie in one chunk.
///
/// A walk finds the chunk once for all its entries, and has the lengths that
/// their keys share.
#[derive(Drop)]
pub struct ChunkSlice<'k, 'a> {
    /// The keys of the chunk.
    keys: &'k [u8],
    /// The offset of the first key.
    start: usize,
    kept: &'k [KeptEntry<'a>],
}

impl<'k, 'a> Model for ChunkSlice<'k, 'a> {
    ghost use Rattle.std.specs.Prelude.{List};
    ghost use Rattle.reads.specs.EncodedEntry.{Entry};

    ghost Value = { List Entry };

    ghost use Rattle.keep.specs.KeyBuffer.{entries_at, AreKeys};

    ghost view = { λ p. entries_at p.start p.keys.now p.kept.now };

    ghost invariant = { λ p. AreKeys p.start p.keys.now p.kept.now };
}

impl<'k, 'a> ChunkSlice<'k, 'a> {
    /// The entries of a chunk from `place` on; `keys` and `kept` are those of the chunk.
    pub(crate) fn of(keys: &'k [u8], kept: &'k [KeptEntry<'a>], place: usize) -> ChunkSlice<'k, 'a>
        requires place { place < length kept.now }
        requires keys { AreKeys 0 keys.now kept.now }
        ensures { result ≡ drop place (entries_at 0 keys.now kept.now) }
    {
        let start = start_of(0, kept, place);
        let (_, rest) = kept.split_at(place);
        ChunkSlice {
            keys,
            start,
            kept: rest,
        }
    }

    /// The number of entries.
    #[inline(always)]
    pub fn len(&self) -> usize
        ensures { result ≡ length self.now }
    {
        self.kept.len()
    }

    /// The internal key of the entry at `place`.
    #[inline(always)]
    pub fn key(&self, place: usize) -> InternalKey<'k>
        requires { place < length self.now }
        ensures { option_map (λ e. e.key) (slice_get self.now place) ≡ Some result.bytes.now }
    {
        let start = start_of(self.start, self.kept, place);
        let entry = entry_of(self.kept, place);
        let bytes = part_of(self.keys, start, entry.end as usize);
        InternalKey { bytes }
    }

    /// How many bytes the key of the entry at `place` shares with that of the entry before it. That
    /// entry has to be in the slice.
    #[inline(always)]
    pub fn shared(&self, place: usize) -> usize
        requires before { 0 < place }
        requires within { place < length self.now }
        ensures { slice_get (shared_lens [] self.now) place ≡ Some result }
    {
        entry_of(self.kept, place).shared as usize
    }

    /// The lengths that the entries from `place` on and before `end` have in a block if no restart
    /// points at them, added up; 2^64 - 1 if that isn't known. An entry before them has to be in
    /// the slice.
    #[inline(always)]
    pub fn len_of(&self, place: usize, end: usize) -> u64
        requires before { 0 < place }
        requires rises { place ≤ end }
        requires within { end ≤ length self.now }
        ensures { result < 2 ^ 64 - 1 → result ≡ later_entries_size
            (last_key [] (take place self.now)) (take (end - place) (drop place self.now)) }
    {
        let sum = entry_of(self.kept, end - 1).sum;
        if sum == u64::MAX {
            return sum;
        }
        sum - entry_of(self.kept, place - 1).sum
    }

    /// The value of the entry at `place`, a slice of an input's bytes.
    #[inline(always)]
    pub fn value(&self, place: usize) -> &'a [u8]
        requires { place < length self.now }
        ensures { option_map (λ e. e.value) (slice_get self.now place) ≡ Some result.now }
    {
        entry_of(self.kept, place).value
    }
}

/// The entry at `place`.
#[inline(always)]
fn entry_of<'k, 'a>(kept: &'k [KeptEntry<'a>], place: usize) -> &'k KeptEntry<'a>
    requires { place < length kept.now }
    ensures { slice_get kept.now place ≡ Some result.now }
{
    &kept[place]
}

/// The offset of the key of the entry at `place`, if that of the first is `start`.
#[inline(always)]
fn start_of(start: usize, kept: &[KeptEntry<'_>], place: usize) -> usize
    requires { place < length kept.now }
    ensures { result ≡ start_of start kept.now place }
{
    if place == 0 {
        start
    } else {
        entry_of(kept, place - 1).end as usize
    }
}

/// The bytes from offset `start` to before offset `end`.
#[inline(always)]
fn part_of(bytes: &[u8], start: usize, end: usize) -> &[u8]
    requires rises { start ≤ end }
    requires within { end ≤ length bytes.now }
    ensures { result.now ≡ slice_range bytes.now start end }
{
    &bytes[start..end]
}
