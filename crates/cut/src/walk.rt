//! A walk over the kept entries of runs.

ghost use Rattle.std.specs.Prelude.{◌≡◌, ◌+◌, ◌<◌, ◌≤◌, ◌↔◌, [], length, take, drop, slice_get};
ghost use Rattle.std.specs.Prelude.{IsTrue, Some};
ghost use Rattle.std.specs.Option.{option_map};
ghost use Rattle.cut.specs.EntryWalkView.{left_out_len};
ghost use Rattle.block.specs.BuilderView.{last_key};
ghost use Rattle.keep.specs.Sizes.{later_entries_size};
ghost use Rattle.cut.specs.BlockInProgress.{key_after, stretch_size};

use crate::cursor::EntryCursor;
use coding::common_len;
use ikey::InternalKey;
use keep::ChunkSlice;
use std::marker::Model;

/// A walk over the kept entries of runs: the key before the next entry, if there is one, and the
/// entries still to come.
///
/// It goes chunk by chunk, and has of most keys the length that they share with the key before.
#[derive(Drop)]
pub struct EntryWalk<'r, 'a> {
    /// The place of the first entry of the slice.
    start: EntryCursor<'r, 'a>,
    slice: ChunkSlice<'r, 'a>,
    /// The number of entries of the slice that are passed.
    passed: usize,
    before: Option<InternalKey<'r>>,
}

/// Entries that a walk passes at once: how many, and how many bytes they add to a block if no
/// restart points at them.
#[derive(Drop)]
pub(crate) struct Stretch {
    pub count: u64,
    pub len: u64,
}

impl<'r, 'a> Model for EntryWalk<'r, 'a> {
    ghost use Rattle.std.specs.Prelude.{drop};
    ghost use Rattle.std.specs.Option.{option_map};
    ghost use Rattle.cut.specs.EntryWalkView.{EntryWalkView};
    ghost use Rattle.cut.specs.ChunkWalk.{IsInSlice};

    ghost Value = { EntryWalkView };

    ghost view = { λ w. record {
      before = option_map (λ key. key.bytes.now) w.before;
      rest = drop w.passed w.start;
    } };

    ghost invariant = { λ w. IsInSlice w.start w.slice w.passed
        (option_map (λ key. key.bytes.now) w.before) };
}

/// The entries from `place` on that add fewer than `room` bytes, none from `end` on, found by
/// halving.
fn fitting(slice: &ChunkSlice<'_, '_>, place: usize, mut end: usize, room: u64) -> Stretch
    requires before { 0 < place }
    requires rises { place ≤ end }
    requires within { end < length slice.now }
    requires room { 0 < room }
    ensures within { place + result.count ≤ end }
    ensures room { result.len < room }
    ensures len { result.len ≡ later_entries_size (last_key [] (take place slice.now))
        (take result.count (drop place slice.now)) }
{
    let mut fits = place;
    let mut len = 0;
    let mut probe = end;
    while fits < end {
        let sum = slice.len_of(place, probe);
        if sum < room {
            fits = probe;
            len = sum;
        } else {
            end = probe - 1;
        }
        probe = end - (end - fits) / 2;
    }
    let count = (fits - place) as u64;
    Stretch { count, len }
}

impl<'r, 'a> EntryWalk<'r, 'a> {
    /// The entries from `start` on, at least one; `before` is the key before them, if there is one.
    #[inline(always)]
    pub fn new(start: EntryCursor<'r, 'a>, before: Option<InternalKey<'r>>) -> EntryWalk<'r, 'a>
        requires { 0 < length start }
        ensures { result ≡ record {
          before = option_map (λ key. key.bytes.now) before.entry;
          rest = start.entry;
        } }
    {
        let slice = start.slice();
        EntryWalk {
            start,
            slice,
            passed: 0,
            before,
        }
    }

    /// Whether an entry is still to come.
    #[inline(always)]
    pub fn valid(&self) -> bool
        ensures { IsTrue result ↔ (0 < length self.now.rest) }
    {
        self.passed < self.slice.len()
    }

    /// The internal key of the next entry, which stays in its run.
    #[inline(always)]
    pub fn key(&self) -> InternalKey<'r>
        requires { 0 < length self.now.rest }
        ensures { option_map (λ e. e.key) (slice_get self.now.rest 0) ≡ Some result.bytes.now }
    {
        self.slice.key(self.passed)
    }

    /// The value of the next entry, a slice of an input's bytes.
    #[inline(always)]
    pub fn value(&self) -> &'a [u8]
        requires { 0 < length self.now.rest }
        ensures { option_map (λ e. e.value) (slice_get self.now.rest 0) ≡ Some result.now }
    {
        self.slice.value(self.passed)
    }

    /// How many bytes of its key the next entry leaves out in a block: those that it shares with
    /// the key before it, if there is one. It is 0 if `since`, the number of entries after the
    /// last whole interval, is 0, for then a restart points at it.
    #[inline(always)]
    pub fn left_out(&self, since: u64) -> usize
        requires { 0 < length self.now.rest }
        ensures { option_map (λ e. left_out_len since self.now.before e.key)
            (slice_get self.now.rest 0)
            ≡ Some result }
    {
        if since == 0 {
            return 0;
        }
        if self.passed > 0 {
            return self.slice.shared(self.passed);
        }
        match self.before {
            Some(before) => common_len(before.bytes(), self.slice.key(0).bytes()),
            None => 0,
        }
    }

    /// The key before the next entry; None if there is none.
    #[inline(always)]
    pub fn before(&self) -> Option<InternalKey<'r>>
        ensures { option_map (λ key. key.bytes.now) result ≡ self.now.before }
    {
        self.before
    }

    /// Passes the next entry.
    #[inline(always)]
    pub fn advance(&mut self)
        requires { 0 < length self.old.rest }
        ensures { self.new ≡ record {
          before = option_map (λ e. e.key) (slice_get self.old.rest 0);
          rest = drop 1 self.old.rest;
        } }
    {
        let len = self.slice.len();
        self.before = Some(self.slice.key(self.passed));
        self.passed += 1;
        if self.passed < len {
            return;
        }
        let next = self.start.skip(self.passed as u64);
        if !next.valid() {
            return;
        }
        self.slice = next.slice();
        self.start = next;
        self.passed = 0;
    }

    /// Passes entries, at most `most`, that add fewer than `room` bytes to a block if no restart
    /// points at them. It may pass none; at least one entry stays.
    pub(crate) fn pass(&mut self, most: u64, room: u64) -> Stretch
        requires any { 0 < length self.old.rest }
        requires room { 0 < room }
        ensures most { result.count ≤ most }
        ensures within { result.count < length self.old.rest }
        ensures room { result.len < room }
        ensures len { result.len
            ≡ stretch_size self.old.before (take result.count self.old.rest) }
        ensures new { self.new ≡ record {
          before = key_after self.old.before (take result.count self.old.rest);
          rest = drop result.count self.old.rest;
        } }
    {
        let place = self.passed;
        if place == 0 {
            return Stretch { count: 0, len: 0 };
        }
        let behind = self.slice.len() - 1 - place;
        let end = place + most.min(behind as u64) as usize;
        let stretch = fitting(&self.slice, place, end, room);
        self.passed = place + stretch.count as usize;
        self.before = Some(self.slice.key(self.passed - 1));
        stretch
    }
}
