//! The data block of a plan that takes the next entry.

ghost use Rattle.std.specs.Prelude.{◌≡◌, ℕ, ◌+◌, ◌↔◌, ◌≤◌, ◌<◌, ◌==◌, if◌then◌else◌, false, []};
ghost use Rattle.std.specs.Prelude.{length, slice_get, IsTrue, Some};
ghost use Rattle.std.specs.Option.{option_map};
ghost use Rattle.coding.specs.Saturated.{saturated};
ghost use Rattle.block.specs.BlockFormat.{block};
ghost use Rattle.table.specs.DataBlocks.{is_full};
ghost use Rattle.table.specs.Options.{AreInLimits};
ghost use Rattle.cut.specs.BlockInProgress.{block_after_entries, last_entry_key, added_size};
ghost use Rattle.block.specs.declared.builder.TheConstants.{MAX_RESTART_INTERVAL};

use crate::cursor::EntryCursor;
use crate::entry_span::EntrySpan;
use crate::planned_block::PlannedBlock;
use crate::walk::EntryWalk;
use block::{EMPTY_BLOCK_LEN, next_since};
use ikey::InternalKey;
use keep::encoded_entry_len;
use std::marker::Model;
use std::mem;
use table::Options;

/// The bytes of a restart, and of the count of restarts.
pub(crate) const RESTART_LEN: u64 = block::RESTART_LEN as u64;

/// The bytes of a block without entries.
pub(crate) const EMPTY_LEN: u64 = EMPTY_BLOCK_LEN as u64;

/// An open data block: its restart interval, its entries, and the entries still to come.
#[derive(Drop)]
pub(crate) struct OpenBlock<'r, 'a> {
    interval: u64,
    slice: EntrySpan<'r, 'a>,
    /// The length that the block would have now; 2^64 - 1 if it is more.
    len: u64,
    /// The number of entries after the last whole interval.
    since: u64,
}

impl<'r, 'a> Model for OpenBlock<'r, 'a> {
    ghost use Rattle.cut.specs.BlockInProgress.{BlockInProgress, IsMetered};

    ghost Value = { BlockInProgress };

    ghost view = { λ b. record {
      interval = b.interval;
      entries = b.slice.entries;
      behind =
          b.slice.behind;
    } };

    ghost invariant = { λ b. IsMetered b.interval b.slice.entries b.len b.since };
}

/// How many bytes the next entry of a walk adds to the block, if `since` entries come after the
/// last whole interval. A sum of 2^64 or more is answered as 2^64 - 1.
#[inline(always)]
fn added_len(since: u64, walk: &EntryWalk<'_, '_>) -> u64
    requires { 0 < length walk.now.rest }
    ensures { option_map
        (λ e. saturated (added_size since walk.now.before e.key (length e.value)))
        (slice_get walk.now.rest 0)
        ≡ Some result }
{
    let shared = walk.left_out(since);
    let key = walk.key();
    let entry = encoded_entry_len(shared, key.bytes().len() - shared, walk.value().len());
    // The first entry's restart is there from the start.
    let restart = if since == 0 && walk.before().is_some() {
        RESTART_LEN
    } else {
        0
    };
    entry.saturating_add(restart)
}

/// How many of the next entries, at most `most`, no restart points at: up to the end of the
/// interval, or none if one points at the next entry.
#[inline(always)]
fn before_restart(since: u64, interval: u64, most: u64) -> u64
    requires { since ≤ interval }
    ensures some { 0 < result → 0 < since }
    ensures within { since + result ≤ interval }
    ensures most { result ≤ most }
{
    if since == 0 {
        return 0;
    }
    (interval - since).min(most)
}

/// The number of entries after the last whole interval, `count` after it had `since`.
#[inline(always)]
fn since_after(since: u64, count: u64, interval: u64) -> u64
    requires { since + count ≤ interval }
    ensures { result ≡ (if since + count == interval then 0 else since + count) }
{
    if since + count == interval {
        0
    } else {
        since + count
    }
}

impl<'r, 'a> OpenBlock<'r, 'a> {
    /// No entries, before those from `place` on, at a restart interval from 1 to 1,024.
    pub fn new(interval: u64, place: EntryCursor<'r, 'a>) -> OpenBlock<'r, 'a>
        requires positive { 1 ≤ interval }
        requires limited { interval ≤ MAX_RESTART_INTERVAL }
        ensures { result ≡ record { interval = interval; entries = []; behind = place.entry } }
    {
        OpenBlock {
            interval,
            slice: EntrySpan::at(place),
            len: EMPTY_LEN,
            since: 0,
        }
    }

    /// Takes in the next entries until the block reaches the block size, at least one and at most
    /// `most`, and answers how many.
    pub fn take_in(&mut self, options: Options, most: u64) -> u64
        requires limits { AreInLimits options }
        requires interval { self.old.interval ≡ options.restart_interval }
        requires any { 0 < length self.old.behind }
        requires most { 0 < most }
        requires part { is_full options self.old.entries ≡ false }
        ensures new { self.new ≡ block_after_entries result self.old }
        ensures some { 0 < result }
        ensures most { result ≤ most }
        ensures within { result ≤ length self.old.behind }
        ensures part { (n : ℕ) → 0 < n → n < result →
            is_full options (block_after_entries n self.old).entries ≡ false }
    {
        let mut walk = EntryWalk::new(self.slice.behind(), self.slice.last_key());
        // What each entry changes is in variables of the loop, so that none of it is written back
        // before the loop's end.
        let mut len = self.len.saturating_add(added_len(self.since, &walk));
        let mut since = next_since(self.since, self.interval);
        walk.advance();
        let mut taken = 1;
        while taken < most && len < options.block_size && walk.valid() {
            let ahead = before_restart(since, self.interval, most - taken - 1);
            let stretch = walk.pass(ahead, options.block_size - len);
            len += stretch.len;
            since = since_after(since, stretch.count, self.interval);
            taken += stretch.count;
            len = len.saturating_add(added_len(since, &walk));
            since = next_since(since, self.interval);
            walk.advance();
            taken += 1;
        }
        let last = walk.before();
        self.slice.push_all(taken, last);
        self.len = len;
        self.since = since;
        taken
    }

    /// The key of the last entry; None if there is no entry.
    pub fn last_key(&self) -> Option<InternalKey<'r>>
        ensures { option_map (λ key. key.bytes.now) result ≡ last_entry_key self.now.entries }
    {
        self.slice.last_key()
    }

    /// Whether there is an entry and the block has reached the block size.
    pub fn is_full(&self, options: Options) -> bool
        requires { self.now.interval ≡ options.restart_interval }
        ensures { result ≡ is_full options self.now.entries }
    {
        !self.slice.is_empty() && self.len >= options.block_size
    }

    /// Whether there is no entry.
    pub fn is_empty(&self) -> bool
        ensures { IsTrue result ↔ (self.now.entries ≡ []) }
    {
        self.slice.is_empty()
    }

    /// The place after the last entry.
    pub fn behind(&self) -> EntryCursor<'r, 'a>
        ensures { result ≡ self.now.behind }
    {
        self.slice.behind()
    }

    /// Ends the block and answers it, and begins another one after it.
    pub fn end(&mut self) -> PlannedBlock<'r, 'a>
        ensures entries { result.entries.entries ≡ self.old.entries }
        ensures len { result.len
            ≡ saturated (length (block self.old.interval self.old.entries)) }
        ensures new { self.new
            ≡ record { interval = self.old.interval; entries = []; behind = self.old.behind } }
    {
        let entries = self.slice.part();
        self.slice = EntrySpan::at(self.slice.behind());
        let len = mem::replace(&mut self.len, EMPTY_LEN);
        self.since = 0;
        PlannedBlock { entries, len }
    }
}
