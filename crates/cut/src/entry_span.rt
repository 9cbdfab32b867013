//! Consecutive entries of runs.

ghost use Rattle.std.specs.Prelude.{◌≡◌, ◌-◌, ◌^◌, ◌<◌, ◌≤◌, ◌↔◌, [], ◌++◌, length, take, drop};
ghost use Rattle.std.specs.Prelude.{slice_get, IsTrue, Some, None};
ghost use Rattle.std.specs.List.{last_or};
ghost use Rattle.std.specs.Option.{option_map};

use crate::cursor::EntryCursor;
use crate::entry_ref::EntryRef;
use ikey::InternalKey;
use std::marker::Model;

/// Consecutive entries of runs, which grow one by one. Contracts see these entries and those after
/// them.
#[derive(Drop)]
pub struct EntrySpan<'r, 'a> {
    start: EntryCursor<'r, 'a>,
    behind: EntryCursor<'r, 'a>,
    /// The number of entries; 2^64 - 1 if there are more.
    len: u64,
    last: Option<InternalKey<'r>>,
}

impl<'r, 'a> Model for EntrySpan<'r, 'a> {
    ghost use Rattle.cut.specs.EntrySpanView.{EntrySpanView};
    ghost use Rattle.cut.specs.SpanPlaces.{span_between, IsSpanBetween};

    ghost Value = { EntrySpanView };

    ghost view = { λ s. span_between s.start s.behind };

    ghost use Rattle.std.specs.Option.{option_map};

    ghost invariant = { λ s. IsSpanBetween s.start s.behind s.len
        (option_map (λ key. key.bytes.now) s.last) };
}

impl<'r, 'a> EntrySpan<'r, 'a> {
    /// No entries, before those from `cursor` on.
    pub fn at(cursor: EntryCursor<'r, 'a>) -> EntrySpan<'r, 'a>
        ensures { result ≡ record { entries = []; behind = cursor.entry } }
    {
        EntrySpan {
            start: cursor.copy(),
            behind: cursor,
            len: 0,
            last: None,
        }
    }

    /// Takes in the next entry, whose key is `key`.
    pub fn push(&mut self, key: InternalKey<'r>)
        requires { option_map (λ e. e.key) (slice_get self.old.behind 0) ≡ Some key.bytes.now }
        ensures { self.new ≡ record {
          entries = self.old.entries ++ take 1 self.old.behind;
          behind = drop 1 self.old.behind;
        } }
    {
        self.behind.advance();
        self.len = self.len.saturating_add(1);
        self.last = Some(key);
    }

    /// Takes in the next `count` entries, at least one. `last` is the key of the last of them.
    pub fn push_all(&mut self, count: u64, last: Option<InternalKey<'r>>)
        requires some { 0 < count }
        requires within { count ≤ length self.old.behind }
        requires last { option_map (λ key. key.bytes.now) last
            ≡ option_map (λ e. e.key) (slice_get self.old.behind (count - 1)) }
        ensures { self.new ≡ record {
          entries = self.old.entries ++ take count self.old.behind;
          behind = drop count self.old.behind;
        } }
    {
        self.behind = self.behind.skip(count);
        self.len = self.len.saturating_add(count);
        self.last = last;
    }

    /// Whether there are no entries.
    pub fn is_empty(&self) -> bool
        ensures { IsTrue result ↔ (self.now.entries ≡ []) }
    {
        self.len == 0
    }

    /// The internal key of the last entry; None if there is no entry.
    pub fn last_key(&self) -> Option<InternalKey<'r>>
        ensures { option_map (λ key. key.bytes.now) result
            ≡ option_map (λ e. e.key) (last_or None self.now.entries) }
    {
        self.last
    }

    /// The place after the last entry.
    pub fn behind(&self) -> EntryCursor<'r, 'a>
        ensures { result ≡ self.now.behind }
    {
        self.behind.copy()
    }

    /// These entries as a part. Requires that there are at most 2^64 - 1.
    pub fn part(&self) -> EntryRef<'r, 'a>
        requires { length self.now.entries ≤ 2 ^ 64 - 1 }
        ensures { result ≡ self.now }
    {
        EntryRef::new(self.start.copy(), self.len)
    }
}
