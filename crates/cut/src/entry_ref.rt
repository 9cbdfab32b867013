//! Consecutive entries of runs, held in few bytes.

ghost use Rattle.std.specs.Prelude.{◌≡◌, ◌≤◌, ◌++◌, length, take, drop, None};
ghost use Rattle.std.specs.List.{last_or};
ghost use Rattle.std.specs.Option.{option_map};

use crate::cursor::EntryCursor;
use ikey::InternalKey;
use std::marker::Model;

/// Consecutive entries of runs, held as the place of the first and their number. Contracts see
/// these entries and those after them.
#[derive(Drop)]
pub struct EntryRef<'r, 'a> {
    start: EntryCursor<'r, 'a>,
    len: u64,
}

impl<'r, 'a> Model for EntryRef<'r, 'a> {
    ghost use Rattle.std.specs.Prelude.{◌≤◌, length, take, drop};
    ghost use Rattle.cut.specs.EntrySpanView.{EntrySpanView};

    ghost Value = { EntrySpanView };

    ghost view = { λ p. record { entries = take p.len p.start; behind = drop p.len p.start } };

    ghost invariant = { λ p. p.len ≤ length p.start };
}

impl<'r, 'a> EntryRef<'r, 'a> {
    /// The `len` entries from `start` on.
    pub(crate) fn new(start: EntryCursor<'r, 'a>, len: u64) -> EntryRef<'r, 'a>
        requires { len ≤ length start }
        ensures { result
            ≡ record { entries = take len start.entry; behind = drop len start.entry } }
    {
        EntryRef { start, len }
    }

    /// The number of entries.
    pub fn len(&self) -> u64
        ensures { result ≡ length self.now.entries }
    {
        self.len
    }

    /// The place of the first entry.
    pub fn first(&self) -> EntryCursor<'r, 'a>
        ensures { result ≡ self.now.entries ++ self.now.behind }
    {
        self.start.copy()
    }

    /// The internal key of the last entry; None if there is no entry.
    pub fn last_key(&self) -> Option<InternalKey<'r>>
        ensures { option_map (λ key. key.bytes.now) result
            ≡ option_map (λ e. e.key) (last_or None self.now.entries) }
    {
        if self.len == 0 {
            return None;
        }
        let last = self.start.skip(self.len - 1);
        Some(last.key())
    }
}
