//! The cursor over tested entries.

ghost use Rattle.std.specs.Prelude.{◌≡◌, ◌<◌, length, drop};
ghost use Rattle.block.specs.EncodedEntry.{Entry};
ghost use Rattle.ikey.specs.Bytewise.{bytewise_cmp};
ghost use Rattle.table.specs.EntriesFrom.{NeverFalls};
ghost use Rattle.table.specs.RestartSearch.{first_is_below};
ghost use Rattle.pairing.specs.TestedUnion.{tested_entries};

use crate::tested_entry::TestedEntry;
use ikey::{Bytewise, Comparator, Fault, InternalKey};
use std::marker::Model;
use table::{Cursor, Entries};

/// A place in a list of tested entries. Contracts see the entries still to come. It takes no
/// memory.
#[derive(Drop)]
pub(crate) struct TestedCursor<'r, 'a> {
    rest: &'r [TestedEntry<'a>],
}

impl<'r, 'a> Model for TestedCursor<'r, 'a> {
    ghost use Rattle.std.specs.Prelude.{List};
    ghost use Rattle.block.specs.EncodedEntry.{Entry};
    ghost use Rattle.ikey.specs.Bytewise.{bytewise_cmp};
    ghost use Rattle.table.specs.EntriesFrom.{NeverFalls};
    ghost use Rattle.pairing.specs.TestedUnion.{tested_entries};

    ghost Value = { List Entry };

    ghost view = { λ c. tested_entries c.rest.now };

    ghost invariant = { λ c. NeverFalls bytewise_cmp (tested_entries c.rest.now) };
}

impl<'r, 'a> TestedCursor<'r, 'a> {
    /// A cursor before the first of these entries.
    pub fn new(entries: &'r [TestedEntry<'a>]) -> TestedCursor<'r, 'a>
        requires { NeverFalls bytewise_cmp (tested_entries entries.now) }
        ensures { result ≡ tested_entries entries.now }
    {
        TestedCursor { rest: entries }
    }
}

impl<'r, 'a> Entries for TestedCursor<'r, 'a> {
    ghost remaining = { λ c. c };
}

impl<'r, 'a> Cursor<'a, Bytewise> for TestedCursor<'r, 'a> {
    fn valid(&self) -> bool {
        !self.rest.is_empty()
    }

    fn key(&self) -> InternalKey<'_> {
        self.rest[0].key.as_key()
    }

    fn value(&self) -> &'a [u8] {
        self.rest[0].value
    }

    /// Takes off the first entry. It is never refused.
    fn advance(&mut self) -> Result<(), Fault> {
        self.skip();
        Ok(())
    }

    /// Takes off the entries below `target`, one by one. It is never refused.
    fn seek(&mut self, target: InternalKey<'_>) -> Result<(), Fault> {
        while self.is_below(target) {
            self.skip();
        }
        Ok(())
    }
}

impl<'r, 'a> TestedCursor<'r, 'a> {
    /// Whether there is an entry, and the first one is below `target`.
    fn is_below(&self, target: InternalKey<'_>) -> bool
        ensures { result ≡ first_is_below bytewise_cmp target.entry.bytes.now self.now }
    {
        match self.rest.first() {
            Some(entry) => entry.key.as_key().compare::<Bytewise>(&target).is_lt(),
            None => false,
        }
    }

    /// Takes off the first entry.
    fn skip(&mut self)
        requires { 0 < length self.old }
        ensures { self.new ≡ drop 1 self.old }
    {
        self.rest = &self.rest[1..];
    }
}
