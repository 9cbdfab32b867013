//! The entries of a file's table, read in order.

ghost use Rattle.std.specs.Prelude.{◌≡◌, ◌++◌, List, Ok, IfOk, IfErr, OnOk};
ghost use Rattle.table.specs.Answers.{fault};
ghost use Rattle.table.specs.fault.FaultName.TheVariants.{Memory};
ghost use Rattle.merge.specs.FirstEntry.{first_is};
ghost use Rattle.merge.specs.InRange.{entries_in};
ghost use Rattle.reads.specs.Ranges.{key_range};
ghost use Rattle.faults.specs.KeyFaults.{SearchedEntry, searched_in};
ghost use Rattle.faults.specs.KeyWalk.{after_user, break_of, is_user, with_user};

use crate::entry_order::EntryOrder;
use merge::cursor_from;
use reads::{NumberedTable, Range};
use std::alloc::Global;
use std::marker::Model;
use table::{Comparator, Cursor, Entries, Fault, InternalKey, TableCursor};

/// The entries of a file's table that are still to come. Contracts see them, and the number of the
/// file.
#[derive(Drop)]
pub(crate) struct FileCursor<'t, C: Comparator> {
    number: u64,
    cursor: TableCursor<'t, C>,
}

impl<'t, C: Comparator> Model for FileCursor<'t, C> {
    ghost use Rattle.faults.specs.KeyFaults.{FileEntries};

    ghost Value = { FileEntries };

    ghost view = { λ f. record { number = f.number; entries = f.cursor } };
}

impl<'t, C: Comparator + 't> FileCursor<'t, C> {
    /// The entries of a file's table, without those before `range`.
    pub fn of(
        alloc: Global,
        table: &NumberedTable<'t, C>,
        range: Range<'_>,
    ) -> Result<FileCursor<'t, C>, Fault>
        ensures number { IfOk result (λ f. f.number ≡ table.now.number) }
        ensures held { IfOk result (λ f. entries_in C.cmp (key_range range.entry) f.entries
            ≡ entries_in C.cmp (key_range range.entry) table.now.contents.entries) }
        ensures memory { IfErr result (λ e. e ≡ fault Memory) }
    {
        let cursor = cursor_from(alloc, table.table(), range)?;
        let number = table.number();
        Ok(FileCursor { number, cursor })
    }
}

impl<'t, C: Comparator> FileCursor<'t, C> {
    /// Takes off the first entries, as long as they have this user key. `order` says what is known
    /// of its entries in files before; the answer, what is known after these.
    pub fn take_user(&mut self, user: &[u8], order: EntryOrder) -> Result<EntryOrder, Fault>
        ensures order { IfOk result (λ after. (rest : List SearchedEntry) → break_of after rest
            ≡ break_of order (searched_in (with_user user.now self.old) ++ rest)) }
        ensures rest { OnOk result (self.new ≡ after_user user.now self.old) }
        ensures memory { IfErr result (λ e. e ≡ fault Memory) }
    {
        let mut order = order;
        while self.is_at(user) {
            order = order.with(self.number, self.cursor.key().sequence());
            self.cursor.advance()?;
        }
        Ok(order)
    }

    /// Whether the next entry has this user key.
    fn is_at(&self, user: &[u8]) -> bool
        ensures { result ≡ first_is (is_user user.now) self.now.entries }
    {
        self.cursor.valid() && self.cursor.key().user() == user
    }
}

impl<'t, C: Comparator> Entries for FileCursor<'t, C> {
    ghost remaining = { λ f. f.entries };
}

impl<'t, C: Comparator> Cursor<'t, C> for FileCursor<'t, C> {
    fn valid(&self) -> bool {
        self.cursor.valid()
    }

    fn key(&self) -> InternalKey<'_> {
        self.cursor.key()
    }

    fn value(&self) -> &'t [u8] {
        self.cursor.value()
    }

    fn advance(&mut self) -> Result<(), Fault> {
        self.cursor.advance()
    }

    fn seek(&mut self, target: InternalKey<'_>) -> Result<(), Fault> {
        self.cursor.seek(target)
    }
}
