//! A table and the number of its file.

ghost use Rattle.std.specs.Prelude.{◌≡◌};

use ikey::Comparator;
use std::marker::Model;
use table::SoundTable;

/// A checked table, and the number of its file. Contracts see the number and what the table holds.
#[derive(Drop)]
pub struct NumberedTable<'a, C: Comparator> {
    number: u64,
    table: SoundTable<'a, C>,
}

impl<'a, C: Comparator> Model for NumberedTable<'a, C> {
    ghost use Rattle.reads.specs.Tables.{NumberedContents};

    ghost Value = { NumberedContents };

    ghost view = { λ t. record { number = t.number; contents = t.table } };
}

impl<'a, C: Comparator> NumberedTable<'a, C> {
    /// The table of the file `number`.
    pub fn of(number: u64, table: SoundTable<'a, C>) -> NumberedTable<'a, C>
        ensures { result ≡ record { number = number; contents = table.entry } }
    {
        NumberedTable { number, table }
    }

    /// The number of the file.
    pub fn number(&self) -> u64
        ensures { result ≡ self.now.number }
    {
        self.number
    }

    pub fn table(&self) -> &SoundTable<'a, C>
        ensures { result.now ≡ self.now.contents }
    {
        &self.table
    }

    /// The table, without its number.
    pub fn into_table(self) -> SoundTable<'a, C>
        ensures { result ≡ self.entry.contents }
    {
        self.table
    }
}
