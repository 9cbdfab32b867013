//! A table of a folder that was checked, with its bytes.

ghost use Rattle.std.specs.Prelude.{◌≡◌, Ok};
ghost use Rattle.ikey.specs.Answers.{EqualOrMemory};
ghost use Rattle.table.specs.TableContents.{contents_reading};

use ikey::{Comparator, Fault};
use reads::NumberedTable;
use std::alloc::Global;
use std::marker::Model;
use table::OwnedTable;

/// A table that was checked and owns its bytes, and the number of its file. Contracts see the
/// number and what the table holds.
#[derive(Drop)]
pub(crate) struct HeldTable<C: Comparator> {
    number: u64,
    table: OwnedTable<C>,
}

impl<C: Comparator> Model for HeldTable<C> {
    ghost use Rattle.reads.specs.Tables.{NumberedContents};

    ghost Value = { NumberedContents };

    ghost view = { λ t. record { number = t.number; contents = t.table } };
}

impl<C: Comparator> HeldTable<C> {
    /// The table of the file `number`.
    pub fn of(number: u64, table: OwnedTable<C>) -> HeldTable<C>
        ensures { result ≡ record { number = number; contents = table } }
    {
        HeldTable { number, table }
    }

    /// The number of the file.
    pub fn number(&self) -> u64
        ensures { result ≡ self.now.number }
    {
        self.number
    }

    /// The table, lent. It takes the memory of two keys.
    pub fn lend(&self, alloc: Global) -> Result<NumberedTable<'_, C>, Fault>
        ensures table { EqualOrMemory (λ t. t) result (Ok self.now) }
        ensures reading { contents_reading C.cmp self.now.contents.bytes ≡ Ok self.now.contents }
    {
        // Why: the answer also says that the bytes read as the table.
        let _bytes = self.table.bytes();
        let table = self.table.lend(alloc)?;
        Ok(NumberedTable::of(self.number, table))
    }
}
