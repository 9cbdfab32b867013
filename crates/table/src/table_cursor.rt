//! The cursor over a table's entries.

ghost use Rattle.std.specs.Prelude.{◌≡◌, ◌<◌, ◌↔◌, List, true, length, IsTrue};
ghost use Rattle.std.specs.Prelude.{IfOk, IfErr, OnOk, OnErr, IsOkUnless, Ok};
ghost use Rattle.coding.specs.Answers.{EqualOrMemory, fault};
ghost use Rattle.coding.specs.declared.fault.FaultName.TheVariants.{Memory};
ghost use Rattle.table.specs.EntriesFrom.{EntriesRise, NeverFalls, entries_from, LeavesFrom};
ghost use Rattle.table.specs.RestartSearch.{first_is_below};

use crate::block_walk::{entries_from, first_key, is_below};
use crate::cursor::{Cursor, Entries};
use crate::named_block::block_named;
use crate::sound_table::SoundTable;
use block::{BlockCursor, SoundBlock};
use coding::Fault;
use ikey::{Comparator, InternalKey};
use std::alloc::Global;
use std::marker::{Model, PhantomData};

/// A place in a table: the entries still to come.
///
/// It lends the table's bytes, and owns two keys, whatever the table holds: one of a data block,
/// and one of the index. No contract says so.
#[derive(Drop)]
pub struct TableCursor<'a, C: Comparator> {
    alloc: Global,
    bytes: &'a [u8],
    /// The whole index, whose entries name the data blocks.
    index_block: SoundBlock<'a>,
    /// What is left of the data block that is being walked.
    block: BlockCursor<'a>,
    /// The index entries of the data blocks after it.
    index: BlockCursor<'a>,
    order: PhantomData<C>,
}

impl<'a, C: Comparator> Model for TableCursor<'a, C> {
    ghost use Rattle.std.specs.Prelude.{List, ◌++◌};
    ghost use Rattle.block.specs.EncodedEntry.{Entry};
    ghost use Rattle.table.specs.IndexWalk.{all_named, IsWalkLeft};

    ghost Value = { List Entry };

    ghost view = { λ t. t.block ++ all_named t.bytes.now t.index };

    ghost invariant = { λ t. IsWalkLeft C.cmp t.bytes.now t.index_block.entries t.block t.index };
}

impl<'a, C: Comparator> TableCursor<'a, C> {
    /// All entries of `table`. It takes the memory of two keys.
    pub fn new(alloc: Global, table: &SoundTable<'a, C>) -> Result<TableCursor<'a, C>, Fault>
        ensures { EqualOrMemory (λ cursor. cursor) result (Ok table.now.entries) }
    {
        let bytes = table.bytes();
        let index_block = table.index_block();
        let mut index = BlockCursor::new(alloc, index_block)?;
        let block = BlockCursor::new(alloc, &block_named(bytes, index.value()))?;
        index.advance()?;
        Ok(TableCursor {
            alloc,
            bytes,
            index_block: index_block.copy(),
            block,
            index,
            order: PhantomData,
        })
    }

    /// The first entry at or above `target`, and those after it. The entry here is below it.
    ///
    /// It is in the first data block whose index key is at or above `target`. Or it is the first of
    /// the next one, if all entries of that block are below.
    fn sought(&self, target: InternalKey<'_>) -> Result<TableCursor<'a, C>, Fault>
        requires { first_is_below C.cmp target.bytes.now self.now ≡ true }
        ensures from { IfOk result (λ cursor. cursor
            ≡ entries_from C.cmp target.entry.bytes.now self.now) }
        ensures memory { IfErr result (λ e. e ≡ fault Memory) }
    {
        let mut index = entries_from::<C>(self.alloc, &self.index_block, target)?;
        let mut block = BlockCursor::none(self.alloc);
        while !block.valid() && index.valid() {
            let named = block_named(self.bytes, index.value());
            block = entries_from::<C>(self.alloc, &named, target)?;
            index.advance()?;
        }
        Ok(TableCursor {
            alloc: self.alloc,
            bytes: self.bytes,
            index_block: self.index_block.copy(),
            block,
            index,
            order: PhantomData,
        })
    }
}

impl<'a, C: Comparator> Entries for TableCursor<'a, C> {
    ghost remaining = { λ c. c };
}

impl<'a, C: Comparator> Cursor<'a, C> for TableCursor<'a, C> {
    /// Whether an entry is still to come. No two entries have one internal key.
    fn valid(&self) -> bool
        ensures some { IsTrue result ↔ (0 < length self.now) }
        ensures ordered { NeverFalls C.cmp self.now }
        ensures rising { EntriesRise C.cmp self.now }
    {
        self.block.valid()
    }

    fn key(&self) -> InternalKey<'_> {
        first_key(&self.block)
    }

    fn value(&self) -> &'a [u8] {
        self.block.value()
    }

    /// Takes off the next entry. The only fault is Memory, which leaves the cursor unchanged.
    #[inline(always)]
    fn advance(&mut self) -> Result<(), Fault> {
        if !self.block.is_last() || !self.index.valid() {
            return self.block.advance();
        }
        let next = BlockCursor::new(self.alloc, &block_named(self.bytes, self.index.value()))?;
        self.index.advance()?;
        self.block = next;
        Ok(())
    }

    /// Takes off the entries below `target`. It never goes back.
    ///
    /// It picks the data block by the index keys, and in it the last restart whose key is below
    /// `target`, and reads on from there. It takes no memory if the first entry isn't below
    /// `target`. Else it takes that of an index key, and of one key for each data block that it
    /// looks into.
    fn seek(&mut self, target: InternalKey<'_>) -> Result<(), Fault>
        ensures ok { OnOk result (self.new ≡ entries_from C.cmp target.entry.bytes.now self.old) }
        ensures unchanged { OnErr result (self.new ≡ self.old) }
        ensures err { OnErr result (LeavesFrom C.cmp target.entry.bytes.now self.old self.new) }
        ensures memory { IsOkUnless result (fault Memory) }
    {
        if is_below::<C>(&self.block, target) {
            *self = self.sought(target)?;
        }
        Ok(())
    }
}
