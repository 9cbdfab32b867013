//! A table that was checked.

ghost use Rattle.std.specs.Prelude.{◌≡◌, ◌-◌, map, Ok, Some, slice_get, length};
ghost use Rattle.std.specs.Option.{option_map};
ghost use Rattle.coding.specs.Answers.{EqualOrMemory};
ghost use Rattle.table.specs.TableContents.{contents_reading};

use crate::block_walk::first_key;
use crate::bounds::Bounds;
use crate::key_list::KeyList;
use crate::tally::Tally;
use block::{BlockCursor, SoundBlock};
use coding::Fault;
use ikey::{Comparator, InternalKey};
use std::alloc::Global;
use std::marker::{Model, PhantomData};

/// A table that was checked: its bytes, the one list of its entries, and the user keys of its index
/// in order.
///
/// Beside the bytes it keeps two keys and what was counted.
#[derive(Drop)]
pub struct SoundTable<'a, C: Comparator> {
    bytes: &'a [u8],
    index: SoundBlock<'a>,
    bounds: Bounds,
    order: PhantomData<C>,
}

impl<'a, C: Comparator> Model for SoundTable<'a, C> {
    ghost use Rattle.table.specs.CheckedContents.{contents_in};
    ghost use Rattle.table.specs.TableContents.{Contents};
    ghost use Rattle.table.specs.SoundTables.{HasBounds};

    ghost Value = { Contents };

    ghost view = { λ t. contents_in C.cmp t.bytes.now };

    ghost invariant = { λ t. HasBounds C.cmp t.bytes.now t.index.entries t.bounds };
}

impl<'a, C: Comparator> SoundTable<'a, C> {
    ghost use Rattle.table.specs.SoundTables.{HasBounds, IsCheckedTable};
    ghost use Rattle.table.specs.Tallies.{tally_of};
    ghost use Rattle.table.specs.EntriesFrom.{EntriesRise};
    ghost use Rattle.table.specs.EntryTests.{HaveInternalKeys};
    ghost use Rattle.table.specs.IndexWalk.{Indexes};

    /// The bytes of the table, which read as what contracts see of it.
    pub fn bytes(&self) -> &'a [u8]
        ensures bytes { result.now ≡ self.now.bytes }
        ensures reading { contents_reading C.cmp self.now.bytes ≡ Ok self.now }
    {
        self.bytes
    }

    /// The key of the first entry.
    pub fn smallest(&self) -> InternalKey<'_>
        ensures { Some result.bytes.now ≡ option_map (λ e. e.key) (slice_get self.now.entries 0) }
    {
        self.bounds.smallest.as_key()
    }

    /// The key of the last entry.
    pub fn largest(&self) -> InternalKey<'_>
        ensures { Some result.bytes.now
            ≡ option_map (λ e. e.key) (slice_get self.now.entries (length self.now.entries - 1)) }
    {
        self.bounds.largest.as_key()
    }

    /// What the check counted of the entries, whose keys are internal keys and rise.
    pub fn tally(&self) -> Tally
        ensures tally { result ≡ tally_of self.now.entries }
        ensures keys { HaveInternalKeys self.now.entries }
        ensures rising { EntriesRise C.cmp self.now.entries }
    {
        self.bounds.tally
    }

    /// The user keys of the index, one for each data block, in the order of the index.
    ///
    /// It takes the memory of these keys and of one more.
    pub fn index_users(&self, alloc: Global) -> Result<Vec<Vec<u8>>, Fault>
        ensures { EqualOrMemory (λ users. map (λ user. user.items) users.items) result
            (Ok self.now.index_users) }
    {
        let mut entries = BlockCursor::new(alloc, &self.index)?;
        let mut users = Vec::new(alloc);
        while entries.valid() {
            users.push(Vec::from_slice(alloc, first_key(&entries).user())?)?;
            entries.advance()?;
        }
        Ok(users)
    }

    /// The user keys that [`SoundTable::index_users`] answers, in one buffer.
    ///
    /// It takes the memory of the keys' bytes, of a place for each, and of one key more.
    pub fn index_keys(&self, alloc: Global) -> Result<KeyList, Fault>
        ensures { EqualOrMemory (λ keys. keys) result (Ok self.now.index_users) }
    {
        let mut entries = BlockCursor::new(alloc, &self.index)?;
        let mut users = KeyList::new(alloc);
        while entries.valid() {
            users.push(first_key(&entries).user())?;
            entries.advance()?;
        }
        Ok(users)
    }

    /// The table of these bytes, with this index block and these bounds.
    pub(crate) fn of(bytes: &'a [u8], index: SoundBlock<'a>, bounds: Bounds) -> SoundTable<'a, C>
        requires { HasBounds C.cmp bytes.now index.entries bounds }
        ensures { contents_reading C.cmp bytes.now ≡ Ok result }
    {
        SoundTable {
            bytes,
            index,
            bounds,
            order: PhantomData,
        }
    }

    /// The first and the last key and what was counted, which is what a check finds beside the
    /// bytes. With it [`OwnedTable::of`](crate::OwnedTable::of()) makes the table of its bytes,
    /// without another check.
    pub fn into_bounds(self) -> Bounds
        ensures { IsCheckedTable C.cmp self.entry.bytes result }
    {
        self.bounds
    }

    /// The index block: its entries name the data blocks.
    pub(crate) fn index_block(&self) -> &SoundBlock<'a>
        ensures { Indexes C.cmp self.now.bytes result.now.entries self.now.entries }
    {
        &self.index
    }
}
