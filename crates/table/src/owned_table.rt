//! A table that was checked, with its bytes.

ghost use Rattle.std.specs.Prelude.{◌≡◌, ◌-◌, Ok, Some, IsOk, IfOk, IfErr, slice_get, length};
ghost use Rattle.std.specs.Option.{option_map};
ghost use Rattle.coding.specs.Answers.{EqualOrMemory, FailsOrMemory};
ghost use Rattle.table.specs.TableContents.{contents_reading, index_in};
ghost use Rattle.table.specs.SoundTables.{HasBoundsRead, IsCheckedTable};

use crate::bounds::Bounds;
use crate::footer::{FOOTER_LEN, Footer};
use crate::sound_table::SoundTable;
use crate::table_check::{check, stored_at};
use crate::trailer::reopen_contents;
use block::{SoundBlock, reopen};
use coding::Fault;
use ikey::{Comparator, InternalKey};
use std::alloc::Global;
use std::marker::{Model, PhantomData};

/// A table that was checked, and owns its bytes. It can be lent as a [`SoundTable`] again and
/// again, and is not checked again. Contracts see what the table holds.
///
/// Beside the bytes it keeps two keys and what was counted.
#[derive(Drop)]
pub struct OwnedTable<C: Comparator> {
    bytes: Vec<u8>,
    bounds: Bounds,
    order: PhantomData<C>,
}

impl<C: Comparator> Model for OwnedTable<C> {
    ghost use Rattle.table.specs.CheckedContents.{contents_in};
    ghost use Rattle.table.specs.TableContents.{Contents};
    ghost use Rattle.table.specs.SoundTables.{IsCheckedTable};

    ghost Value = { Contents };

    ghost view = { λ t. contents_in C.cmp t.bytes.items };

    ghost invariant = { λ t. IsCheckedTable C.cmp t.bytes.items t.bounds };
}

impl<C: Comparator> OwnedTable<C> {
    /// Reads bytes as a table, as [`check`](crate::check()) does, and keeps them. Refused as there.
    pub fn check(alloc: Global, bytes: Vec<u8>) -> Result<OwnedTable<C>, Fault>
        ensures { EqualOrMemory (λ table. table) result (contents_reading C.cmp bytes.items) }
    {
        let bounds = checked_bounds::<C>(alloc, &bytes)?;
        Ok(OwnedTable {
            bytes,
            bounds,
            order: PhantomData,
        })
    }

    /// The table of these bytes, whose check found these bounds. No test is made again.
    pub fn of(bytes: Vec<u8>, bounds: Bounds) -> OwnedTable<C>
        requires { IsCheckedTable C.cmp bytes.items bounds }
        ensures { contents_reading C.cmp bytes.items ≡ Ok result }
    {
        OwnedTable {
            bytes,
            bounds,
            order: PhantomData,
        }
    }

    /// The table, lent. No test is made again: it reads the footer and where the index block is.
    ///
    /// It takes the memory of two keys.
    pub fn lend(&self, alloc: Global) -> Result<SoundTable<'_, C>, Fault>
        ensures { EqualOrMemory (λ table. table) result (Ok self.now) }
    {
        let bytes = self.bytes.as_slice();
        let bounds = self.bounds.copied(alloc)?;
        Ok(SoundTable::of(bytes, index_again(bytes), bounds))
    }

    /// The bytes of the table, which read as what contracts see of it.
    pub fn bytes(&self) -> &[u8]
        ensures bytes { result.now ≡ self.now.bytes }
        ensures reading { contents_reading C.cmp self.now.bytes ≡ Ok self.now }
    {
        &self.bytes
    }

    /// The key of the first entry.
    pub fn smallest(&self) -> InternalKey<'_>
        ensures { Some result.bytes.now ≡ option_map (λ e. e.key) (slice_get self.now.entries 0) }
    {
        self.bounds.smallest.as_key()
    }

    /// The key of the last entry.
    pub fn largest(&self) -> InternalKey<'_>
        ensures { Some result.bytes.now
            ≡ option_map (λ e. e.key) (slice_get self.now.entries (length self.now.entries - 1)) }
    {
        self.bounds.largest.as_key()
    }
}

/// What a check finds of the table that the bytes are. Refused as `check` refuses them.
fn checked_bounds<C: Comparator>(alloc: Global, bytes: &[u8]) -> Result<Bounds, Fault>
    ensures ok { IfOk result (IsCheckedTable C.cmp bytes.now) }
    ensures err { IfErr result (λ e. FailsOrMemory e (contents_reading C.cmp bytes.now)) }
{
    let table = check::<C>(alloc, bytes)?;
    Ok(table.into_bounds())
}

/// The table of bytes that were checked, with what the check found beside them. No test is made
/// again: it reads the footer and where the index block is. Takes no memory.
pub fn reopen_table<C: Comparator>(bytes: &[u8], bounds: Bounds) -> SoundTable<'_, C>
    requires { HasBoundsRead C.cmp bytes.now bounds }
    ensures { contents_reading C.cmp bytes.now ≡ Ok result }
{
    SoundTable::of(bytes, index_again(bytes), bounds)
}

/// The index block of bytes that were checked. No test is made again.
fn index_again(bytes: &[u8]) -> SoundBlock<'_>
    requires { IsOk (index_in bytes.now) }
    ensures { index_in bytes.now ≡ Ok result.entries }
{
    let (_, footer) = bytes.split_at(bytes.len() - FOOTER_LEN);
    let Ok(footer) = Footer::read(footer) else {
        unreachable!();
    };
    let Ok(stored) = stored_at(bytes, footer.index) else {
        unreachable!();
    };
    reopen(reopen_contents(stored))
}
