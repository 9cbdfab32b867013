//! The cursor over the entries of several cursors.

ghost use Rattle.std.specs.Prelude.{◌≡◌, ◌<◌, [], map, length, drop, OnOk};
ghost use Rattle.std.specs.Prelude.{OnErr, IsOkUnless, Ok};
ghost use Rattle.table.specs.Answers.{EqualOrMemory, fault};
ghost use Rattle.table.specs.fault.FaultName.TheVariants.{Memory};
ghost use Rattle.table.specs.EntriesFrom.{entries_from, LeavesFrom};
ghost use Rattle.merge.specs.MergedLists.{merged};
ghost use Rattle.merge.specs.LeastList.{IsAdvanced, IsMerging};
ghost use Rattle.merge.specs.Seeks.{each_from, EachLeavesFrom};

use crate::tournament::{
    advance_cursor, bracket, first_place, next_cursor, next_place, play_all, play_path,
};
use std::alloc::Global;
use std::marker::{Model, PhantomData};
use std::mem;
use table::{Comparator, Cursor, Entries, Fault, InternalKey};

/// Cursors that are walked as one. Contracts see, of each cursor, the list of entries still to
/// come.
///
/// Its own entries still to come are the sorted merge of these lists: by internal key, and those of
/// one internal key in the order of the cursors. The cursors may be lent, as `&mut S`.
///
/// A step plays one path of a tournament and takes no memory but the cursors' own; no contract says
/// so.
#[derive(Drop)]
pub struct Merging<C: Comparator, S: Entries + Drop> {
    cursors: Vec<S>,
    /// The winners of the tournament, a node each.
    winners: Vec<usize>,
    /// The head of each cursor's first key.
    heads: Vec<u128>,
    order: PhantomData<C>,
}

impl<C: Comparator, S: Entries + Drop> Model for Merging<C, S> {
    ghost use Rattle.std.specs.Prelude.{List, map};
    ghost use Rattle.table.specs.EncodedEntry.{Entry};
    ghost use Rattle.merge.specs.Tournament.{IsHeaded};

    ghost Value = { List (List Entry) };

    ghost view = { λ m. map S.remaining m.cursors.items };

    ghost invariant = { λ m.
        IsHeaded C.cmp C.head_of (map S.remaining m.cursors.items) m.winners.items m.heads.items };
}

impl<'c, C: Comparator, S: Cursor<'c, C> + Drop> Merging<C, S> {
    /// All entries still to come of `cursors`.
    ///
    /// The only fault is Memory, and then the cursors are dropped. `take` leaves them where they
    /// were.
    pub fn new(alloc: Global, cursors: Vec<S>) -> Result<Merging<C, S>, Fault>
        ensures { EqualOrMemory (λ merging. merging) result (Ok (map S.remaining cursors.items)) }
    {
        let mut cursors = cursors;
        Merging::take(alloc, &mut cursors)
    }

    /// All entries still to come of the cursors of a vector, which is left empty.
    ///
    /// `into_cursors` gives the cursors back.
    pub fn take(alloc: Global, cursors: &mut Vec<S>) -> Result<Merging<C, S>, Fault>
        ensures merging { EqualOrMemory (λ merging. merging) result
            (Ok (map S.remaining cursors.old.items)) }
        ensures taken { OnOk result (cursors.new.items ≡ []) }
        ensures unchanged { OnErr result (cursors.new.items ≡ cursors.old.items) }
    {
        let mut winners = bracket(alloc, cursors.len())?;
        let mut heads = Vec::from_elem(alloc, 0, cursors.len())?;
        let cursors = mem::replace(cursors, Vec::new(alloc));
        play_all::<C, S>(&cursors, &mut heads, &mut winners);
        Ok(Merging {
            cursors,
            winners,
            heads,
            order: PhantomData,
        })
    }

    /// The cursors, in the order in which they were given, each with its entries still to come.
    pub fn into_cursors(self) -> Vec<S>
        ensures { map S.remaining result.items ≡ self }
    {
        let Merging {
            cursors,
            winners: _,
            heads: _,
            order: _,
        } = self;
        cursors
    }

    /// The place of the cursor whose first entry comes next, counted as they were given; None if no
    /// cursor has an entry.
    pub fn place(&self) -> Option<usize>
        ensures { IsMerging C.cmp self.now result }
    {
        next_place::<C, S>(&self.cursors, &self.winners)
    }
}

/// Seeks each cursor in turn. The only fault is Memory: the cursors before the refused one were
/// sought then, and those after it were not.
fn seek_all<'c, C: Comparator, S: Cursor<'c, C>>(
    cursors: &mut [S],
    target: InternalKey<'_>,
) -> Result<(), Fault>
    ensures ok { OnOk result (map S.remaining cursors.new
        ≡ each_from C.cmp target.entry.bytes.now (map S.remaining cursors.old)) }
    ensures err { OnErr result
        (EachLeavesFrom C.cmp target.entry.bytes.now (map S.remaining cursors.old)
        (map S.remaining cursors.new)) }
    ensures memory { IsOkUnless result (fault Memory) }
{
    for cursor in cursors.iter_mut() {
        cursor.seek(target)?;
    }
    Ok(())
}

impl<C: Comparator, S: Entries + Drop> Entries for Merging<C, S> {
    ghost remaining = { λ m. merged C.cmp m };
}

impl<'c, C: Comparator, S: Cursor<'c, C> + Drop> Cursor<'c, C> for Merging<C, S> {
    fn valid(&self) -> bool {
        let cursors = self.cursors.as_slice();
        next_place::<C, S>(cursors, &self.winners).is_some()
    }

    fn key(&self) -> InternalKey<'_> {
        next_cursor::<C, S>(&self.cursors, &self.winners).key()
    }

    fn value(&self) -> &'c [u8] {
        next_cursor::<C, S>(&self.cursors, &self.winners).value()
    }

    /// Takes off the first entry, which is one cursor's; the others are unchanged.
    fn advance(&mut self) -> Result<(), Fault>
        requires { 0 < length (merged C.cmp self.old) }
        ensures advanced { OnOk result (IsAdvanced C.cmp self.old self.new) }
        ensures unchanged { OnErr result (self.new ≡ self.old) }
        ensures ok { OnOk result (merged C.cmp self.new ≡ drop 1 (merged C.cmp self.old)) }
        ensures err { OnErr result (merged C.cmp self.new ≡ merged C.cmp self.old) }
        ensures memory { IsOkUnless result (fault Memory) }
    {
        let cursors = self.cursors.as_slice();
        let place = first_place::<C, S>(cursors, &self.winners);
        let head = advance_cursor::<C, S>(&mut self.cursors[place])?;
        self.heads[place] = head;
        let changed = self.cursors.as_slice();
        let heads = self.heads.as_slice();
        let winners = self.winners.as_mut_slice();
        play_path::<C, S>(changed, heads, winners, place);
        Ok(())
    }

    /// Takes off, of each cursor, the entries below `target`. It never goes back.
    ///
    /// The only fault is Memory, if a cursor answers it. Of each cursor some of those entries may
    /// be lost then, and no others.
    fn seek(&mut self, target: InternalKey<'_>) -> Result<(), Fault>
        ensures sought { OnOk result (self.new ≡ each_from C.cmp target.entry.bytes.now self.old) }
        ensures left { OnErr result
            (EachLeavesFrom C.cmp target.entry.bytes.now self.old self.new) }
        ensures ok { OnOk result (merged C.cmp self.new
            ≡ entries_from C.cmp target.entry.bytes.now (merged C.cmp self.old)) }
        ensures err { OnErr result
            (LeavesFrom C.cmp target.entry.bytes.now (merged C.cmp self.old)
            (merged C.cmp self.new)) }
        ensures memory { IsOkUnless result (fault Memory) }
    {
        let cursors = self.cursors.as_mut_slice();
        let sought = seek_all::<C, S>(cursors, target);
        play_all::<C, S>(cursors, &mut self.heads, &mut self.winners);
        sought
    }
}
