//! Which held tables are kept, and the places of those that are still to be read.

ghost use Rattle.std.specs.Prelude.{◌≡◌, ◌<◌, ◌++◌, List, ◌∷◌, Contains, Option, Ok, IfOk, IfErr};
ghost use Rattle.std.specs.Prelude.{IfSome, length, slice_index_or};
ghost use Rattle.reads.specs.Tables.{NumberedContents};
ghost use Rattle.std.specs.List.{All};
ghost use Rattle.std.specs.Option.{option_to_list};
ghost use Rattle.std.specs.Vec.Iter.{into_iter_items};
ghost use Rattle.ikey.specs.Answers.{EqualOrMemory, fault};
ghost use Rattle.ikey.specs.fault.FaultName.TheVariants.{Memory};
ghost use Rattle.checks.specs.TablePlaces.{HasKept, wanted_number, place_numbers, wanted_numbers};
ghost use Rattle.checks.specs.TablePlaces.{placed_tables};

use crate::held_table::HeldTable;
use ikey::{Comparator, Fault};
use std::alloc::Global;
use std::marker::Model;
use std::vec::IntoIter;

/// The place of the table with a number, and the table, if it is held already. Contracts see the
/// number and what the table holds.
#[derive(Drop)]
pub(crate) struct TablePlace<C: Comparator> {
    number: u64,
    kept: Option<HeldTable<C>>,
}

impl<C: Comparator> Model for TablePlace<C> {
    ghost use Rattle.std.specs.Prelude.{ℕ, Option};
    ghost use Rattle.reads.specs.Tables.{NumberedContents};

    ghost Value = { ℕ × Option NumberedContents };

    ghost view = { λ p. (p.number, p.kept) };
}

impl<C: Comparator> TablePlace<C> {
    /// The place of the table with this number.
    pub fn of(number: u64, kept: Option<HeldTable<C>>) -> TablePlace<C>
        ensures { result ≡ (number, kept) }
    {
        TablePlace { number, kept }
    }

    /// The number, if the place has no table.
    fn wanted(&self) -> Option<u64>
        ensures { result ≡ wanted_number self.now }
    {
        match self.kept {
            Some(_) => None,
            None => Some(self.number),
        }
    }

    /// The table of the place; if it has none, the next of `fresh`.
    fn table(self, fresh: &mut IntoIter<HeldTable<C>>) -> Option<HeldTable<C>>
        ensures { (places : List _) →
            placed_tables (self ∷ places) (into_iter_items fresh.old)
            ≡ option_to_list result ++ placed_tables places (into_iter_items fresh.new) }
    {
        match self.kept {
            Some(table) => Some(table),
            None => fresh.next(),
        }
    }
}

/// The places of the tables with these numbers, in order. Each has the held table of its number, if
/// there is one. The other held tables are dropped.
pub(crate) fn reused_places<C: Comparator>(
    alloc: Global,
    held: Vec<HeldTable<C>>,
    numbers: &[u64],
) -> Result<Vec<TablePlace<C>>, Fault>
    ensures kept { IfOk result (λ v. All (HasKept held.items) v.items) }
    ensures numbers { IfOk result (λ v. place_numbers v.items ≡ numbers.now) }
    ensures memory { IfErr result (λ e. e ≡ fault Memory) }
{
    let mut ahead = kept_tables(alloc, held, numbers)?;
    let mut places = Vec::with_capacity(alloc, numbers.len())?;
    for number in numbers {
        let kept = taken(&mut ahead, *number);
        places.push(TablePlace {
            number: *number,
            kept,
        })?;
    }
    Ok(places)
}

/// The held tables with one of these numbers, the last one first. The others are dropped.
fn kept_tables<C: Comparator>(
    alloc: Global,
    held: Vec<HeldTable<C>>,
    numbers: &[u64],
) -> Result<Vec<HeldTable<C>>, Fault>
    ensures kept { IfOk result (λ v. All (Contains held.items) v.items) }
    ensures memory { IfErr result (λ e. e ≡ fault Memory) }
{
    let mut sorted = Vec::from_slice(alloc, numbers)?;
    sorted.sort_unstable();
    let mut rest = held;
    let mut kept = Vec::with_capacity(alloc, rest.len())?;
    while let Some(table) = rest.pop() {
        if sorted.binary_search(&table.number()).is_ok() {
            kept.push(table)?;
        }
    }
    Ok(kept)
}

/// Takes out the table of this number, if it is there. It is searched from the last table on: there
/// it stands, if the tables are in the order in which they are asked for.
fn taken<C: Comparator>(ahead: &mut Vec<HeldTable<C>>, number: u64) -> Option<HeldTable<C>>
    ensures held { (held : List NumberedContents) → All (Contains held) ahead.old.items →
        All (Contains held) ahead.new.items × IfSome result (Contains held) }
    ensures number { IfSome result (λ t. t.number ≡ number) }
{
    let place = place_of(ahead, number)?;
    Some(ahead.remove(place))
}

/// The last place of a table of this number. None if there is none.
fn place_of<C: Comparator>(tables: &[HeldTable<C>], number: u64) -> Option<usize>
    ensures number { IfSome result
        (λ place. (t : NumberedContents) → (slice_index_or tables.now place t).number ≡ number) }
    ensures within { IfSome result (λ place. place < length tables.now) }
{
    for place in (0..tables.len()).rev() {
        if tables[place].number() == number {
            return Some(place);
        }
    }
    None
}

/// The numbers of the places without a table, in order.
pub(crate) fn wanted_numbers<C: Comparator>(
    alloc: Global,
    places: &[TablePlace<C>],
) -> Result<Vec<u64>, Fault>
    ensures { EqualOrMemory (λ v. v.items) result (Ok (wanted_numbers places.now)) }
{
    let mut wanted = Vec::new(alloc);
    for place in places {
        if let Some(number) = place.wanted() {
            wanted.push(number)?;
        }
    }
    Ok(wanted)
}

/// The tables of all places in order. Each place without a table takes the next of `fresh`.
pub(crate) fn placed_tables<C: Comparator>(
    alloc: Global,
    places: Vec<TablePlace<C>>,
    fresh: Vec<HeldTable<C>>,
) -> Result<Vec<HeldTable<C>>, Fault>
    ensures { EqualOrMemory (λ v. v.items) result (Ok (placed_tables places.items fresh.items)) }
{
    let mut tables = Vec::with_capacity(alloc, places.len())?;
    let mut ahead = fresh.into_iter();
    for place in places {
        if let Some(table) = place.table(&mut ahead) {
            tables.push(table)?;
        }
    }
    Ok(tables)
}
