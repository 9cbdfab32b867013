//! Tables, found by the numbers of their files.

ghost use Rattle.std.specs.Prelude.{◌≡◌, ◌<◌, length, slice_get, IfOk, IfErr, Some, Ok};
ghost use Rattle.std.specs.Option.{option_map};
ghost use Rattle.ikey.specs.Answers.{EqualOrMemory, fault};
ghost use Rattle.ikey.specs.fault.FaultName.TheVariants.{Memory};
ghost use Rattle.reads.specs.Tables.{table_of_number};
ghost use Rattle.reads.specs.Places.{AreFirstPlaces};

use crate::numbered_table::NumberedTable;
use ikey::{Comparator, Fault};
use std::alloc::Global;
use std::collections::BTreeMap;
use std::marker::Model;
use table::SoundTable;

/// Tables, with the place of the first one of each number. Contracts see the tables.
///
/// A table is found in a time that grows with the logarithm of their number; no contract says so.
#[derive(Drop)]
pub(crate) struct TablePlaces<'t, 'a, C: Comparator> {
    tables: &'t [NumberedTable<'a, C>],
    places: BTreeMap<u64, usize>,
}

impl<'t, 'a, C: Comparator> Model for TablePlaces<'t, 'a, C> {
    ghost use Rattle.std.specs.Prelude.{List};
    ghost use Rattle.reads.specs.Tables.{NumberedContents};
    ghost use Rattle.reads.specs.Places.{AreFirstPlaces};

    ghost Value = { List NumberedContents };

    ghost view = { λ t. t.tables.now };

    ghost invariant = { λ t. AreFirstPlaces t.tables.now t.places.entries };
}

impl<'t, 'a, C: Comparator> TablePlaces<'t, 'a, C> {
    /// The places of `tables`.
    pub fn of(
        alloc: Global,
        tables: &'t [NumberedTable<'a, C>],
    ) -> Result<TablePlaces<'t, 'a, C>, Fault>
        ensures { EqualOrMemory (λ places. places) result (Ok tables.now) }
    {
        let places = first_places(alloc, tables)?;
        Ok(TablePlaces { tables, places })
    }

    /// The first table of `number`.
    pub fn table(&self, number: u64) -> Option<&'t SoundTable<'a, C>>
        ensures { option_map (λ t. t.now) result ≡ table_of_number self.now number }
    {
        let Some(place) = self.places.get(&number) else {
            return None;
        };
        Some(table_at(self.tables, *place))
    }
}

/// The table at `place`.
fn table_at<'t, 'a, C: Comparator>(
    tables: &'t [NumberedTable<'a, C>],
    place: usize,
) -> &'t SoundTable<'a, C>
    requires { place < length tables.now }
    ensures { Some result.now ≡ option_map (λ t. t.contents) (slice_get tables.now place) }
{
    tables[place].table()
}

/// The place of the first table of each number.
fn first_places<C: Comparator>(
    alloc: Global,
    tables: &[NumberedTable<'_, C>],
) -> Result<BTreeMap<u64, usize>, Fault>
    ensures places { IfOk result (λ places. AreFirstPlaces tables.now places.entries) }
    ensures memory { IfErr result (λ e. e ≡ fault Memory) }
{
    let mut places = BTreeMap::new(alloc);
    let mut place = tables.len();
    while place > 0 {
        place -= 1;
        places.insert(tables[place].number(), place)?;
    }
    Ok(places)
}
