//! Inputs of a compaction.

ghost use Rattle.std.specs.Prelude.{◌≡◌};
ghost use Rattle.c_api.specs.InputTables.{tally_in};
ghost use Rattle.c_api.specs.Tables.{counts_of, is_input as lies_lent};

use crate::file::{File, has_keys};
use crate::place::{Place, is_within};
use table::Tally;

/// What a check counts of a table's entries.
#[repr(C)]
#[derive(Clone, Copy, Drop)]
pub struct Counts {
    /// How many entries there are.
    pub entries: u64,
    /// The least sequence.
    pub oldest: u64,
    /// The greatest sequence.
    pub newest: u64,
    /// 1 if an entry has the user key and the sequence of the one before it, else 0.
    pub has_twins: u32,
}

impl Counts {
    /// What is told of a tally.
    pub(crate) fn of(tally: Tally) -> Counts
        ensures { result ≡ counts_of tally }
    {
        Counts {
            entries: tally.entries,
            oldest: tally.oldest,
            newest: tally.newest,
            has_twins: if tally.has_twins { 1 } else { 0 },
        }
    }

    /// The tally of which they are told.
    pub(crate) fn tally(&self) -> Tally
        ensures { result ≡ tally_in self.now }
    {
        Tally {
            entries: self.entries,
            oldest: self.oldest,
            newest: self.newest,
            has_twins: self.has_twins != 0,
        }
    }
}

/// An input of a compaction.
#[repr(C)]
#[derive(Clone, Copy, Drop)]
pub struct Input {
    /// What the version states of it.
    pub file: File,
    /// The bytes of its table, in the tables that are lent.
    pub table: Place,
    /// What its check counted.
    pub counts: Counts,
}

/// Whether the keys and the table of an input lie in what is lent.
pub(crate) fn is_input(keys: &[u8], tables: &[u8], input: &Input) -> bool
    ensures { result ≡ lies_lent keys.now tables.now input.now }
{
    has_keys(keys, &input.file) && is_within(tables, input.table)
}
