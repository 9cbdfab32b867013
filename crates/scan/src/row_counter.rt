//! Who counts the rows of a scan.

ghost use Rattle.scan.specs.CountedRows.{CountsRows};

use crate::row_taker::RowTaker;

/// Who counts rows, and stops no scan.
#[derive(Drop)]
pub struct RowCounter {
    /// How many rows there were, or 2^64 - 1 if there were more.
    pub rows: u64,
}

impl RowTaker for RowCounter {
    ghost use Rattle.scan.specs.CountedRows.{CountsRow};

    ghost tells = { CountsRow };

    fn row(&mut self, _key: &[u8], _value: &[u8]) -> bool {
        self.rows = self.rows.saturating_add(1);
        true
    }
}

/// The law of a scan that tells rows to a counter: they are counted. A call does nothing.
pub fn row_count_law()
    ensures { CountsRows }
{}
