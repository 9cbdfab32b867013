//! What the test of a version found and holds.

use crate::held_tables::HeldTables;
use crate::version_totals::VersionTotals;
use ikey::Comparator;

/// What the test of a version found, and the tables that it still holds.
#[derive(Drop)]
pub struct TestedVersion<C: Comparator> {
    pub tested: VersionTotals,
    pub tables: HeldTables<C>,
}
