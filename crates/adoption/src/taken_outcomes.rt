//! Outcomes that were taken in, one after the other.

ghost use Rattle.std.specs.Prelude.{◌≡◌};
ghost use Rattle.adoption.specs.TakenIn.{version_in};

use crate::comparison::Comparison;
use edit::Version;
use store::{CompactionOutcome, SyncedVersion, WrittenTables};

/// Outcomes that were taken in, one after the other. Each was tested against the version that those
/// before it leave, and its tables were written. No version names these tables yet.
#[derive(Drop)]
pub struct TakenOutcomes<'o> {
    /// What the folder was opened as.
    pub opened: &'o SyncedVersion,
    /// Whether outputs are compared, and with what.
    pub comparison: Comparison<'o>,
    /// The version that they leave. None before the first one.
    pub next: Option<Version>,
    /// Their tables, and the bytes of their edits, one after the other.
    pub written: WrittenTables,
}

/// Outcomes with one more.
#[derive(Drop)]
pub struct TakenOutcome<'o> {
    pub taken: TakenOutcomes<'o>,
    /// That one, with its inputs.
    pub made: CompactionOutcome,
}

/// The version that outcomes leave: at first the one that was opened.
pub(crate) fn version_left<'t, 'o>(taken: &'t TakenOutcomes<'o>) -> &'t Version
    ensures { result.now ≡ version_in taken.now }
{
    match &taken.next {
        Some(version) => version,
        None => &taken.opened.version,
    }
}
