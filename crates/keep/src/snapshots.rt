//! Which sequences stay readable.

ghost use Rattle.std.specs.Prelude.{◌≡◌};
ghost use Rattle.keep.specs.Readable.{listed_of, floor_of};

/// Which sequences stay readable after a compaction: at each of them every get answers as before.
///
/// Both forms are one rule over a list and a floor: a sequence stays readable if it is listed, or
/// is at or above the floor.
#[derive(Clone, Copy)]
pub enum Snapshots<'a> {
    /// This sequence, which is the oldest snapshot, and every later one. For a store that knows
    /// only that no reader is at an earlier sequence. It is LevelDB's rule.
    From(u64),
    /// Each of these sequences, and every one from the version's last sequence on. For a store that
    /// knows its snapshots. They have to rise strictly, none above the last sequence; else a
    /// request is refused as SnapshotList.
    Listed(&'a [u64]),
}

impl<'a> Snapshots<'a> {
    /// The listed sequences; `From` has none.
    pub fn listed(self) -> &'a [u64]
        ensures { result.now ≡ listed_of self.entry }
    {
        match self {
            Snapshots::From(_) => &[],
            Snapshots::Listed(list) => list,
        }
    }

    /// The floor: every sequence from it on stays readable. It is that of `From`, or else
    /// `last_sequence`.
    pub fn floor(self, last_sequence: u64) -> u64
        ensures { result ≡ floor_of self.entry last_sequence }
    {
        match self {
            Snapshots::From(oldest) => oldest,
            Snapshots::Listed(_) => last_sequence,
        }
    }
}
