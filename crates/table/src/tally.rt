//! What is counted of entries.

ghost use Rattle.std.specs.Prelude.{◌≡◌};
ghost use Rattle.std.specs.Option.{option_map};

use ikey::{InternalKey, MAX_SEQUENCE};

/// How many entries there are, between which sequences theirs are, and whether two neighbours have
/// one user key and one sequence.
#[derive(Clone, Copy)]
pub struct Tally {
    /// How many entries there are, or 2^64 - 1 if there are more.
    pub entries: u64,
    /// The least sequence; 2^56 - 1 if there is no entry.
    pub oldest: u64,
    /// The greatest sequence; 0 if there is no entry.
    pub newest: u64,
    /// Whether an entry has the user key and the sequence of the one before it.
    pub has_twins: bool,
}

impl Tally {
    ghost use Rattle.table.specs.Tallies.{is_twin};
    ghost use Rattle.table.specs.TallySteps.{tally_of_none, tally_with};

    /// Of no entry.
    pub(crate) fn none() -> Tally
        ensures { result ≡ tally_of_none }
    {
        Tally {
            entries: 0,
            oldest: MAX_SEQUENCE,
            newest: 0,
            has_twins: false,
        }
    }

    /// With an entry of the key `key`, which is after the key `before`.
    #[inline]
    pub(crate) fn with(self, before: Option<InternalKey<'_>>, key: InternalKey<'_>) -> Tally
        ensures { result
            ≡ tally_with self (option_map (λ key. key.bytes.now) before.entry) key.entry.bytes.now }
    {
        let sequence = key.sequence();
        Tally {
            entries: self.entries.saturating_add(1),
            oldest: self.oldest.min(sequence),
            newest: self.newest.max(sequence),
            has_twins: self.has_twins || Tally::are_twins(before, key),
        }
    }

    /// Whether the two keys have one user key and one sequence.
    #[inline]
    fn are_twins(before: Option<InternalKey<'_>>, key: InternalKey<'_>) -> bool
        ensures { result
            ≡ is_twin (option_map (λ key. key.bytes.now) before.entry) key.entry.bytes.now }
    {
        match before {
            Some(before) => before.sequence() == key.sequence() && before.user() == key.user(),
            None => false,
        }
    }
}
