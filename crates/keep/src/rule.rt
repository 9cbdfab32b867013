//! The drop rule: which entries stay.
//!
//! An entry of the inputs stays unless one of these holds:
//!
//! (1) It is hidden. The previous entry has the same user key and a sequence n at or below the
//!     floor. Besides, no listed sequence is below n and at or above the entry's own. Why it may
//!     go: each reader that is left sees the newer entry. An entry above the floor hides nothing,
//!     since a reader between the two may come.
//! (2) It is a deletion that nothing needs: its sequence is at or below the floor and each listed
//!     one, and its user key is at its base. Why it may go:
//!     - every reader that is left sees the deletion;
//!     - no deeper file's range holds its user key, so nothing older lies below the outputs;
//!     - what is older in the inputs is hidden by (1).
//!     So no reader can tell that it is gone.
//!
//! With `Snapshots::From` the list is empty and the floor is LevelDB's smallest snapshot. (1) and
//! (2) are its tests then; `is_base` is its IsBaseLevelForKey.

ghost use Rattle.std.specs.Prelude.{◌≡◌, nat_le, []};
ghost use Rattle.std.specs.List.{list_all};
ghost use Rattle.std.specs.List.Sorted.{IsStrictlyIncreasing};
ghost use Rattle.keep.specs.DropRule.{is_obsolete};
ghost use Rattle.keep.specs.RangeWalk.{is_needed, is_hidden_by, keeps_after};

use ikey::{Comparator, InternalKey, Kind};
use pick::{Inputs, is_base};
use std::marker::Model;

/// Whether a listed sequence is at or above `older` and below `newer`: it sees the older version
/// and not the newer one. The list is searched by halving.
fn is_needed(listed: &[u64], newer: u64, older: u64) -> bool
    requires { IsStrictlyIncreasing listed.now }
    ensures { result ≡ is_needed listed.now newer older }
{
    match listed.get(listed.partition_point(|s| *s < older)) {
        Some(least) => *least < newer,
        None => false,
    }
}

/// Whether `sequence` is at or below each listed one.
fn is_below_all(listed: &[u64], sequence: u64) -> bool
    requires { IsStrictlyIncreasing listed.now }
    ensures { result ≡ list_all (nat_le sequence) listed.now }
{
    match listed.first() {
        Some(least) => sequence <= *least,
        None => true,
    }
}

/// What the drop rule and the marks need to know: the readable sequences, which are the listed ones
/// and all from `floor` on, and the inputs of the compaction.
#[derive(Drop)]
pub(crate) struct Rule<'r> {
    pub listed: &'r [u64],
    pub floor: u64,
    pub inputs: &'r Inputs,
}

impl<'r> Model for Rule<'r> {
    ghost use Rattle.std.specs.List.Sorted.{IsStrictlyIncreasing};
    ghost use Rattle.pick.specs.PickedInputs.{picked_in};
    ghost use Rattle.keep.specs.Marks.{CompactionContext};

    ghost Value = { CompactionContext };

    ghost view = { λ r. record {
      readable = record { listed = r.listed.now; floor = r.floor };
      deeper = (picked_in r.inputs.now).deeper;
      grandparents = r.inputs.now.grandparents.items;
    } };

    ghost invariant = { λ r. IsStrictlyIncreasing r.listed.now };
}

impl<'r> Rule<'r> {
    /// Whether the entry of `key` is hidden: (1) of the rule. `newer` is the previous entry's
    /// sequence if it has the same user key.
    fn is_hidden(&self, newer: Option<u64>, key: &InternalKey<'_>) -> bool
        ensures { result ≡ is_hidden_by self.now.readable newer key.now.bytes.now }
    {
        match newer {
            Some(newer) => newer <= self.floor && !is_needed(self.listed, newer, key.sequence()),
            None => false,
        }
    }

    /// Whether `key` is a deletion that nothing needs: (2) of the rule.
    fn is_obsolete<C: Comparator>(&self, key: &InternalKey<'_>) -> bool
        ensures { result
            ≡ is_obsolete C.cmp self.now.readable self.now.deeper
            (record { key = key.now.bytes.now; value = [] }) }
    {
        key.kind() == Kind::Delete
            && key.sequence() <= self.floor
            && is_below_all(self.listed, key.sequence())
            && is_base::<C>(self.inputs, key.user())
    }

    /// Whether the entry of `key` stays. `newer` is the previous entry's sequence if it has the
    /// same user key.
    pub fn keeps<C: Comparator>(&self, newer: Option<u64>, key: &InternalKey<'_>) -> bool
        ensures { result
            ≡ keeps_after C.cmp self.now newer (record { key = key.now.bytes.now; value = [] }) }
    {
        !self.is_hidden(newer, key) && !self.is_obsolete::<C>(key)
    }
}
