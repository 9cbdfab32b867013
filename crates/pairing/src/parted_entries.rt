//! Parting a file's entries at a user key.

ghost use Rattle.std.specs.Prelude.{◌≡◌, ◌++◌, ◌↔◌, ℕ, ◌<◌, ◌≤◌, length, IsTrue, slice_index_or};
ghost use Rattle.std.specs.List.{AllByRecursion};
ghost use Rattle.ikey.specs.Bytewise.{bytewise_cmp};
ghost use Rattle.table.specs.EntriesFrom.{EntriesRise};
ghost use Rattle.pairing.specs.TestedUnion.{tested_entry, tested_entries};
ghost use Rattle.pairing.specs.Ranges.{IsBefore, IsFrom};

use crate::tested_entry::TestedEntry;
use ikey::{Bytewise, Comparator};

/// The entries before the user key `at`, and those from it on.
pub(crate) fn parted<'r, 'a>(
    entries: &'r [TestedEntry<'a>],
    at: &[u8],
) -> (&'r [TestedEntry<'a>], &'r [TestedEntry<'a>])
    ensures parts { tested_entries entries.now ≡ tested_entries result.0.now
        ++ tested_entries result.1.now }
    ensures before { AllByRecursion (IsBefore at.now) (tested_entries result.0.now) }
    ensures from { EntriesRise bytewise_cmp (tested_entries entries.now) →
        AllByRecursion (IsFrom at.now) (tested_entries result.1.now) }
{
    entries.split_at(first_from(entries, at))
}

/// Whether the user key of `entry` is before `at`.
fn is_before(entry: &TestedEntry<'_>, at: &[u8]) -> bool
    ensures { IsTrue result ↔ IsBefore at.now (tested_entry entry.now) }
{
    let key = entry.key.as_key();
    Bytewise::compare(key.user(), at).is_lt()
}

/// The place of the first entry whose user key isn't before `at`; the number of entries if there is
/// none.
fn first_from(entries: &[TestedEntry<'_>], at: &[u8]) -> usize
    ensures within { result ≤ length entries.now }
    ensures before { (k : ℕ) (d : _) → k < result →
        IsBefore at.now (tested_entry (slice_index_or entries.now k d)) }
    ensures from { (d : _) → result < length entries.now →
        IsFrom at.now (tested_entry (slice_index_or entries.now result d)) }
{
    for place in 0..entries.len() {
        if !is_before(&entries[place], at) {
            return place;
        }
    }
    entries.len()
}
