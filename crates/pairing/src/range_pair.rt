//! The entries of two files in one range of user keys.

ghost use Rattle.std.specs.Prelude.{◌≡◌, ◌≤◌, ◌++◌, [], ◌∷◌, IfErr, IfOk, None, Ok, OnOk, false};
ghost use Rattle.std.specs.Prelude.{length, true};
ghost use Rattle.std.specs.List.{AllByRecursion};
ghost use Rattle.std.specs.Option.{option_map};
ghost use Rattle.block.specs.EncodedEntry.{Entry};
ghost use Rattle.ikey.specs.Answers.{EqualOrMemory, UnlessMemory, fault};
ghost use Rattle.ikey.specs.fault.FaultName.TheVariants.{Duplicate};
ghost use Rattle.ikey.specs.Bytewise.{bytewise_cmp};
ghost use Rattle.table.specs.EntriesFrom.{NeverFalls};
ghost use Rattle.merge.specs.MergedLists.{entries_of_lists};
ghost use Rattle.pairing.specs.TestedUnion.{IsLimited, is_after_key, last_key_or, tested_entries};
ghost use Rattle.pairing.specs.TestedUnion.{union_of};

use crate::entry_checks::{last_of, push_entry};
use crate::tested_cursor::TestedCursor;
use crate::tested_entry::TestedEntry;
use ikey::{Bytewise, Comparator, Fault, FaultName, InternalKey};
use merge::Merging;
use std::alloc::Global;
use std::marker::Model;
use table::Cursor;

/// The entries of two files in one range of user keys. Contracts see the two lists.
#[derive(Drop)]
pub(crate) struct RangePair<'r, 'a> {
    a: &'r [TestedEntry<'a>],
    b: &'r [TestedEntry<'a>],
}

impl<'r, 'a> Model for RangePair<'r, 'a> {
    ghost use Rattle.std.specs.Prelude.{List, [], ◌∷◌};
    ghost use Rattle.block.specs.EncodedEntry.{Entry};
    ghost use Rattle.ikey.specs.Bytewise.{bytewise_cmp};
    ghost use Rattle.table.specs.EntriesFrom.{NeverFalls};
    ghost use Rattle.pairing.specs.TestedUnion.{tested_entries};

    ghost Value = { List (List Entry) };

    ghost view = { λ p. tested_entries p.a.now ∷ tested_entries p.b.now ∷ [] };

    ghost invariant = { λ p. NeverFalls bytewise_cmp (tested_entries p.a.now)
        × NeverFalls bytewise_cmp (tested_entries p.b.now) };
}

impl<'r, 'a> RangePair<'r, 'a> {
    /// The entries `a` of one file, and `b` of the other.
    pub fn new(a: &'r [TestedEntry<'a>], b: &'r [TestedEntry<'a>]) -> RangePair<'r, 'a>
        requires ordered_a { NeverFalls bytewise_cmp (tested_entries a.now) }
        requires ordered_b { NeverFalls bytewise_cmp (tested_entries b.now) }
        ensures { result ≡ tested_entries a.now ∷ tested_entries b.now ∷ [] }
    {
        RangePair { a, b }
    }

    /// The union of both. Duplicate if a user key has one sequence twice.
    pub fn union(&self, alloc: Global) -> Result<Vec<TestedEntry<'a>>, Fault>
        ensures { EqualOrMemory (λ v. tested_entries v.items) result (union_of self.now) }
    {
        let mut merging = Merging::<Bytewise, _>::new(alloc, self.cursors(alloc)?)?;
        let mut union = Vec::new(alloc);
        while merging.valid() {
            push_above(alloc, &mut union, merging.key(), merging.value())?;
            merging.advance()?;
        }
        Ok(union)
    }

    /// A cursor over the entries of each file.
    fn cursors(&self, alloc: Global) -> Result<Vec<TestedCursor<'r, 'a>>, Fault>
        ensures all { EqualOrMemory (λ v. v.items) result (Ok self.now) }
        ensures limited { IfOk result (λ _. AllByRecursion IsLimited (entries_of_lists self.now)) }
    {
        let mut cursors = Vec::new(alloc);
        cursors.push(TestedCursor::new(self.a))?;
        cursors.push(TestedCursor::new(self.b))?;
        Ok(cursors)
    }
}

/// Appends an entry. Duplicate if `key` isn't after the last entry's by user key and falling
/// sequence.
fn push_above<'a>(
    alloc: Global,
    union: &mut Vec<TestedEntry<'a>>,
    key: InternalKey<'_>,
    value: &'a [u8],
) -> Result<(), Fault>
    requires { length value.now ≤ 16777215 }
    ensures behind { OnOk result
        (is_after_key (last_key_or None (tested_entries union.old.items))
        key.entry.bytes.now ≡ true) }
    ensures ok { let entry : Entry = record { key = key.entry.bytes.now; value = value.now } in
        OnOk result (tested_entries union.new.items ≡ tested_entries union.old.items
        ++ entry ∷ []) }
    ensures refused { IfErr result (λ e. UnlessMemory e
        ((is_after_key (last_key_or None (tested_entries union.old.items))
        key.entry.bytes.now ≡ false)
        × (e ≡ fault Duplicate))) }
{
    if !is_after_key(last_of(union), &key) {
        return Err(Fault::of(FaultName::Duplicate));
    }
    push_entry(alloc, union, key, value)
}

/// Whether `key` is after the key before it, if there is one: by user key rising, then sequence
/// falling. The type doesn't count.
fn is_after_key(before: Option<InternalKey<'_>>, key: &InternalKey<'_>) -> bool
    ensures { result
        ≡ is_after_key (option_map (λ key. key.bytes.now) before.entry) key.now.bytes.now }
{
    match before {
        Some(before) => Bytewise::compare(before.user(), key.user())
            .then(key.sequence().cmp(&before.sequence()))
            .is_lt(),
        None => true,
    }
}
