//! What one entry does to a walk.

ghost use Rattle.std.specs.Prelude.{◌≡◌, ◌≤◌, nat_eq, true, false, [], length, OnOk, IsOkUnless};
ghost use Rattle.std.specs.Prelude.{IfErr, None};
ghost use Rattle.std.specs.List.{common_prefix_len};
ghost use Rattle.reads.specs.BuilderView.{last_key};
ghost use Rattle.coding.specs.Answers.{fault, UnlessMemory};
ghost use Rattle.coding.specs.declared.fault.FaultName.TheVariants.{Memory, Duplicate};
ghost use Rattle.ikey.specs.Key.{user_of};
ghost use Rattle.keep.specs.Marks.{grandparents_below, LargestRise};
ghost use Rattle.keep.specs.Versions.{newer_of};
ghost use Rattle.keep.specs.RangeWalk.{is_repeated, sets_mark, walk_after_first, walk_after};
ghost use Rattle.keep.specs.RangeWalk.{walk_after_entry};

use crate::grandparents::count_below;
use crate::last_version::LastVersion;
use crate::range_run::RangeRun;
use crate::rule::Rule;
use crate::walk::Walk;
use coding::{Fault, FaultName, common_len};
use ikey::{Comparator, InternalKey};
use std::alloc::Global;

impl<'a> Walk<'a> {
    /// A walk before the first entry.
    pub fn new(alloc: Global) -> Walk<'a>
        ensures { result
            ≡ record { run = record { kept = []; marks = [] }; last = None; passed = 0 } }
    {
        Walk {
            run: RangeRun::new(alloc),
            last: LastVersion::none(alloc),
            passed: 0,
        }
    }

    /// Whether the first entry of a user key, with `below` grandparents below it, sets a mark.
    fn sets_mark(&self, below: usize) -> bool
        ensures { result ≡ sets_mark self.now.last self.now.passed below }
    {
        self.last.is_none() || below != self.passed
    }

    /// The first entry of a user key. Counts the grandparents below it, and sets a mark if the
    /// number differs from that of the user key before or if it is the first of the range.
    fn begin<C: Comparator>(&mut self, rule: &Rule<'_>, key: &InternalKey<'_>) -> Result<(), Fault>
        requires passed { self.old.passed ≤ grandparents_below C.cmp rule.now.grandparents
            key.now.bytes.now }
        requires rising { LargestRise C.cmp rule.now.grandparents }
        ensures ok { OnOk result (self.new
            ≡ walk_after_first C.cmp rule.now self.old key.now.bytes.now) }
        ensures memory { IsOkUnless result (fault Memory) }
    {
        let below = count_below::<C>(&rule.inputs.grandparents, self.passed, key);
        if self.sets_mark(below) {
            self.run.push_mark(below)?;
        }
        self.passed = below;
        Ok(())
    }

    /// How many bytes `key` shares with the last kept key.
    fn shared_with(&self, key: InternalKey<'_>) -> usize
        ensures value { result
            ≡ common_prefix_len nat_eq (last_key [] self.now.run.kept) key.entry.bytes.now }
        ensures within { result ≤ length key.entry.bytes.now }
    {
        common_len(self.run.last_key(), key.bytes())
    }

    /// The sequence of the previous entry if it has the user key of `key`, else None. `key` shares
    /// `shared` bytes with the last kept key.
    #[inline(always)]
    fn newer_of(&self, key: InternalKey<'_>, shared: usize) -> Option<u64>
        requires { shared ≡ common_prefix_len nat_eq (last_key [] self.now.run.kept) key.bytes.now }
        ensures { result ≡ newer_of self.now.last (user_of key.entry.bytes.now) }
    {
        self.last.newer_of(key, self.run.last_key(), shared)
    }

    /// Keeps or drops an entry, whose key shares `shared` bytes with the last kept key. `newer` is
    /// the previous entry's sequence if it has the same user key.
    #[inline(always)]
    fn take(
        &mut self,
        keeps: bool,
        newer: Option<u64>,
        key: InternalKey<'_>,
        value: &'a [u8],
        shared: usize,
    ) -> Result<(), Fault>
        requires shared { shared
            ≡ common_prefix_len nat_eq (last_key [] self.old.run.kept) key.bytes.now }
        requires within { shared ≤ length key.bytes.now }
        requires newer { newer ≡ newer_of self.old.last (user_of key.bytes.now) }
        ensures ok { OnOk result (self.new ≡ walk_after_entry keeps self.old
            (record { key = key.entry.bytes.now; value = value.now })) }
        ensures memory { IsOkUnless result (fault Memory) }
    {
        if keeps {
            self.run.push(key, value, shared)?;
            self.last.keep(key);
            return Ok(());
        }
        if newer.is_some() {
            self.last.pass(key);
            return Ok(());
        }
        self.last.set(key)
    }

    /// Walks the next entry: it is kept or dropped. Faults: Duplicate if it has the user key and
    /// the sequence of the previous entry, else only Memory.
    #[inline(always)]
    pub fn step<C: Comparator>(
        &mut self,
        rule: &Rule<'_>,
        key: InternalKey<'_>,
        value: &'a [u8],
    ) -> Result<(), Fault>
        requires passed { self.old.passed ≤ grandparents_below C.cmp rule.now.grandparents
            key.bytes.now }
        requires rising { LargestRise C.cmp rule.now.grandparents }
        ensures new { OnOk result (self.new
            ≡ walk_after C.cmp rule.now self.old
            (record { key = key.entry.bytes.now; value = value.now })) }
        ensures ok { OnOk result
            (is_repeated (newer_of self.old.last (user_of key.entry.bytes.now)) key.entry.bytes.now
            ≡ false) }
        ensures refused { IfErr result (λ e. UnlessMemory e
            ((e ≡ fault Duplicate)
            × (is_repeated (newer_of self.old.last (user_of key.entry.bytes.now))
            key.entry.bytes.now ≡ true))) }
    {
        let shared = self.shared_with(key);
        let newer = self.newer_of(key, shared);
        match newer {
            Some(sequence) => {
                if sequence == key.sequence() {
                    return Err(Fault::of(FaultName::Duplicate));
                }
            }
            None => self.begin::<C>(rule, &key)?,
        }
        let keeps = rule.keeps::<C>(newer, &key);
        self.take(keeps, newer, key, value, shared)
    }
}
