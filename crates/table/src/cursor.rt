//! What a cursor over sorted entries promises.

ghost use Rattle.std.specs.Prelude.{◌≡◌, ◌<◌, ◌↔◌, List, length, drop, slice_get, IsTrue, OnOk};
ghost use Rattle.std.specs.Prelude.{OnErr, IsOkUnless, Some};
ghost use Rattle.std.specs.Option.{option_map};
ghost use Rattle.coding.specs.Answers.{fault};
ghost use Rattle.coding.specs.declared.fault.FaultName.TheVariants.{Memory};
ghost use Rattle.block.specs.EncodedEntry.{Entry};
ghost use Rattle.table.specs.EntriesFrom.{NeverFalls, entries_from, LeavesFrom};

use coding::Fault;
use ikey::{Comparator, InternalKey};

/// A place in a list of entries.
pub trait Entries {
    /// The entries still to come.
    ghost remaining: { Self → List Entry };
}

/// A place in a list of entries whose internal keys never fall: the entries still to come.
pub trait Cursor<'a, C: Comparator>: Entries {
    /// Whether an entry is still to come.
    fn valid(&self) -> bool
        ensures some { IsTrue result ↔ (0 < length (Self.remaining self.now)) }
        ensures ordered { NeverFalls C.cmp (Self.remaining self.now) };

    /// The internal key of the next entry.
    fn key(&self) -> InternalKey<'_>
        requires { 0 < length (Self.remaining self.now) }
        ensures { option_map (λ e. e.key) (slice_get (Self.remaining self.now) 0)
            ≡ Some result.bytes.now };

    /// The value of the next entry.
    fn value(&self) -> &'a [u8]
        requires { 0 < length (Self.remaining self.now) }
        ensures { option_map (λ e. e.value) (slice_get (Self.remaining self.now) 0)
            ≡ Some result.now };

    /// Takes off the next entry.
    fn advance(&mut self) -> Result<(), Fault>
        requires { 0 < length (Self.remaining self.old) }
        ensures ok { OnOk result (Self.remaining self.new ≡ drop 1 (Self.remaining self.old)) }
        ensures err { OnErr result (Self.remaining self.new ≡ Self.remaining self.old) }
        ensures memory { IsOkUnless result (fault Memory) };

    /// Takes off the entries below `target`. It never goes back.
    ///
    /// Some of those entries may be lost then, and no others.
    fn seek(&mut self, target: InternalKey<'_>) -> Result<(), Fault>
        ensures ok { OnOk result
            (Self.remaining self.new
            ≡ entries_from C.cmp target.entry.bytes.now (Self.remaining self.old)) }
        ensures err { OnErr result
            (LeavesFrom C.cmp target.entry.bytes.now (Self.remaining self.old)
            (Self.remaining self.new)) }
        ensures memory { IsOkUnless result (fault Memory) };
}

impl<S: Entries> Entries for &mut S {
    ghost remaining = { λ lent. S.remaining lent.now };
}

/// A lent cursor is a cursor too.
impl<'a, C: Comparator, S: Cursor<'a, C>> Cursor<'a, C> for &mut S {
    fn valid(&self) -> bool {
        (**self).valid()
    }

    fn key(&self) -> InternalKey<'_> {
        (**self).key()
    }

    fn value(&self) -> &'a [u8] {
        (**self).value()
    }

    fn advance(&mut self) -> Result<(), Fault> {
        (**self).advance()
    }

    fn seek(&mut self, target: InternalKey<'_>) -> Result<(), Fault> {
        (**self).seek(target)
    }
}
