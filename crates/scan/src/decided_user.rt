//! The user key that an entry decided last.

ghost use Rattle.std.specs.Prelude.{◌≡◌, [], IfErr, IfOk, OnOk, IsOkUnless, Some, None};
ghost use Rattle.table.specs.Answers.{fault};
ghost use Rattle.table.specs.fault.FaultName.TheVariants.{Memory};
ghost use Rattle.table.specs.Key.{user_of};
ghost use Rattle.scan.specs.EntryRows.{decided_after, is_decided};

use std::alloc::Global;
use std::marker::Model;
use table::{Fault, InternalKey};

/// The user key that an entry decided last; None before the first. Contracts see that key.
#[derive(Drop)]
pub(crate) struct DecidedUser {
    user: Vec<u8>,
    is_some: bool,
}

impl Model for DecidedUser {
    ghost use Rattle.std.specs.Prelude.{ℕ, List, Option};
    ghost use Rattle.scan.specs.EntryRows.{decided_by};

    ghost Value = { Option (List ℕ) };

    ghost view = { λ d. decided_by d.is_some d.user.items };
}

impl DecidedUser {
    /// Before the first.
    pub fn none(alloc: Global) -> DecidedUser
        ensures { result ≡ None }
    {
        DecidedUser {
            user: Vec::new(alloc),
            is_some: false,
        }
    }

    /// Whether `user` is that key.
    pub fn is(&self, user: &[u8]) -> bool
        ensures { result ≡ is_decided self.now user.now }
    {
        self.is_some && self.user.as_slice() == user
    }

    /// Makes `user` that key. It keeps its memory.
    pub fn set(&mut self, user: &[u8]) -> Result<(), Fault>
        ensures ok { OnOk result (self.new ≡ Some user.now) }
        ensures memory { IsOkUnless result (fault Memory) }
    {
        self.user.reserve(user.len())?;
        self.user.clear();
        self.user.extend_from_slice(user).unwrap();
        self.is_some = true;
        Ok(())
    }

    /// Takes in the next entry of sorted ones, and answers whether a newer one hides it: the
    /// sequence `at` saw a newer one of its user key.
    pub fn take_in(&mut self, key: InternalKey<'_>, at: u64) -> Result<bool, Fault>
        ensures hidden { IfOk result (λ hidden. hidden
            ≡ is_decided self.old (user_of key.entry.bytes.now)) }
        ensures decided { OnOk result (self.new
            ≡ decided_after at self.old (record { key = key.entry.bytes.now; value = [] })) }
        ensures memory { IfErr result (λ e. e ≡ fault Memory) }
    {
        let user = key.user();
        if self.is(user) {
            return Ok(true);
        }
        let is_seen = key.sequence() <= at;
        if !is_seen {
            return Ok(false);
        }
        self.set(user)?;
        Ok(false)
    }
}
