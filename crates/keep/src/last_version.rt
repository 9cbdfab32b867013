//! What the next entry has to know of the previous one.

ghost use Rattle.std.specs.Prelude.{◌≡◌, ◌≤◌, nat_eq, true, false, [], length, OnOk, OnErr};
ghost use Rattle.std.specs.Prelude.{IsOkUnless, Some, None};
ghost use Rattle.std.specs.List.{common_prefix_len};
ghost use Rattle.std.specs.Option.{is_none};
ghost use Rattle.std.specs.Str.{bytes_eq};
ghost use Rattle.coding.specs.Answers.{fault};
ghost use Rattle.coding.specs.declared.fault.FaultName.TheVariants.{Memory};
ghost use Rattle.ikey.specs.Key.{user_of, sequence_of};
ghost use Rattle.ikey.specs.declared.key.TheConstants.{TAG_LEN};
ghost use Rattle.keep.specs.Versions.{last_version, newer_of};

use coding::Fault;
use ikey::{InternalKey, TAG_LEN};
use std::alloc::Global;
use std::marker::Model;

/// The user key and the sequence of the previous entry, if there is one.
///
/// Of an entry that was kept the user key is not copied: it lies with the kept entries.
#[derive(Drop)]
pub(crate) struct LastVersion {
    /// Whether the user key is that of the last kept entry.
    is_kept: bool,
    /// The user key, if it is not.
    user: Vec<u8>,
    /// The sequence; None before the first entry.
    sequence: Option<u64>,
}

impl Model for LastVersion {
    ghost use Rattle.keep.specs.Versions.{StoredVersion};

    ghost Value = { StoredVersion };

    ghost view = { λ v. record {
      is_kept = v.is_kept;
      user = v.user.items;
      sequence = v.sequence;
    } };
}

impl LastVersion {
    /// Before the first entry.
    pub fn none(alloc: Global) -> LastVersion
        ensures { result ≡ record { is_kept = false; user = []; sequence = None } }
    {
        LastVersion {
            is_kept: false,
            user: Vec::new(alloc),
            sequence: None,
        }
    }

    /// Whether no entry came yet.
    pub fn is_none(&self) -> bool
        ensures { result ≡ is_none self.now.sequence }
    {
        self.sequence.is_none()
    }

    /// The sequence of the previous entry if it has the user key of `key`, else None. `kept` is the
    /// last kept key, with which `key` shares `shared` bytes.
    #[inline(always)]
    pub fn newer_of(&self, key: InternalKey<'_>, kept: &[u8], shared: usize) -> Option<u64>
        requires shared { shared ≡ common_prefix_len nat_eq kept.now key.bytes.now }
        requires tagged { self.now.is_kept ≡ true → TAG_LEN ≤ length kept.now }
        ensures { result
            ≡ newer_of (last_version kept.now self.now) (user_of key.entry.bytes.now) }
    {
        let is_same = if self.is_kept {
            is_same_user(key, kept, shared)
        } else {
            self.user.as_slice() == key.user()
        };
        if is_same { self.sequence } else { None }
    }

    /// Makes the entry of `key` the previous one, which was kept.
    pub fn keep(&mut self, key: InternalKey<'_>)
        ensures { self.new ≡ record {
          is_kept = true;
          user = self.old.user;
          sequence = Some (sequence_of key.entry.bytes.now);
        } }
    {
        self.is_kept = true;
        self.sequence = Some(key.sequence());
    }

    /// Makes the entry of `key` the previous one, which was not kept and has the user key of the
    /// one before it.
    pub fn pass(&mut self, key: InternalKey<'_>)
        ensures { self.new ≡ record {
          is_kept = self.old.is_kept;
          user = self.old.user;
          sequence = Some (sequence_of key.entry.bytes.now);
        } }
    {
        self.sequence = Some(key.sequence());
    }

    /// Makes the entry of `key` the previous one, which was not kept. The only fault is Memory,
    /// which changes nothing.
    pub fn set(&mut self, key: InternalKey<'_>) -> Result<(), Fault>
        ensures ok { OnOk result (self.new ≡ record {
          is_kept = false;
          user = user_of key.entry.bytes.now;
          sequence = Some (sequence_of key.entry.bytes.now);
        }) }
        ensures err { OnErr result (self.new ≡ self.old) }
        ensures memory { IsOkUnless result (fault Memory) }
    {
        let user = key.user();
        self.user.reserve(user.len())?;
        self.user.clear();
        self.user.extend_from_slice(user).unwrap();
        self.is_kept = false;
        self.sequence = Some(key.sequence());
        Ok(())
    }
}

/// Whether two internal keys have one user key, if they share `shared` bytes.
fn is_same_user(key: InternalKey<'_>, kept: &[u8], shared: usize) -> bool
    requires shared { shared ≡ common_prefix_len nat_eq kept.now key.bytes.now }
    requires tagged { TAG_LEN ≤ length kept.now }
    ensures { result ≡ bytes_eq (user_of kept.now) (user_of key.entry.bytes.now) }
{
    let len = key.bytes().len();
    kept.len() == len && shared >= len - TAG_LEN
}
