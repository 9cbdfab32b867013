//! An internal key that owns its bytes.

ghost use Rattle.std.specs.Prelude.{◌≡◌, ℕ, ◌^◌, ◌<◌, ◌≤◌, List, Ok, length, OnOk, OnErr};
ghost use Rattle.std.specs.Prelude.{IsOkUnless};
ghost use Rattle.coding.specs.Answers.{EqualOrMemory, fault};
ghost use Rattle.coding.specs.declared.fault.FaultName.TheVariants.{Memory};
ghost use Rattle.ikey.specs.Key.{internal_key};

use crate::key::{InternalKey, TAG_LEN};
use crate::kind::Kind;
use byteorder::{ByteOrder, LittleEndian};
use coding::Fault;
use std::alloc::Global;
use std::marker::Model;

/// An internal key that owns its bytes. Contracts see those bytes.
#[derive(Drop)]
pub struct KeyBuf {
    bytes: Vec<u8>,
}

impl Model for KeyBuf {
    ghost use Rattle.std.specs.Prelude.{ℕ, List};
    ghost use Rattle.ikey.specs.Key.{IsInternalKey};

    ghost Value = { List ℕ };

    ghost view = { λ a. a.bytes.items };

    ghost invariant = { λ a. IsInternalKey a.bytes.items };
}

impl KeyBuf {
    /// A copy of `key`.
    pub fn of(alloc: Global, key: InternalKey) -> Result<KeyBuf, Fault>
        ensures { EqualOrMemory (λ own. own) result (Ok key.entry.bytes.now) }
    {
        let bytes = Vec::from_slice(alloc, key.bytes())?;
        Ok(KeyBuf { bytes })
    }

    /// The internal key of `user`, at most 65,535 bytes, a `sequence` below 2^56 and a type.
    pub fn new(alloc: Global, user: &[u8], sequence: u64, kind: Kind) -> Result<KeyBuf, Fault>
        requires user_fits { length user.now ≤ 65535 }
        requires sequence_fits { sequence < 2 ^ 56 }
        ensures { EqualOrMemory (λ own. own) result (Ok (internal_key user.now sequence kind)) }
    {
        let mut tag = [0u8; 8];
        LittleEndian::write_u64(&mut tag, sequence * 256 + u64::from(kind.number()));
        let mut bytes = Vec::with_capacity(alloc, user.len() + TAG_LEN)?;
        bytes.extend_from_slice(user)?;
        bytes.extend_from_slice(&tag)?;
        Ok(KeyBuf { bytes })
    }

    /// Replaces this key by a copy of `key`, in the same memory if that is enough.
    #[inline(always)]
    pub fn set(&mut self, key: InternalKey) -> Result<(), Fault>
        ensures ok { OnOk result (self.new ≡ key.entry.bytes.now) }
        ensures err { OnErr result (self.new ≡ self.old) }
        ensures memory { IsOkUnless result (fault Memory) }
    {
        let bytes = key.bytes();
        self.bytes
            .reserve(bytes.len().saturating_sub(self.bytes.len()))?;
        self.bytes.clear();
        self.bytes.extend_from_slice(bytes).unwrap();
        Ok(())
    }

    /// The key, in the bytes where it lies.
    pub fn as_key(&self) -> InternalKey<'_>
        ensures { result.bytes.now ≡ self.now }
    {
        InternalKey { bytes: &self.bytes }
    }
}
