//! Room for a key whose end is replaced again and again.

ghost use Rattle.std.specs.Prelude.{◌≡◌, ◌<◌, ◌≤◌, ◌^◌, ◌+◌, ◌++◌, [], length, take, OnOk, OnErr};
ghost use Rattle.std.specs.Prelude.{IsOkUnless};
ghost use Rattle.coding.specs.Answers.{fault};
ghost use Rattle.coding.specs.declared.fault.FaultName.TheVariants.{Memory};

use crate::front::FrontEntry;
use coding::Fault;
use std::alloc::Global;
use std::marker::Model;
use std::simd::prelude::*;

/// How many bytes are copied at once, whether or not all of them are wanted.
const STRIDE: usize = 32;

/// A key at the front of bytes. The bytes after it are room for longer keys, and to copy into.
#[derive(Drop)]
pub(crate) struct KeyRoom {
    bytes: Vec<u8>,
    len: usize,
}

impl Model for KeyRoom {
    ghost use Rattle.std.specs.Prelude.{List, ℕ, ◌≤◌, length, take};

    ghost Value = { List ℕ };

    ghost view = { λ room. take room.len room.bytes.items };

    ghost invariant = { λ room. room.len ≤ length room.bytes.items };
}

impl KeyRoom {
    /// The empty key, without room. Takes no memory.
    pub(crate) fn new(alloc: Global) -> KeyRoom
        ensures { result ≡ [] }
    {
        KeyRoom {
            bytes: Vec::new(alloc),
            len: 0,
        }
    }

    /// The key.
    #[inline(always)]
    pub(crate) fn as_slice(&self) -> &[u8]
        ensures { result.now ≡ self.now }
    {
        &self.bytes[..self.len]
    }

    /// The length of the key.
    #[inline(always)]
    pub(crate) fn len(&self) -> usize
        ensures { result ≡ length self.now }
    {
        self.len
    }

    /// Keeps the first `shared` bytes of the key and appends the unshared bytes of `next`.
    #[inline(always)]
    pub(crate) fn replace_end(&mut self, shared: usize, next: FrontEntry<'_>) -> Result<(), Fault>
        requires within { shared ≤ length self.old }
        requires fits { shared < 2 ^ 32 }
        ensures ok { OnOk result (self.new ≡ take shared self.old ++ next.entry.unshared.now) }
        ensures err { OnErr result (self.new ≡ self.old) }
        ensures memory { IsOkUnless result (fault Memory) }
    {
        let unshared = next.unshared.len();
        if unshared <= STRIDE
            && next.behind.len() >= STRIDE
            && self.bytes.len() - shared >= STRIDE
        {
            self.len = copy_over(&mut self.bytes, shared, next.behind, unshared);
            return Ok(());
        }
        self.replace_slowly(shared, next.unshared)
    }

    /// The same for any `unshared`. It makes room if there is too little.
    #[cold]
    #[inline(never)]
    fn replace_slowly(&mut self, shared: usize, unshared: &[u8]) -> Result<(), Fault>
        requires within { shared ≤ length self.old }
        requires shared_fits { shared < 2 ^ 32 }
        requires unshared_fits { length unshared.now < 2 ^ 32 }
        ensures ok { OnOk result (self.new ≡ take shared self.old ++ unshared.now) }
        ensures err { OnErr result (self.new ≡ self.old) }
        ensures memory { IsOkUnless result (fault Memory) }
    {
        let len = shared + unshared.len();
        lengthen(&mut self.bytes, len + STRIDE)?;
        self.bytes[shared..len].copy_from_slice(unshared);
        self.len = len;
        Ok(())
    }
}

/// Copies the first `count` bytes of `source` over those at `at`, and answers where they end. It
/// copies 32 bytes at once, so some bytes after the end may change too.
#[inline(always)]
fn copy_over(room: &mut [u8], at: usize, source: &[u8], count: usize) -> usize
    requires room { at + 32 ≤ length room.old }
    requires source { 32 ≤ length source.now }
    requires few { count ≤ 32 }
    ensures end { result ≡ at + count }
    ensures len { length room.new ≡ length room.old }
    ensures copied { take result room.new ≡ take at room.old ++ take count source.now }
{
    u8x32::from_slice(source).copy_to_slice(&mut room[at..]);
    at + count
}

/// Appends zeros up to this length, if the bytes are fewer.
fn lengthen(bytes: &mut Vec<u8>, len: usize) -> Result<(), Fault>
    ensures kept { OnOk result (take (length bytes.old.items) bytes.new.items ≡ bytes.old.items) }
    ensures long { OnOk result (len ≤ length bytes.new.items) }
    ensures err { OnErr result (bytes.new.items ≡ bytes.old.items) }
    ensures memory { IsOkUnless result (fault Memory) }
{
    if bytes.len() < len {
        bytes.resize(len, 0)?;
    }
    Ok(())
}
