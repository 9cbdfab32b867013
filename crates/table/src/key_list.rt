//! Keys, one after the other in one buffer.

ghost use Rattle.std.specs.Prelude.{◌≡◌, ◌+◌, ◌<◌, ◌↔◌, [], ◌∷◌, ◌++◌, length, slice_index_or};
ghost use Rattle.std.specs.Prelude.{IsTrue, OnOk, OnErr, IsOkUnless};
ghost use Rattle.coding.specs.Answers.{fault};
ghost use Rattle.table.specs.KeyLists.{cut_at, AreKeyEnds, key_start};
ghost use Rattle.coding.specs.declared.fault.FaultName.TheVariants.{Memory};

use coding::Fault;
use std::alloc::Global;
use std::marker::Model;

/// A list of keys. They are one after the other in one buffer, so a key takes its bytes and a
/// place.
#[derive(Drop)]
pub struct KeyList {
    /// The bytes of all keys.
    bytes: Vec<u8>,
    /// Where each key ends in the buffer.
    ends: Vec<usize>,
}

impl Model for KeyList {
    ghost use Rattle.std.specs.Prelude.{ℕ, List};
    ghost use Rattle.table.specs.KeyLists.{cut_at, AreKeyEnds};

    ghost Value = { List (List ℕ) };

    ghost view = { λ k. cut_at 0 k.ends.items k.bytes.items };

    ghost invariant = { λ k. AreKeyEnds 0 k.ends.items k.bytes.items };
}

impl KeyList {
    /// No keys. Takes no memory.
    pub(crate) fn new(alloc: Global) -> KeyList
        ensures { result ≡ [] }
    {
        KeyList {
            bytes: Vec::new(alloc),
            ends: Vec::new(alloc),
        }
    }

    /// The number of keys.
    pub fn len(&self) -> usize
        ensures { result ≡ length self.now }
    {
        self.ends.as_slice().len()
    }

    /// Whether there are no keys.
    pub fn is_empty(&self) -> bool
        ensures { IsTrue result ↔ (length self.now ≡ 0) }
    {
        self.len() == 0
    }

    /// The key at `place`, counted from 0.
    pub fn get(&self, place: usize) -> &[u8]
        requires { place < length self.now }
        ensures { result.now ≡ slice_index_or self.now place [] }
    {
        cut(&self.bytes, &self.ends, place)
    }

    /// Appends a key.
    pub(crate) fn push(&mut self, key: &[u8]) -> Result<(), Fault>
        ensures ok { OnOk result (self.new ≡ self.old ++ key.now ∷ []) }
        ensures err { OnErr result (self.new ≡ self.old) }
        ensures memory { IsOkUnless result (fault Memory) }
    {
        append(&mut self.bytes, &mut self.ends, key)?;
        Ok(())
    }
}

/// The key at `place`, if `bytes` are cut at `ends`.
fn cut<'k>(bytes: &'k [u8], ends: &[usize], place: usize) -> &'k [u8]
    requires ends { AreKeyEnds 0 ends.now bytes.now }
    requires inside { place < length ends.now }
    ensures { result.now ≡ slice_index_or (cut_at 0 ends.now bytes.now) place [] }
{
    let start = start_of(ends, place);
    let (_, rest) = bytes.split_at(start);
    let (key, _) = rest.split_at(ends[place] - start);
    key
}

/// Where the key at `place` begins.
fn start_of(ends: &[usize], place: usize) -> usize
    requires { place < length ends.now }
    ensures { result ≡ key_start 0 ends.now place }
{
    if place == 0 { 0 } else { ends[place - 1] }
}

/// Appends a key and its end. The only fault is Memory, which leaves both unchanged.
fn append(bytes: &mut Vec<u8>, ends: &mut Vec<usize>, key: &[u8]) -> Result<(), Fault>
    ensures bytes { OnOk result (bytes.new.items ≡ bytes.old.items ++ key.now) }
    ensures ends { OnOk result (ends.new.items ≡ ends.old.items
        ++ (length bytes.old.items + length key.now) ∷ []) }
    ensures bytes_kept { OnErr result (bytes.new.items ≡ bytes.old.items) }
    ensures ends_kept { OnErr result (ends.new.items ≡ ends.old.items) }
    ensures memory { IsOkUnless result (fault Memory) }
{
    bytes.reserve(key.len())?;
    ends.push(bytes.len() + key.len())?;
    bytes.extend_from_slice(key).unwrap();
    Ok(())
}
