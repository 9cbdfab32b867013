//! Files of the host's version, whose keys lie in bytes that it lends.

ghost use Rattle.std.specs.Prelude.{◌≡◌, true, Ok};
ghost use Rattle.ikey.specs.Answers.{EqualOrMemory};
ghost use Rattle.c_api.specs.Files.{has_keys as has_both, is_key_at as is_key};
ghost use Rattle.c_api.specs.Files.{meta_at as stated_at};
ghost use Rattle.c_api.specs.Places.{part_at};

use crate::place::{Place, is_within, part_of};
use edit::FileMeta;
use ikey::{Fault, InternalKey, KeyBuf};
use std::alloc::Global;

/// A file of the host's version.
#[repr(C)]
#[derive(Clone, Copy, Drop)]
pub struct File {
    /// From 0 to 6.
    pub level: u64,
    /// The number in the table's name.
    pub number: u64,
    /// The table's length in bytes.
    pub size: u64,
    /// The first internal key, in the keys that are lent.
    pub smallest: Place,
    /// The last internal key, in the keys that are lent.
    pub largest: Place,
}

/// Whether an internal key lies at a place.
fn is_key_at(keys: &[u8], place: Place) -> bool
    ensures { result ≡ is_key keys.now place }
{
    is_within(keys, place) && InternalKey::parse(part_of(keys, place)).is_ok()
}

/// Whether both keys of a file are internal keys.
pub(crate) fn has_keys(keys: &[u8], file: &File) -> bool
    ensures { result ≡ has_both keys.now file.now }
{
    is_key_at(keys, file.smallest) && is_key_at(keys, file.largest)
}

/// The internal key at a place.
pub(crate) fn key_at(keys: &[u8], place: Place) -> InternalKey<'_>
    requires { is_key keys.now place ≡ true }
    ensures { result.bytes.now ≡ part_at keys.now place }
{
    let Ok(key) = InternalKey::parse(part_of(keys, place)) else {
        unreachable!();
    };
    key
}

/// What a file's version states of it.
pub(crate) fn meta_at(alloc: Global, keys: &[u8], file: &File) -> Result<FileMeta, Fault>
    requires { has_both keys.now file.now ≡ true }
    ensures { EqualOrMemory (λ meta. meta) result (Ok (stated_at keys.now file.now)) }
{
    let smallest = KeyBuf::of(alloc, key_at(keys, file.smallest))?;
    let largest = KeyBuf::of(alloc, key_at(keys, file.largest))?;
    Ok(FileMeta {
        number: file.number,
        size: file.size,
        smallest,
        largest,
    })
}
