//! An entry of a block that passed its tests.

ghost use Rattle.std.specs.Prelude.{◌≤◌, length};

use ikey::KeyBuf;

/// An entry that passed its tests.
#[derive(Drop)]
pub(crate) struct TestedEntry<'a> {
    /// Its internal key.
    pub key: KeyBuf,
    /// Its value, a part of the file's bytes.
    pub value: &'a [u8],
    ghost limited: { length value.now ≤ 16777215 },
}
