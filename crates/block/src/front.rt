//! What is at the front of a block's bytes, and the bytes after it.

ghost use Rattle.std.specs.Prelude.{◌≡◌, ◌<◌, ◌^◌, length, take};

/// An entry at the front of bytes, as it is stored, and the bytes after it.
#[derive(Clone, Copy)]
pub(crate) struct FrontEntry<'a> {
    /// How many bytes of the key before it begin its key.
    pub shared: usize,
    /// The other bytes of its key.
    pub unshared: &'a [u8],
    /// The unshared bytes and all bytes after them.
    pub behind: &'a [u8],
    pub value: &'a [u8],
    pub rest: &'a [u8],
    ghost shared_fits: { shared < 2 ^ 32 },
    ghost unshared_fits: { length unshared.now < 2 ^ 32 },
    ghost begins: { take (length unshared.now) behind.now ≡ unshared.now },
}

/// A length at the front of bytes, and the bytes after it.
#[derive(Clone, Copy)]
pub(crate) struct FrontLength<'a> {
    pub length: usize,
    pub rest: &'a [u8],
    ghost fits: { length < 2 ^ 32 },
}

/// The three lengths of an entry at the front of bytes, and the bytes after them.
#[derive(Clone, Copy)]
pub(crate) struct FrontLengths<'a> {
    pub shared: usize,
    pub unshared: usize,
    pub value: usize,
    pub rest: &'a [u8],
    ghost shared_fits: { shared < 2 ^ 32 },
    ghost unshared_fits: { unshared < 2 ^ 32 },
    ghost value_fits: { value < 2 ^ 32 },
}
