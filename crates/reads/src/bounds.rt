//! What a version states of a file beside its number.

ghost use Rattle.std.specs.Prelude.{◌≡◌, length};
ghost use Rattle.reads.specs.Bounds.{has_bounds};

use edit::FileMeta;
use ikey::InternalKey;

/// Whether the version states of `file` the length of `bytes`, and these smallest and largest keys.
pub fn has_bounds(
    file: &FileMeta,
    bytes: &[u8],
    smallest: InternalKey<'_>,
    largest: InternalKey<'_>,
) -> bool
    ensures { result
        ≡ has_bounds file.now (length bytes.now) smallest.entry.bytes.now largest.entry.bytes.now }
{
    file.size == bytes.len() as u64
        && file.smallest.as_key().bytes() == smallest.bytes()
        && file.largest.as_key().bytes() == largest.bytes()
}
