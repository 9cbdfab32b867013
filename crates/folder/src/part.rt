//! A part of a file.

ghost use Rattle.std.specs.Prelude.{◌≡◌};
ghost use Rattle.folder.specs.Folder.{part_of};

/// The `len` bytes from `offset` on, or as many as there are.
pub fn part_of(bytes: &[u8], offset: u64, len: usize) -> &[u8]
    ensures { result.now ≡ part_of offset len bytes.now }
{
    let start = offset.min(bytes.len() as u64) as usize;
    let (_, rest) = bytes.split_at(start);
    let (part, _) = rest.split_at(len.min(rest.len()));
    part
}
