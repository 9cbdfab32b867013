//! Boundaries between ranges of user keys whose tables fit into memory together. Which boundaries
//! these are changes no answer, so no contract says which.

ghost use Rattle.std.specs.Prelude.{◌≡◌, IfErr};
ghost use Rattle.ikey.specs.Answers.{fault};
ghost use Rattle.ikey.specs.fault.FaultName.TheVariants.{Memory};

use folder::FileMeta;
use ikey::{Comparator, Fault};
use split::{MAX_BOUNDARIES, Split};
use std::alloc::Global;

/// A group isn't ended before this share of `memory` has begun in it.
const LEAST_SHARE: u64 = 8;

/// A split into ranges so that the tables that reach into a range have at most `memory` bytes
/// together, as the files state their sizes. They have more only
///
/// - by tables that hold the range's first user key; or
/// - by tables that begin in it, of which all but the last one have less than an eighth of
///   `memory`, or less than 1/4,095 of the bytes of all files.
///
/// So there are never more than 4,096 ranges. Why an eighth: else each file would begin a range
/// once the tables that reach through all ranges fill `memory`, and one worker had all the work.
///
/// Each boundary is the smallest user key of a file. `standing` may have any order. Which tables
/// reach into a range is what [`needed_files`](crate::needed_files()) answers for it.
///
/// It takes the memory of a reference for each file and of a user key for each boundary.
pub fn group_split<C: Comparator>(
    alloc: Global,
    standing: &[&FileMeta],
    memory: u64,
) -> Result<Split<C>, Fault>
    ensures memory { IfErr result (λ e. e ≡ fault Memory) }
{
    let files = by_smallest::<C>(alloc, standing)?;
    match Split::from_keys(group_ends::<C>(alloc, &files, memory)?) {
        Ok(split) => Ok(split),
        Err(_) => Split::from_keys(Vec::new(alloc)),
    }
}

/// The files by their smallest user key.
fn by_smallest<'v, C: Comparator>(
    alloc: Global,
    standing: &[&'v FileMeta],
) -> Result<Vec<&'v FileMeta>, Fault>
    ensures memory { IfErr result (λ e. e ≡ fault Memory) }
{
    let mut files = Vec::from_slice(alloc, standing)?;
    files.sort_unstable_by(|file, other| C::compare(smallest(file), smallest(other)));
    Ok(files)
}

/// The smallest user key of a file.
fn smallest<'v>(file: &'v FileMeta) -> &'v [u8] {
    file.smallest.as_key().user()
}

/// The bytes of the files of a group.
#[derive(Clone, Copy)]
struct GroupBytes {
    /// Of those that begin in it.
    begun: u64,
    /// Of all that reach into it.
    reaching: u64,
}

impl GroupBytes {
    /// With one more file that begins in it.
    fn with(self, file: &FileMeta) -> GroupBytes {
        GroupBytes {
            begun: self.begun.saturating_add(file.size),
            reaching: self.reaching.saturating_add(file.size),
        }
    }
}

/// Where each group but the last one ends: at the smallest user key of the first file that doesn't
/// fit, if the least that begins in a group has begun. The files are in the order of those keys.
fn group_ends<C: Comparator>(
    alloc: Global,
    files: &[&FileMeta],
    memory: u64,
) -> Result<Vec<Vec<u8>>, Fault>
    ensures memory { IfErr result (λ e. e ≡ fault Memory) }
{
    let part = least_part(files).max(memory / LEAST_SHARE);
    let mut ends = Vec::<Vec<u8>>::new(alloc);
    let mut group = GroupBytes {
        begun: 0,
        reaching: 0,
    };
    for place in 0..files.len() {
        let file = files[place];
        let is_new = place > 0 && C::compare(smallest(files[place - 1]), smallest(file)).is_lt();
        let is_full = group.begun >= part && group.with(file).reaching > memory;
        // If the stated sizes have more than 2^64 bytes together, there may be more groups.
        if is_new && is_full && ends.len() < MAX_BOUNDARIES {
            ends.push(Vec::from_slice(alloc, smallest(file))?)?;
            group = GroupBytes {
                begun: 0,
                reaching: reaching::<C>(&files[..place], smallest(file)),
            };
        }
        group = group.with(file);
    }
    Ok(ends)
}

/// How many bytes the files that begin in a group must have together before the group is ended: the
/// bytes of all files by the most boundaries of a split, and 1 more.
fn least_part(files: &[&FileMeta]) -> u64 {
    let mut bytes = 0u64;
    for file in files {
        bytes = bytes.saturating_add(file.size);
    }
    (bytes / MAX_BOUNDARIES as u64).saturating_add(1)
}

/// How many bytes those of the files have together that don't end before a user key.
fn reaching<C: Comparator>(files: &[&FileMeta], user: &[u8]) -> u64 {
    let mut bytes = 0u64;
    for file in files {
        if !C::compare(file.largest.as_key().user(), user).is_lt() {
            bytes = bytes.saturating_add(file.size);
        }
    }
    bytes
}
