//! The entries of a run, written into rooms.
//!
//! They are walked chunk by chunk. So the chunk of an entry is found once for all of its entries.

ghost use Rattle.std.specs.Prelude.{◌≡◌, ◌+◌, ◌<◌, ◌≤◌, ◌++◌, ⊤, length, map, slice_get};
ghost use Rattle.std.specs.Prelude.{MatchOption, Some};
ghost use Rattle.std.specs.Option.{option_map};
ghost use Rattle.std.specs.Simd.Lanes.{put_chunk};
ghost use Rattle.c_api.specs.Runs.{bytes_of as all_bytes, lengths_of as both};

use crate::room::put_at;
use crate::run_arrays::EntryLengths;
use keep::{ChunkSlice, RangeRun};

/// How many bytes the entries of a run have; None if that is 2^64 or more, which no memory holds.
pub(crate) fn bytes_len(run: &RangeRun<'_>) -> Option<u64>
    ensures { MatchOption result ⊤ (λ len. len ≡ length (all_bytes run.now.kept)) }
{
    let mut len = 0;
    let mut place = 0;
    while place < run.len() {
        let slice = run.slice_from(place);
        len = len_with(len, &slice)?;
        place += slice.len();
    }
    Some(len)
}

/// `len` and the bytes of these entries; None if that is 2^64 or more.
fn len_with(len: u64, entries: &ChunkSlice<'_, '_>) -> Option<u64>
    ensures { MatchOption result ⊤ (λ sum. sum ≡ len + length (all_bytes entries.now)) }
{
    let mut sum = len;
    for place in 0..entries.len() {
        let both = lengths_at(entries, place);
        sum = sum.checked_add(both.key)?.checked_add(both.value)?;
    }
    Some(sum)
}

/// How long the key and the value of the entry at `place` are.
#[inline(always)]
fn lengths_at(entries: &ChunkSlice<'_, '_>, place: usize) -> EntryLengths
    requires { place < length entries.now }
    ensures { option_map both (slice_get entries.now place) ≡ Some result }
{
    EntryLengths {
        key: entries.key(place).bytes().len() as u64,
        value: entries.value(place).len() as u64,
    }
}

/// Writes the bytes of the entries of a run to the beginning of a room: each key, and its value
/// after it.
pub(crate) fn put_bytes(run: &RangeRun<'_>, room: &mut [u8])
    requires { length (all_bytes run.now.kept) ≤ length room.old }
    ensures { room.new ≡ put_chunk 0 room.old (all_bytes run.now.kept) }
{
    let mut end = 0;
    let mut place = 0;
    while place < run.len() {
        let slice = run.slice_from(place);
        end = put_slice(&slice, room, end);
        place += slice.len();
    }
}

/// Writes the bytes of these entries into a room, from `at` on, and answers where they end.
fn put_slice(entries: &ChunkSlice<'_, '_>, room: &mut [u8], at: usize) -> usize
    requires { at + length (all_bytes entries.now) ≤ length room.old }
    ensures written { room.new ≡ put_chunk at room.old (all_bytes entries.now) }
    ensures end { result ≡ at + length (all_bytes entries.now) }
{
    let mut end = at;
    for place in 0..entries.len() {
        let key = entries.key(place);
        end = put_entry(key.bytes(), entries.value(place), room, end);
    }
    end
}

/// Writes a key and its value into a room, from `at` on, and answers where they end.
#[inline(always)]
fn put_entry(key: &[u8], value: &[u8], room: &mut [u8], at: usize) -> usize
    requires { at + (length key.now + length value.now) ≤ length room.old }
    ensures written { room.new ≡ put_chunk at room.old (key.now ++ value.now) }
    ensures end { result ≡ at + length (key.now ++ value.now) }
{
    let middle = at + key.len();
    put_at(key, room, at);
    put_at(value, room, middle);
    middle + value.len()
}

/// Writes how long the key and the value of each entry of a run are, to the beginning of a room.
pub(crate) fn put_lengths(run: &RangeRun<'_>, room: &mut [EntryLengths])
    requires { length run.now.kept ≤ length room.old }
    ensures { room.new ≡ put_chunk 0 room.old (map both run.now.kept) }
{
    let mut place = 0;
    while place < run.len() {
        let slice = run.slice_from(place);
        put_lengths_of(&slice, room, place);
        place += slice.len();
    }
}

/// Writes how long the key and the value of each of these entries are, from `at` on.
fn put_lengths_of(entries: &ChunkSlice<'_, '_>, room: &mut [EntryLengths], at: usize)
    requires { at + length entries.now ≤ length room.old }
    ensures { room.new ≡ put_chunk at room.old (map both entries.now) }
{
    for place in 0..entries.len() {
        put_at(&[lengths_at(entries, place)], room, at + place);
    }
}
