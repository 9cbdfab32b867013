//! What is written into the host's room.

ghost use Rattle.std.specs.Simd.Lanes.{put_chunk};
ghost use Rattle.c_api.specs.Rooms.{IsWritten};
ghost use Rattle.std.specs.Prelude.{◌≡◌, ◌+◌, ◌≤◌, ◌++◌, drop, length, Ok};

use crate::code::{DONE, ROOM};

/// Puts items at the beginning of a room.
pub(crate) fn fill<T: Copy>(items: &[T], room: &mut [T])
    requires { length items.now ≤ length room.old }
    ensures { room.new ≡ items.now ++ drop (length items.now) room.old }
{
    let (front, _) = room.split_at_mut(items.len());
    front.copy_from_slice(items);
}

/// Puts items into a room, from `at` on.
#[inline(always)]
pub(crate) fn put_at<T: Copy>(items: &[T], room: &mut [T], at: usize)
    requires { at + length items.now ≤ length room.old }
    ensures { room.new ≡ put_chunk at room.old items.now }
{
    let (_, rest) = room.split_at_mut(at);
    fill(items, rest);
}

/// Puts items at the beginning of `room`, if that is large enough. `len` is how many they are.
pub(crate) fn put<T: Copy>(items: &[T], room: &mut [T], len: &mut u64) -> u32
    ensures { IsWritten result room.old room.new len.old len.new (Ok items.now) }
{
    *len = items.len() as u64;
    if room.len() < items.len() {
        return ROOM;
    }
    fill(items, room);
    DONE
}
