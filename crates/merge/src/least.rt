//! The cursor that is next in a merge, by one pass.

ghost use Rattle.std.specs.Prelude.{◌+◌, ◌<◌, map, take, length};
ghost use Rattle.merge.specs.LeastList.{IsMerging};

use table::{Comparator, Cursor};

/// The place of the cursor whose first entry comes next; None if no cursor has an entry.
///
/// It answers the same as a tournament, slowly, to compare that with.
pub fn least_place<'c, C: Comparator, S: Cursor<'c, C>>(cursors: &[S]) -> Option<usize>
    ensures { IsMerging C.cmp (map S.remaining cursors.now) result }
{
    let mut least = None;
    for place in 0..cursors.len() {
        least = lesser::<C, S>(cursors, least, place);
    }
    least
}

/// The place of the next cursor among those up to `place`, if `least` is that of those before it.
fn lesser<'c, C: Comparator, S: Cursor<'c, C>>(
    cursors: &[S],
    least: Option<usize>,
    place: usize,
) -> Option<usize>
    requires within { place < length cursors.now }
    requires merging { IsMerging C.cmp (take place (map S.remaining cursors.now)) least }
    ensures { IsMerging C.cmp (take (place + 1) (map S.remaining cursors.now)) result }
{
    let cursor = &cursors[place];
    if !cursor.valid() {
        return least;
    }
    let Some(other) = least else {
        return Some(place);
    };
    let (key, other_key) = (cursor.key(), cursors[other].key());
    if key.compare::<C>(&other_key).is_lt() {
        Some(place)
    } else {
        least
    }
}
