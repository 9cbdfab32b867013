//! How many grandparents lie below an internal key.

ghost use Rattle.std.specs.Prelude.{◌≡◌, ◌≤◌};
ghost use Rattle.keep.specs.Marks.{grandparents_below, LargestRise};

use ikey::{Comparator, InternalKey};
use reads::FileMeta;

/// The number of grandparents that lie wholly below `key`. The first `known` are known to.
pub(crate) fn count_below<C: Comparator>(
    grandparents: &[FileMeta],
    known: usize,
    key: &InternalKey<'_>,
) -> usize
    requires known { known ≤ grandparents_below C.cmp grandparents.now key.now.bytes.now }
    requires rising { LargestRise C.cmp grandparents.now }
    ensures { result ≡ grandparents_below C.cmp grandparents.now key.now.bytes.now }
{
    let mut passed = known;
    while passed < grandparents.len()
        && grandparents[passed]
            .largest
            .as_key()
            .compare::<C>(key)
            .is_lt()
    {
        passed += 1;
    }
    passed
}
