//! Ranges of user keys, whose bounds lie in lent bytes.

ghost use Rattle.std.specs.Prelude.{◌≡◌, true};
ghost use Rattle.std.specs.Option.{option_map};
ghost use Rattle.reads.specs.Ranges.{key_range};
ghost use Rattle.c_api.specs.Ranges.{bound_at, is_bound as lies_lent, is_range as is_lent};
ghost use Rattle.c_api.specs.Ranges.{range_in};

use crate::place::{Place, is_within, part_of};
use keep::Range;

/// A range of user keys: those at or after `lower` and before `upper`.
#[repr(C)]
#[derive(Clone, Copy, Drop)]
pub struct UserRange {
    /// Not 0 if there is a lower bound.
    pub has_lower: u32,
    /// Not 0 if there is an upper bound.
    pub has_upper: u32,
    /// The first user key of the range, in the keys that are lent.
    pub lower: Place,
    /// The first user key after the range, in the keys that are lent.
    pub upper: Place,
}

/// Whether a bound lies in what is lent, if there is one.
fn is_bound(keys: &[u8], has: u32, place: Place) -> bool
    ensures { result ≡ lies_lent keys.now has place }
{
    has == 0 || is_within(keys, place)
}

/// Whether the bounds of a range lie in what is lent.
pub(crate) fn is_range(keys: &[u8], range: &UserRange) -> bool
    ensures { result ≡ is_lent keys.now range.now }
{
    is_bound(keys, range.has_lower, range.lower) && is_bound(keys, range.has_upper, range.upper)
}

/// The bound at a place, if there is one.
fn bound_of(keys: &[u8], has: u32, place: Place) -> Option<&[u8]>
    requires { lies_lent keys.now has place ≡ true }
    ensures { option_map (λ key. key.now) result ≡ bound_at keys.now has place }
{
    if has == 0 {
        None
    } else {
        Some(part_of(keys, place))
    }
}

/// The range, as the merge has it.
pub(crate) fn range_of<'a>(keys: &'a [u8], range: &UserRange) -> Range<'a>
    requires { is_lent keys.now range.now ≡ true }
    ensures { key_range result ≡ range_in keys.now range.now }
{
    Range {
        lower: bound_of(keys, range.has_lower, range.lower),
        upper: bound_of(keys, range.has_upper, range.upper),
    }
}
