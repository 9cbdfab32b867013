//! A key and a bound of a range.

ghost use Rattle.std.specs.Prelude.{◌≡◌};
ghost use Rattle.std.specs.Option.{option_map};
ghost use Rattle.table.specs.Key.{user_of};
ghost use Rattle.split.specs.Bounds.{is_user_before};

use table::{Comparator, InternalKey};

/// Whether the user key of `key` is before `bound`; `otherwise` if there is no bound.
#[inline(always)]
pub fn is_before<C: Comparator>(key: InternalKey<'_>, bound: Option<&[u8]>, otherwise: bool) -> bool
    ensures { result ≡ is_user_before C.cmp (option_map (λ limit. limit.now) bound.entry) otherwise
        (user_of key.entry.bytes.now) }
{
    match bound {
        Some(limit) => C::compare(key.user(), limit).is_lt(),
        None => otherwise,
    }
}
