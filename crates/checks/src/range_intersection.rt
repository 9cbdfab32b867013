//! What two ranges of user keys have in common.

ghost use Rattle.std.specs.Prelude.{◌≡◌};
ghost use Rattle.std.specs.Option.{option_map};
ghost use Rattle.std.specs.Ordering.{is_lt};
ghost use Rattle.split.specs.Ranges.{key_range};
ghost use Rattle.checks.specs.RangeOrder.{common_of, earlier_bound, later_bound};

use ikey::Comparator;
use split::Range;

/// The range of the user keys that both ranges hold.
pub fn common_range<'k, C: Comparator>(one: Range<'k>, two: Range<'k>) -> Range<'k>
    ensures { key_range result ≡ common_of C.cmp (key_range one.entry) (key_range two.entry) }
{
    Range {
        lower: later::<C>(one.lower, two.lower),
        upper: earlier::<C>(one.upper, two.upper),
    }
}

/// The later of two lower bounds.
fn later<'k, C: Comparator>(one: Option<&'k [u8]>, two: Option<&'k [u8]>) -> Option<&'k [u8]>
    ensures { option_map (λ k. k.now) result
        ≡ later_bound C.cmp (option_map (λ k. k.now) one.entry)
        (option_map (λ k. k.now) two.entry) }
{
    let (Some(first), Some(second)) = (one, two) else {
        return one.or(two);
    };
    Some(if is_below::<C>(first, second) {
        second
    } else {
        first
    })
}

/// The earlier of two upper bounds.
fn earlier<'k, C: Comparator>(one: Option<&'k [u8]>, two: Option<&'k [u8]>) -> Option<&'k [u8]>
    ensures { option_map (λ k. k.now) result
        ≡ earlier_bound C.cmp (option_map (λ k. k.now) one.entry)
        (option_map (λ k. k.now) two.entry) }
{
    let (Some(first), Some(second)) = (one, two) else {
        return one.or(two);
    };
    Some(if is_below::<C>(first, second) {
        first
    } else {
        second
    })
}

/// Whether one user key is below another.
fn is_below<C: Comparator>(first: &[u8], second: &[u8]) -> bool
    ensures { result ≡ is_lt (C.cmp first.now second.now) }
{
    C::compare(first, second).is_lt()
}
