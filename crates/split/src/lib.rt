//! Ranges of user keys, cut at boundaries.
//!
//!         boundary 0     boundary 1              boundary k - 1
//!     ------|--------------|-------- ... ----------|-----------
//!     range 0    range 1      range 2                range k
//!
//! A [`Split`] has boundaries: user keys that rise strictly by a comparator. k of them make k + 1
//! ranges. Range i holds the user keys at or after boundary i - 1 and before boundary i. So each
//! user key lies in exactly one range.
//!
//! - [`Split::from_keys`] takes boundaries; [`Split::choose`] takes them from the indexes of
//!   tables, and [`Split::sample`] from a sample of these.
//! - [`Split::len`] and [`Split::range`] answer the ranges, [`is_before`] tests a key by a bound.
//! - [`one_choice`] is the law that `choose` has one answer, and so has `sample`.
//!
//! No contract says that the ranges of a choice have about as many bytes each.
#![tactic(auto)]

mod bound;
mod choice_law;
mod range;
mod split;
mod split_choice;

pub use crate::split::{MAX_BOUNDARIES, MAX_RANGES, RANGE_SAMPLES, SAMPLE_STEP, Split};
pub use bound::is_before;
pub use choice_law::one_choice;
pub use range::Range;
