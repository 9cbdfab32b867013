//! The laws of choices that stand apart: sets of files of a level and the next one that share no
//! user key with a file that stays. They can be compacted at the same time, and installed one after
//! the other, in any order.
//!
//! Premise of each but [`apart_share_none`]: of each file of both levels, the smallest user key is
//! at or before the largest, as in a lawful version.

ghost use Rattle.pick.specs.ApartChoice.{ApartIsClosed, ApartShareNone, StaysApart};
ghost use Rattle.pick.specs.Parts.{PartsShareNone};

use edit::Comparator;

/// The law that a choice that stands apart is closed. A call does nothing.
pub fn apart_is_closed<C: Comparator>()
    ensures { ApartIsClosed C.cmp }
{}

/// The law that a choice that stands apart still does after the files of another one, with which it
/// shares none, were replaced by files within their range. A call does nothing.
pub fn stays_apart<C: Comparator>()
    ensures { StaysApart C.cmp }
{}

/// The law that two choices that stand apart and share no file share no user key. A call does
/// nothing.
pub fn apart_share_none<C: Comparator>()
    ensures { ApartShareNone C.cmp }
{}

/// The law that the parts around two files of a level share no file, if the one file isn't in the
/// other's part. A call does nothing.
pub fn parts_share_none<C: Comparator>()
    ensures { PartsShareNone C.cmp }
{}
