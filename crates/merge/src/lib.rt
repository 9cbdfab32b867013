//! The sorted merge of cursors.
//!
//! A [`Merging`] over any cursors is itself a cursor. Its entries to come are those of all of them
//! in the order of their internal keys. Entries of one internal key come in the order of the
//! cursors.
//!
//! 1. [`Merging::new`] or [`Merging::take`] makes one of cursors.
//! 2. It is walked as any cursor: `valid`, `key`, `value`, `advance`, `seek`. `place` tells which
//!    cursor is next.
//! 3. [`Merging::into_cursors`] gives the cursors back.
//!
//! [`cursors_from`] and [`add_cursor`] make cursors over the tables that reach into a range of user
//! keys, [`cursor_from`] over one table, and [`seek_range`] seeks any other cursor.
//!
//! [`least_place`] finds the next cursor in one pass over all. [`merge_law`] and [`union_law`] are
//! laws of merges, [`holds_law`] of ranges.
//!
//! No contract says what a step costs: it plays one path of a tournament, one match a round. Nor
//! that a cursor is made only over a table that reaches into the range.
#![tactic(auto)]

mod least;
mod merging_cursor;
mod range_cursors;
mod range_start;
mod tournament;
mod union_laws;

pub use least::least_place;
pub use merging_cursor::Merging;
pub use range_cursors::{add_cursor, cursor_from, cursors_from};
pub use range_start::{seek_range, starts_before};
pub use union_laws::{holds_law, merge_law, union_law};
