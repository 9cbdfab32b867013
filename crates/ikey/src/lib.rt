//! Internal keys, their order, and the comparators of user keys.
//!
//!     user key       at most 65,535 bytes
//!     tag            fixed64, little-endian: sequence * 256 + type
//!
//!     61 01 01 00 00 00 00 00 00     `a` at sequence 1, put
//!
//! Type 0 is a deletion, type 1 a value, and a sequence is below 2^56. Internal keys are ordered by
//! user key rising, then sequence falling, then type falling.
//!
//! - [`Bytewise`], [`Shortlex`]: the two comparators; [`Comparator`] is what each one promises.
//! - [`InternalKey::parse`] reads a key in place; [`KeyBuf`] owns one.
//! - [`internal_separator`], [`internal_successor`]: short keys for the index of a table.
//! - [`order_is_total`]: the law that the order is total.
//!
//! No contract says that a separator or successor is the shortest key that would serve.
#![tactic(auto)]

mod bytewise;
mod comparator;
mod key;
mod key_buf;
mod kind;
mod short_keys;
mod shortlex;

pub use bytewise::Bytewise;
pub use coding::{Fault, FaultName};
pub use comparator::{Comparator, SharedComparator};
pub use key::{InternalKey, MAX_SEQUENCE, MAX_USER_KEY, TAG_LEN, order_is_total};
pub use key_buf::KeyBuf;
pub use kind::Kind;
pub use short_keys::{internal_separator, internal_successor};
pub use shortlex::Shortlex;
