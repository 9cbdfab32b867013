//! The orders of user keys, by their numbers.

/// `leveldb.BytewiseComparator`.
pub const BYTEWISE: u32 = 1;

/// `subcompaction.ShortlexComparator`.
pub const SHORTLEX: u32 = 2;
