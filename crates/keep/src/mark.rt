//! A mark: how many grandparents lie below a user key.

/// A mark at the first entry of a user key, kept or dropped.
#[derive(Clone, Copy, PartialEq, Eq)]
pub struct Mark {
    /// The number of grandparents whose largest internal key is below the entry's.
    pub below: usize,
    /// The number of kept entries before the entry in its range.
    pub kept: usize,
}
