//! A range of user keys.

/// The user keys at or after `lower` and before `upper`. A missing bound excludes nothing.
#[derive(Clone, Copy)]
pub struct Range<'a> {
    /// The first user key that may be in the range.
    pub lower: Option<&'a [u8]>,
    /// The first user key after the range.
    pub upper: Option<&'a [u8]>,
}
