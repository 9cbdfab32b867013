//! How a compaction of all levels ends.

/// How a compaction of all levels ends that isn't refused.
#[derive(Clone, Copy, PartialEq, Eq)]
pub enum DescentEnd {
    /// No file is above the bottom.
    AtBottom,
    /// It was told to stop.
    Stopped,
}
