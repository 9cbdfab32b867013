//! What may be wrong with a file of a version.

use table::FaultName;

/// What is wrong with a file of a version.
#[derive(Clone, Copy, Debug, PartialEq, Eq)]
pub enum FileFault {
    /// Its number isn't below the version's next file, which is this; 0 if it was never set.
    NotBelow(u64),
    /// Its table is missing, or invalid: the name of the first test that it fails.
    Refused(FaultName),
    /// Its table hasn't the length that the version states.
    Length {
        /// The bytes that it has.
        held: u64,
        /// The bytes that are stated.
        stated: u64,
    },
    /// The table's smallest key isn't the one that the version states.
    Smallest,
    /// The table's largest key isn't the one that the version states.
    Largest,
    /// Its range of internal keys overlaps that of this file, which comes after it at its level.
    Overlaps(u64),
}
