//! Who watches long work on a folder.

use crate::labour::{Gate, Open};

/// Long work in jobs, in two parts.
#[derive(Clone, Copy, PartialEq, Eq)]
pub enum Work {
    /// Tables are checked, a table a job; then their entries are tested, a range of user keys a
    /// job.
    Check,
    /// Tables are merged, a range of user keys a job; then the outputs are encoded, a table a job.
    Compact,
}

/// A gate that is told to which work the jobs belong that pass it, and which table refuses it.
pub trait Watch: Gate {
    /// The following jobs belong to `work`: `jobs` in its first part, then those of its second,
    /// whose number isn't known yet.
    fn begin(&self, work: Work, jobs: u64);

    /// The table of this number is why the work is refused.
    fn refused(&self, number: u64);
}

impl Watch for Open {
    fn begin(&self, _work: Work, _jobs: u64) {}

    fn refused(&self, _number: u64) {}
}
