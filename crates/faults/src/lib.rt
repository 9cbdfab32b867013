//! All that is wrong with a version, beyond the first fault that a test refuses.
//!
//! 1. A [`FaultTaker`] is told what is wrong: a [`FileFault`] of a file, or a user key whose
//!    entries are not in their order.
//! 2. [`all_faults`] reads the tables of a version and tells all of it, and how much that is.
//!
//! [`no_fault_law`] is the law that nothing is told exactly if a test accepts the version,
//! [`misplaced_law`] that each misplaced user key is told, and no other.
//!
//! No contract says how often a table is read, or how much memory that takes.
#![tactic(auto)]

mod entry_order;
mod fault_count;
mod fault_laws;
mod file_cursor;
mod file_fault;
mod file_faults;
mod key_walk;
mod range_faults;
mod search_order;
mod table_test;
mod version_faults;

pub use fault_count::FaultTaker;
pub use fault_laws::{misplaced_law, no_fault_law};
pub use file_fault::FileFault;
pub use version_faults::all_faults;
