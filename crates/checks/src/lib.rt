//! Tables of a folder, checked by workers.
//!
//! 1. [`check_tables`] checks them, a table a job.
//! 2. [`lawful_tables`] does that, and then tests whether a version is lawful with them, a range of
//!    user keys a job.
//! 3. [`test_version`] makes the same test with the tables that a folder holds, in bounded memory;
//!    [`test_by_order`] in an order that is known at run time alone.
//!
//! For work on a version in bounded memory, [`group_split`] splits the user keys into ranges whose
//! tables fit into memory together, and [`needed_files`] tells which files a range needs.
//! [`HeldTables`] are their tables, held from range to range: [`hold_next`] makes them those of the
//! next range, and [`lent_tables`] hands them to a walk. [`test_and_hold`] hands on those that the
//! test still holds, and [`checked_tables`] reads what is wanted beside them. [`common_range`] is
//! what two ranges have in common. [`bounds_tell`] is the law why some tables need no walk.
//!
//! The answer doesn't depend on the workers, nor on the order in which they do their jobs.
//! [`checkers`] are those of a command, [`checkers_of`] those of one with `--workers`.
#![tactic(auto)]

mod checked_so_far;
mod command_workers;
mod entry_counts;
mod file_groups;
mod first_refusal;
mod found_tables;
mod held_table;
mod held_tables;
mod range_files;
mod range_intersection;
mod range_test;
mod range_walk;
mod rounds;
mod sampled_ranges;
mod sequence_order;
mod table_bounds;
mod table_check;
mod table_places;
mod tested_version;
mod version_check;
mod version_test;
mod version_totals;
mod wanted_tables;
mod worker_tables;

pub use board::{Open, Workers};
pub use command_workers::{checkers, checkers_of};
pub use file_groups::group_split;
pub use held_tables::{HeldTables, hold_next};
pub use ikey::{Fault, FaultName, SharedComparator};
pub use range_files::{needed_files, numbers_of};
pub use range_intersection::common_range;
pub use range_walk::lent_tables;
pub use rounds::check_tables;
pub use split::{Range, Split};
pub use table_bounds::bounds_tell;
pub use tested_version::TestedVersion;
pub use version_check::lawful_tables;
pub use version_test::{test_and_hold, test_by_order, test_version};
pub use version_totals::VersionTotals;
pub use wanted_tables::checked_tables;
