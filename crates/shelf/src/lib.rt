//! A folder in memory, for tests: the same calls as on a folder of the system, one of which may be
//! told to fail.
#![tactic(auto)]

mod call_record;
mod shelf;
mod shelf_step;

pub use crate::shelf::{Shelf, ShelfMaker};
pub use call_record::Failing;
pub use shelf_step::{ShelfCall, ShelfStep};
