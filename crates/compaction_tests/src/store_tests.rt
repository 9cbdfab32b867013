//! The tests of `store`.

mod outcomes;
mod read_counts;
pub(crate) mod rows;
pub(crate) mod tests;
