//! The tests of `compact`: rows of the whole, over ranges and workers.

mod edits;
mod gates;
mod refused_rows;
pub(crate) mod rows;
pub(crate) mod tables;
pub(crate) mod tests;
