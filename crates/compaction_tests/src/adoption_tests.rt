//! The tests of `adoption`.

mod rows;
mod tests;
