//! The tests of `edit`, `pick` and `reads`: edits and the versions after them, the inputs of a
//! compaction, and what a version answers.
#![tactic(auto)]

#[cfg(test)]
mod edit_tests;
#[cfg(test)]
mod pick_tests;
#[cfg(test)]
mod reads_tests;
