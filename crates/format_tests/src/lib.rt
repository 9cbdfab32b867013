//! The tests of what is read and written as bytes: `coding`, `ikey`, `block`, `table` and
//! `logrec`.
#![tactic(auto)]

#[cfg(test)]
mod block_tests;
#[cfg(test)]
mod coding_tests;
#[cfg(test)]
mod frame_tests;
#[cfg(test)]
mod ikey_tests;
#[cfg(test)]
mod logrec_tests;
#[cfg(test)]
mod table_tests;
