//! The tests of a compaction, from who draws which job and what a worker keeps to the whole and to
//! a folder. They are of `board`, `split`, `merge`, `keep`, `cut`,
//! `compact`, `checks`, `scan`, `faults`, `store` and `adoption`.
#![tactic(auto)]

#[cfg(test)]
mod adoption_tests;
#[cfg(test)]
mod board_tests;
#[cfg(test)]
mod checks_tests;
#[cfg(test)]
mod compact_tests;
#[cfg(test)]
mod cut_tests;
#[cfg(test)]
mod fault_tests;
#[cfg(test)]
mod keep_tests;
#[cfg(test)]
mod merge_tests;
#[cfg(test)]
mod range_checks_tests;
#[cfg(test)]
mod request_tests;
#[cfg(test)]
mod scan_tests;
#[cfg(test)]
mod seat_tests;
#[cfg(test)]
mod split_tests;
#[cfg(test)]
mod stats_tests;
#[cfg(test)]
mod store_tests;
#[cfg(test)]
mod tested_tables;
