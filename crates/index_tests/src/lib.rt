//! Tests of the crates of the index, and of the journal.
//!
//! Each file is named by the crate whose public calls it tests. A crate that contains only tests costs the proof of its
//! tests alone; a crate with tests of its own is proved twice.
#![tactic(auto)]

#[cfg(test)]
mod catalogue_tests;
#[cfg(test)]
mod making;
#[cfg(test)]
mod segment_build_tests;
#[cfg(test)]
mod segment_core_tests;
#[cfg(test)]
mod title_order_tests;
#[cfg(test)]
mod token_order_tests;
