//! Tests of the crates that read tables and queries.
//!
//! Each file is named by the crate whose public calls it tests. A crate that contains only tests costs the proof of its
//! tests alone; a crate with tests of its own is proved twice.
#![tactic(auto)]

#[cfg(test)]
mod column_set_tests;
#[cfg(test)]
mod csv_table_tests;
#[cfg(test)]
mod value_key_tests;
