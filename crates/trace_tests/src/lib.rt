//! Tests of the crates that check the trace of a run.
//!
//! Each file is named by the crate whose public calls it tests. A crate that contains only tests costs the proof of its
//! tests alone; a crate with tests of its own is proved twice.
#![tactic(auto)]

#[cfg(test)]
mod making;
#[cfg(test)]
mod trace_check_tests;
#[cfg(test)]
mod trace_groups_tests;
#[cfg(test)]
mod trace_hints_tests;
#[cfg(test)]
mod trace_numbers_tests;
#[cfg(test)]
mod trace_replay_tests;
