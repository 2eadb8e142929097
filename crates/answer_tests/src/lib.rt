//! Tests of the crates that answer commands over a lake, alone or shared.
//!
//! Each file is named by the crate whose public calls it tests. A crate that contains only tests costs the proof of its
//! tests alone; a crate with tests of its own is proved twice.
#![tactic(auto)]

#[cfg(test)]
mod lake_core_meter_tests;
#[cfg(test)]
mod lake_core_tests;
#[cfg(test)]
mod lake_desk_meter_tests;
#[cfg(test)]
mod lake_desk_tests;
#[cfg(test)]
mod lake_tests;
#[cfg(test)]
mod making;
