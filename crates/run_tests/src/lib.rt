//! Tests of the top call, from the words of a command line to the bytes that a run writes.
//!
//! Each file is named by the crate whose public calls it tests. A crate that contains only tests costs the proof of its
//! tests alone; a crate with tests of its own is proved twice.
#![tactic(auto)]

#[cfg(test)]
mod josie_top_tests;
