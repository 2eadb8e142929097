//! Tests of the crates that read scripts and command lines, and of those that write replies.
//!
//! Each file is named by the crate whose public calls it tests. A crate that contains only tests costs the proof of its
//! tests alone; a crate with tests of its own is proved twice.
#![tactic(auto)]

#[cfg(test)]
mod command_line_tests;
#[cfg(test)]
mod lake_io_adapters_tests;
#[cfg(test)]
mod lake_io_tests;
#[cfg(test)]
mod lake_maker_tests;
#[cfg(test)]
mod reply_text_tests;
#[cfg(test)]
mod script_text_tests;
#[cfg(test)]
mod watch_text_tests;
