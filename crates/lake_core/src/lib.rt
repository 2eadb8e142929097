//! Answers commands over a catalogue on one thread, one after another, and adds their answers and entries to the record
//! of the run.
#![tactic(auto)]

mod driving;
mod lane;

pub use driving::drive;
