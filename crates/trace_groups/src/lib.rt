//! Cuts a trace into the lines of its answers and those of its journal, each group with its hint.
#![tactic(auto)]

mod groups;
mod lines;

pub use groups::{Group, cut_trace};
