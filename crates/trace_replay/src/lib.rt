//! The replay of a trace: each of its answers is made again at the position that its hint gives, and compared with the
//! lines of the trace.
#![tactic(auto)]

mod lake;
mod replaying;
mod telling;
mod trace;
mod turns;

pub use replaying::{hints_of, replay};
