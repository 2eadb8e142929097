//! The work of a batch, whoever does it: its commands and the merges of the merger, and what was done.
#![tactic(auto)]

mod done;
mod work;

pub use done::{Done, next_answer};
pub use work::{Work, works_of};
