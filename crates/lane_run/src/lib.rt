//! Runs the lanes of a batch, all at the same time, each at a desk of its own.
#![tactic(auto)]

mod desk;
mod fork;
mod running;
mod seat;

pub use desk::Desk;
pub use running::run_batch;
