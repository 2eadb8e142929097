//! A lake that is made from a seed: the batch of commands that loads its tables and searches them, and the summary of
//! the replies.
#![tactic(auto)]

mod batch;
mod draws;
mod numbered;
mod summary;
mod sums;
mod table;

pub use batch::made_batch;
pub use summary::write_summary;
