//! Replies, and the record of a run.
#![tactic(auto)]

mod record;
mod reply;

pub use record::{Answered, By, RunRecord};
pub use reply::Reply;
