//! Answers commands at a lake that many threads change at once, each thread at a desk of its own, and answers the
//! batches of a run over all desks.
#![tactic(auto)]

mod asking;
mod batch;
mod changing;
mod desk;
mod gathering;
mod merging;
mod opening;

pub use batch::answer_batch;
pub use desk::LakeDesk;
pub use opening::{Standard, Wide, open_desks};
