//! Merges of adjacent parts: their plan over a pinned version, and the segment that results from a plan.
#![tactic(auto)]

mod merging;
mod planning;

pub use lake_model::Policy;
pub use merging::merge;
pub use planning::plan;
pub use segment_core::{Merged, Plan};
