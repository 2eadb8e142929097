//! The laws of layouts: what holds of the parts of a legal journal, and what a merge may do to them. There is no code
//! here: each law is the contract of a function that does nothing.
#![tactic(auto)]

mod laws;

pub use laws::{layout_law, plans_law, swaps_law, weight_law};
