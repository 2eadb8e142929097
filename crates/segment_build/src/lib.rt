//! The inverted index of a list of tables, built from the tables by one sort of their keys and one counting pass: for a
//! segment at once, or when it is first searched.
#![tactic(auto)]

mod columns;
mod hashing;
mod index;
mod lists;
mod segment;

pub use segment::{build, index_pin};
pub use segment_core::Segment;
