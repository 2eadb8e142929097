//! Sorts of values that are compared by a number first, and by more only where the numbers are equal.
#![tactic(auto)]

mod sorts;

pub use sorts::{FrontOrder, sort_by_fronts};

#[cfg(test)]
mod tests;
