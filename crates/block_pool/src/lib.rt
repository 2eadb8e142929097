//! A pool of equal blocks for many growing lists. A list takes blocks from the pool one at a time, and gives them all
//! back at once. So memory is asked for in one place, before the lists grow.
#![tactic(auto)]

mod chain;
mod items;
mod pool;

pub use chain::Chain;
pub use items::Items;
pub use pool::{Item, Pool};

#[cfg(test)]
mod tests;
