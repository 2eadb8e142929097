//! A lock that counts the history of the value that it holds.
//!
//! The model of the value is a list of entries, each belonging to one caller. A caller has a [`Pass`], which knows a
//! beginning of that list. It takes a [`Turn`] with the value, adds one entry or none, and gives the turn back.
#![tactic(auto)]

mod kept;
pub mod laws;
mod lock;
mod pass;
mod plays;
mod roll;
mod seats;
#[cfg(test)]
mod tests;
mod turn;
mod view;

pub use kept::Kept;
pub use lock::HistoryLock;
pub use pass::{Note, Pass};
pub use turn::Turn;
