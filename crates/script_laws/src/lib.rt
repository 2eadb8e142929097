//! The laws of the script grammar: what holds of the commands of every script. This crate has no code: each law is the
//! contract of a function that does nothing.
#![tactic(auto)]

mod laws;

pub use laws::{batches_stay_law, files_law, lanes_law, numbers_law, reads_back_law};
