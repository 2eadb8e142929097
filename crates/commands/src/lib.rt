//! What a script asks for, and how it is to be run: commands and their batches, and the options of a run.
#![tactic(auto)]

mod body;
mod command;
mod options;

pub use body::Body;
pub use command::{Batch, Command, FileBody, Task};
pub use options::{Options, Order, Piece};
