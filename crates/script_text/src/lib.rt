//! The bytes of a script, and the batches of commands that it asks for.
#![tactic(auto)]

mod block;
mod fetch;
mod front;
mod gather;
mod input;
mod line;
mod reader;
mod refused;
mod rules;
mod runs;
mod spaces;

pub use command_line::{Mode, WordsRefused, read_words};
pub use commands::{Batch, Body, Command, FileBody, Options, Order, Piece, Task};
pub use fetch::fetch_file;
pub use gather::Gather;
pub use refused::ScriptEnd;
pub use script_model::{Reason, ScriptLimits};
