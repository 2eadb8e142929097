//! The hints that the lines of answers in a trace give of where the answers were made, and the last positions of lanes.
//! With these a trace is checked before any reply is made again.
#![tactic(auto)]

mod hint;
mod lows;

pub use hint::{Hint, hint_of_lines};
pub use lows::one_more;
