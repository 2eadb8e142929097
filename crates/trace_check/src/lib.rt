//! Checks a finished run: whether the bytes of a trace are the text of some right record of the batches of a script.
#![tactic(auto)]

mod checker;
mod judging;
mod works;

pub use checker::Checker;
