//! The words of a command line: the mode of the program, with the options of a run, the numbers of a lake to make, or
//! the paths of watched queries; and numbers, as they are written.
#![tactic(auto)]

mod numbers;
mod words;

pub use numbers::{read_any_number, read_number, read_number_or_zero};
pub use words::{Mode, WordsRefused, read_words};
