//! The text of where the first rows of watched queries change: for each entry of a journal, and each query whose first
//! rows differ from those before the entry, a line with the entry's position and the number of the query, followed by
//! its rows.
#![tactic(auto)]

mod told;

pub use told::{push_end, tell_entries};
