//! The text of a record: replies as they are written, what a trace adds to them, and the journal.
#![tactic(auto)]

mod journal;
mod layout;
mod lines;
mod quoted;
mod refusals;
mod text;
mod words;

pub use journal::push_journal;
pub use run_record::{Answered, By, Reply, RunRecord};
pub use text::{push_rows, push_traced_answer, write_replies};
pub use words::{Word, push_bytes, push_line, push_number};
