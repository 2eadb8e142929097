//! Makes the reply to each command over a catalogue or a pin of it, with the entry that the command adds.
#![tactic(auto)]

mod answering;
mod dropping;
mod loading;
mod merging;
mod past;
mod replacing;
mod searching;

pub use answering::{Held, begin, reply_now, reply_when_held};
pub use dropping::reply_to_drop;
pub use josie_search::SearchRoom;
pub use loading::{Loadable, make_table, make_table_of_file, reply_to_load};
pub use merging::{Planned, plan_pinned};
pub use past::search_past;
pub use replacing::reply_to_replace;
pub use searching::finish;
