//! The search for the columns of a lake's live tables that share most keys with a query. It reads posting lists and
//! probes sets as a chooser says, and leaves a part once none of its columns can come before the k-th known row.
#![tactic(auto)]

mod asked;
mod candidates;
mod cost;
mod first;
mod hold;
mod next;
mod offer;
mod part;
mod query;
mod room;
mod row;
mod search;
mod sure;
mod top;

pub use part_columns::Answer;
pub use room::SearchRoom;
pub use search::{Prepared, prepare};
