//! The search for all columns of a lake's live tables that hold at least a stated fraction of a query's keys. In each
//! part it reads just enough posting lists that a column in none of them holds too few keys, and probes the columns
//! that these lists do not settle.
#![tactic(auto)]

mod column;
mod contain;
mod fraction;
mod part;
mod probing;

pub use contain::{PreparedContain, prepare_contain};
pub use part_columns::Answer;
