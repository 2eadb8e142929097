//! What a search keeps of the columns of a part: a tally of each column that it has seen, the bound that follows from
//! the tally, the probe of a column, and the room that all this takes.
#![tactic(auto)]

mod answer;
mod bounds;
mod columns;
mod probing;
mod room;
mod row;
mod seeking;
mod tally;

pub use answer::Answer;
pub use bounds::{most_of, position_of};
pub use columns::Columns;
pub use probing::probe;
pub use room::{most_columns, most_probes};
pub use row::row_of_column;
pub use seeking::{Sought, seek};
pub use tally::Tally;
