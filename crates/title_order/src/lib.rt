//! The columns of a list of tables in the order of their names, so that comparing two columns means comparing two
//! numbers.
#![tactic(auto)]

mod order;
mod title;

pub use order::{TitleOrder, order_columns};
