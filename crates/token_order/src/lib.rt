//! The vocabulary of a list of tables: its distinct keys, numbered as tokens by increasing frequency, and then by their
//! bytes.
#![tactic(auto)]

mod columns;
mod fronts;
mod groups;
mod keyed;
mod numbers;
mod order;
mod places;
mod runs;
mod vocab;

pub use places::member_count;
pub use search_model::TokenAt;
pub use vocab::{TokenLists, Vocab};
