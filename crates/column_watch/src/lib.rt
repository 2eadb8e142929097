//! Watched queries: their answers are kept up to date while the entries of a journal are taken one after another, so
//! that each entry costs its own table and the rows of the queries, and no search.
#![tactic(auto)]

mod held;
mod holders;
mod overlaps;
mod watched;
mod watches;

pub use watches::Watches;
