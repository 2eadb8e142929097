//! The sets of keys of a table's columns and of a query, the number of keys that two of them share, and the rows of an
//! answer, which borrow the titles of a table or own a share of them. The keys of a table are stored in one region of
//! bytes, those of a query in another. A query's key is found by its hash, or, if many keys share a hash, by a binary
//! search in the order of another hash.
#![tactic(auto)]

mod hash;
mod index;
mod keys;
mod lists;
mod name;
mod query;
mod row;
mod slots;
mod sorted;
mod table;
mod texts;
mod titles;

pub use hash::sip_hash;
pub use keys::{distinct_law, overlap_law};
pub use lake_model::{Keys, QueryRefused, SetRefused};
pub use name::Name;
pub use query::QuerySet;
pub use row::{KeptRow, KeptRows, Row, Rows};
pub use table::{SharedTable, TableSets};
pub use titles::Titles;
