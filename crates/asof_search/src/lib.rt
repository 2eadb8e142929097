//! A lake as of an earlier position of its journal. The entries are taken one after another, and each earlier position
//! can be pinned with the tables that were live there, so that it is searched as any other version is.
#![tactic(auto)]

mod blocks;
mod put;
mod puts;
mod refusal;
mod timeline;

pub use refusal::PastRefused;
pub use timeline::{Timeline, past_law};
