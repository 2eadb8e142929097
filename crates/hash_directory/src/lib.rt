//! Where a hash is in a sorted list of hashes: a filter that usually shows that it is not there, and a directory that
//! narrows the search to a few neighbours.
#![tactic(auto)]

mod directory;
mod filter;

pub use directory::{HashDirectory, Near};
pub use filter::HashFilter;

#[cfg(test)]
mod tests;
