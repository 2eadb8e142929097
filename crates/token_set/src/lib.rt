//! Sets of tokens, as one bit for each token of a part.
#![tactic(auto)]

mod tokens;

pub use tokens::{TokenSet, greatest_of};

#[cfg(test)]
mod tests;
