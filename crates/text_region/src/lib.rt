//! A region of bytes that lends the texts that were put into it.
//!
//! A [`Region`] allocates its memory when it is made, or when it is asked for room. Texts are stored one after another,
//! and storing one returns a [`Span`] of 8 bytes, by which the region lends the text again without copying it. So many
//! texts cost their bytes, 8 bytes each, and few allocations.
#![tactic(auto)]

pub mod laws;
mod region;
#[cfg(test)]
mod tests;

pub use region::{Region, Span};
