//! Tests of the crates that search, and of those that watch queries.
//!
//! Each file is named by the crate whose public calls it tests. A crate that contains only tests costs the proof of its
//! tests alone; a crate with tests of its own is proved twice.
#![tactic(auto)]

#[cfg(test)]
mod answers;
#[cfg(test)]
mod asof_search_tests;
#[cfg(test)]
mod column_watch_tests;
#[cfg(test)]
mod contain_search_tests;
#[cfg(test)]
mod josie_search_tests;
#[cfg(test)]
mod making;
#[cfg(test)]
mod topk_heap_tests;
