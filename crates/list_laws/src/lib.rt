//! The laws of lists: what holds of each element, lists of distinct elements, strictly increasing numbers, and the
//! results of searches. There is no code here.
#![tactic(auto)]
