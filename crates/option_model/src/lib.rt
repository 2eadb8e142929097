//! The definitions of the command line: its plain words, the mode that they state and the ranges of its options; and
//! the lake that is made from a seed, with the table of statuses of the runs that make it. This crate has no code.
#![tactic(auto)]
