//! The law of a lake that is spread over shards: merging the shards' answers gives the answer of one lake over all
//! tables. There is no code here: the law is the contract of a function that does nothing.
#![tactic(auto)]

mod laws;

pub use laws::shards_law;
