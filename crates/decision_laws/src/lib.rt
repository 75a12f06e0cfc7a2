//! What is told of a transaction's end agrees with the list of commits, on one shard.
#![tactic(auto)]

pub mod laws;
