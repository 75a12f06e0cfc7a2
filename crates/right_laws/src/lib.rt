//! What a cluster of one shard tells its clients is right.
#![tactic(auto)]

pub mod laws;
