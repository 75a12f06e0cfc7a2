//! Laws of a cluster of one shard: what its routers are answered, over any run, is right.
#![tactic(auto)]

pub mod laws;
