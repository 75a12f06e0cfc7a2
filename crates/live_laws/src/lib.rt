//! What a running shard has of live transactions is what it answered in this boot.
#![tactic(auto)]

pub mod laws;
