//! What messages know of shards' boots: a transaction has come to the shards whose boots it has.
#![tactic(auto)]

pub mod laws;
