//! What shards tell of transactions that were lost as they were started again.
#![tactic(auto)]

pub mod laws;
