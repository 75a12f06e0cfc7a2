//! What stood where a shard made a cause.
#![tactic(auto)]

pub mod laws;
