//! What a run has answered at its routers, told by the messages of its shards.
#![tactic(auto)]

pub mod laws;
