//! What a run's routers have opened and told of transactions, place by place.
#![tactic(auto)]

pub mod laws;
