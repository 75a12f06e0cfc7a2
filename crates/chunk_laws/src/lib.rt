//! What a map of chunks is for: a statement goes to every shard at which a document that it is for
//! may stand.
#![tactic(auto)]

pub mod laws;
