//! What commits tell of the statements before them, and that each commit of a run on one shard is
//! whole.
#![tactic(auto)]

pub mod laws;
