//! How the statements of a transaction follow one another at a router: what it tells a shard of the
//! shard's boot and of the time to read at.
#![tactic(auto)]

pub mod laws;
