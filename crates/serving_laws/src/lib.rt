//! Laws of a shard's whole step: what its statements are answered is what they mean over its
//! commits, when they are answered and ever after.
#![tactic(auto)]

pub mod laws;
