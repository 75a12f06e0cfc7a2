//! What a schedule tells its clients is right.
#![tactic(auto)]

pub mod laws;
