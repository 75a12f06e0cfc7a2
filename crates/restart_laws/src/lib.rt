//! What a schedule brings is bytes, so that what a shard starts again from is what it had recorded.
#![tactic(auto)]

pub mod laws;
