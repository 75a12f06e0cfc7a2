//! Laws of commands, which a reader can hold against their definitions: what changes nothing of what a message asks, and when
//! something is told to be missing.
#![tactic(auto)]

pub mod fields;
pub mod missing;
