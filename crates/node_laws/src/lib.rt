//! Laws of the messages between nodes: what is written is read as itself, and no two have the same
//! bytes. `specs/Fits` says of which messages they speak.
#![tactic(auto)]

pub mod laws;
