//! Each cause that a reply tells has its making.
#![tactic(auto)]

pub mod laws;
