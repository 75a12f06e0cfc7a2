//! Each message that a cluster's nodes send goes to a node that is there.
#![tactic(auto)]

pub mod laws;
