//! Why transactions were aborted by a client's or a router's wish.
#![tactic(auto)]

pub mod laws;
