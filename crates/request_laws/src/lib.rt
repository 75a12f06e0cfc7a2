//! Laws of requests: what they bring fits the fields of the records that are made of it.
#![tactic(auto)]

pub mod laws;
