//! Laws of runs: what is sent fits the fields of the records that are made of it.
#![tactic(auto)]

pub mod laws;
