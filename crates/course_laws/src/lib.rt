//! A schedule has one course where nothing outside fails, and so one status.
#![tactic(auto)]

pub mod laws;
