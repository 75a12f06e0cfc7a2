//! What a run's routers reply to statements, told by what it answered.
#![tactic(auto)]

pub mod laws;
