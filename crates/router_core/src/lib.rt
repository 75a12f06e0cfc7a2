//! A router: it takes clients' requests apart, sends their parts to shards, and puts the answers
//! together. What stands below it tells what a message asks (router_plan) and what becomes of a
//! transaction (router_txn); here is the step over all sessions.
#![tactic(auto)]

mod commits;
mod ends;
pub mod laws;
mod moves;
mod news;
mod requests;
mod router;
mod routing;
mod serving;
mod statements;

pub use router::Router;
pub use routing::Routing;
