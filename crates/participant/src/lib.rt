//! A shard's part in transactions: statements, commit, prepare, decision, abort, recovery and
//! expiry.
#![tactic(auto)]

mod clock;
mod committing;
mod deciding;
mod ending;
mod expiring;
mod key;
pub mod laws;
mod lives;
mod looking;
mod merging;
mod part;
mod preparing;
mod putting;
mod said;
mod stating;
mod touching;

pub use part::Participant;
pub use said::{Done, Open, PartErr, Said, Voted};
