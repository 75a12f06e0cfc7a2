//! A schedule being played: what its lines ask, what comes next, and what is written of what nodes
//! answer.
#![tactic(auto)]

mod player;
mod took;
mod want;

pub use player::{CommitList, Player};
pub use want::{Given, Want};
