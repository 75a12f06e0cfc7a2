//! Two-phase commit, at the shard that coordinates it: who takes part, how they voted, what was
//! decided, and who has the decision.
#![tactic(auto)]

mod askers;
mod coord;
mod coordination;
pub mod laws;
mod plan;
mod sending;
mod tree;

pub use coord::Coord;
pub use plan::{CoordErr, Plan};
pub use sending::{decides, prepares};
