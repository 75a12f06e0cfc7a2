//! Tests of a node's lock and of the loop of its connections, with a machine of one flag:
//! node_lock, node_server. They stand in a crate of their own, since a crate with tests is proved
//! twice.
#![tactic(auto)]

mod connections;
mod flag;
mod gate;
mod shares;
#[cfg(test)]
mod tests;

pub use connections::{Outcome, serve_both};
pub use flag::{Ask, Flag, Told};
pub use gate::{GateLink, Porter};
pub use shares::two_calls;
