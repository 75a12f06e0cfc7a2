//! All nodes of a cluster, the messages that they ever sent, and what happened to them. A message
//! may be delivered late, again, out of order or never; a node may be replaced by one that starts
//! anew.
#![tactic(auto)]

mod error;
mod event;
mod listing;
mod places;
mod sending;
mod taking;
mod world;

pub use error::{SwapErr, WorldErr};
pub use event::{WorldAnswer, WorldEvent};
pub use listing::before_of;
pub use world::World;
