//! A router's node: its core and its journal, which has the records of its boots alone.
#![tactic(auto)]

mod booting;
mod router_node;

pub use router_node::RouterNode;
