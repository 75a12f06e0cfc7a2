//! Nodes: a shard's core and its journal, whose records hold each step before anything of it is
//! given out.
#![tactic(auto)]

mod appending;
mod booting;
mod shard_node;

pub use shard_node::ShardNode;
