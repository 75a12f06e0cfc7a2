//! The configuration of a cluster: how many shards and routers it has, where they listen, and which
//! shard keeps which documents.
#![tactic(auto)]

mod chunks;
mod conf;
mod fields;
mod lists;

pub use conf::{Conf, ConfErr, LISTEN, MOST_CHUNKS, MOST_ROUTERS, MOST_SHARDS, ROUTERS_AT};
pub use lists::{Texts, copy_texts};
