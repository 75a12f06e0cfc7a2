//! Configurations, and what each says, or why it is refused.
use chunk_map::MapErr;
use cluster_conf::{Conf, ConfErr};
use std::alloc::{AllocError, Global};
use txn_types::{Id, Ns};

/// The files of configurations.
pub const FILES: [&str; 10] = [
    "cluster.toml",
    "empty.toml",
    "no_toml.toml",
    "many_shards.toml",
    "short_list.toml",
    "unknown_keys.toml",
    "dotless.toml",
    "gap.toml",
    "overlap.toml",
    "no_shard.toml",
];

/// The shard of a number in the collection `c` of the database `d`.
fn shard_of(alloc: Global, conf: &Conf, number: i64) -> Option<u16> {
    match Ns::of(alloc, "d", "c") {
        Ok(ns) => Some(conf.map().shard_of(&ns, &Id::Num(number))),
        Err(_error) => None,
    }
}

/// What a configuration says, in one line.
fn told(alloc: Global, conf: &Conf) -> Result<String, AllocError> {
    let below = shard_of(alloc, conf, 99).unwrap_or(99);
    let above = shard_of(alloc, conf, 100).unwrap_or(99);
    let shards = conf.shards();
    let routers = conf.routers();
    let listen = conf.listen();
    let shards_at = conf.shard_at().len();
    let routers_at = conf.router_at().len();
    format!(in alloc;
        "shards {shards} routers {routers} listen {listen} at {shards_at} and {routers_at}, 99 on {below}, 100 on {above}"
    )
}

/// Why a configuration is refused, in one line.
fn refused(alloc: Global, error: ConfErr) -> Result<String, AllocError> {
    match error {
        ConfErr::NotToml => String::from_str(alloc, "not toml"),
        ConfErr::Key { name } => {
            let key = name.as_str();
            format!(in alloc; "key {key}")
        }
        ConfErr::Map(MapErr::Gap { row }) => format!(in alloc; "gap at row {row}"),
        ConfErr::Map(MapErr::Overlap { row }) => format!(in alloc; "overlap at row {row}"),
        ConfErr::Map(MapErr::NoShard { row }) => format!(in alloc; "no shard at row {row}"),
        ConfErr::Map(MapErr::Memory) | ConfErr::Memory => String::from_str(alloc, "no memory"),
    }
}

/// What the text says as a configuration, in one line.
pub fn line_of(alloc: Global, text: &str) -> Result<String, AllocError> {
    match Conf::read(alloc, text) {
        Ok(conf) => told(alloc, &conf),
        Err(error) => refused(alloc, error),
    }
}
