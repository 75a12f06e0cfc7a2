//! Disks at their places.
ghost use Rattle.std.specs.Prelude.{◌≡◌, ◌<◌, ◌≤◌, ◌+◌, ◌++◌, insert, vec_len, vec_capacity};
ghost use Rattle.cluster_play.specs.Starting.{shard_disks, router_disks, behind_shards};

use cluster_conf::ROUTERS_AT;
use node_store::ShardNode;
use outside_core::Disk;
use record_store::DiskLog;
use router_store::RouterNode;

/// Puts a disk at its place in a list that has room for it.
pub fn put_in<D>(disks: &mut Vec<D>, place: usize, disk: D)
    requires room { vec_len disks.old < vec_capacity disks.old }
    requires within { place ≤ vec_len disks.old }
    ensures items { disks.new.items ≡ insert disks.old.items place disk }
    ensures len { vec_len disks.new ≡ vec_len disks.old + 1 }
    ensures capacity { vec_capacity disks.old ≤ vec_capacity disks.new }
{
    match disks.insert(place, disk) {
        Ok(()) => {}
        Err(_) => unreachable!(),
    }
}

/// Puts the disks of shards in front of the others.
pub fn put_shards<D: Disk>(shards: Vec<ShardNode<DiskLog<D>>>, disks: &mut Vec<D>)
    requires { vec_len shards + vec_len disks.old ≤ vec_capacity disks.old }
    ensures items { disks.new.items ≡ shard_disks shards.items ++ disks.old.items }
    ensures len { vec_len disks.new ≡ vec_len shards + vec_len disks.old }
    ensures capacity { vec_capacity disks.old ≤ vec_capacity disks.new }
{
    let mut shards = shards;
    while let Some(node) = shards.pop() {
        put_in(disks, 0, node.into_disk());
    }
    shards.destroy_empty();
}

/// Puts the disks of routers at their places, after those of all shards.
#[tactic(auto, using(crate::proofs::Places::take_insert, crate::proofs::Places::drop_insert))]
pub fn put_routers<D: Disk>(routers: Vec<RouterNode<DiskLog<D>>>, disks: &mut Vec<D>)
    requires room { vec_len routers + vec_len disks.old ≤ vec_capacity disks.old }
    requires shards { 16 ≤ vec_len disks.old }
    ensures items { disks.new.items ≡ behind_shards disks.old.items (router_disks routers.items) }
    ensures len { vec_len disks.new ≡ vec_len routers + vec_len disks.old }
    ensures capacity { vec_capacity disks.old ≤ vec_capacity disks.new }
{
    let mut routers = routers;
    while let Some(node) = routers.pop() {
        put_in(disks, ROUTERS_AT, node.into_disk());
    }
    routers.destroy_empty();
}
