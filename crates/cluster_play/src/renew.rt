//! Nodes that start again.
ghost use Rattle.std.specs.Prelude.{◌≡◌, ◌++◌, false, ℕ, List, Option, IsTrue, IfOk, IfErr, OnOk};
ghost use Rattle.txn_types.specs.declared.node.NodeId.TheVariants as node_kinds;
ghost use Rattle.txn_model.specs.declared.ran.Ran.{Ran};
ghost use Rattle.txn_model.specs.declared.ran.Ran.TheVariants.{Swapped};
ghost use Rattle.cluster_world.specs.World.{HasNode};
ghost use Rattle.play_steps.specs.declared.want.Want.TheVariants.{Renew};
ghost use Rattle.play_text.specs.Text.{boot_line};
ghost use Rattle.play_steps.specs.Taking.{where_logs};
ghost use Rattle.cluster_play.specs.Plays.{StartsAgain, BootsAgain, ShardRestarts, RouterRestarts, Happened, boot_at, Does};
ghost use Rattle.cluster_play.specs.Steps.{StopsFor, Leaves};

use crate::step::{DiskWorld, has_node};
use crate::stop::{Cut, Stop};
use chunk_map::ChunkMap;
use cluster_world::SwapErr;
use log_laws::laws::what_is_left_is_found;
use node_store::ShardNode;
use outside_core::Disk;
use play_steps::Player;
use play_text::put_boot;
use record_store::{DiskLog, NodeErr};
use router_core::Routing;
use router_store::RouterNode;
use shard_core::Journalled;
use std::alloc::{AllocError, Global};
use txn_types::NodeId;

/// A shard starts again from its disk.
fn shard_again<D: Disk>(
    alloc: Global,
    shard: u16,
    node: ShardNode<DiskLog<D>>,
) -> Result<ShardNode<DiskLog<D>>, (NodeErr, D)>
    ensures { IfOk result (λ n. StartsAgain ((d : D) → IsTrue (D.tells d)) shard node.node n.node) }
{
    what_is_left_is_found();
    match ShardNode::start(alloc, shard, node.into_disk()) {
        Ok(after) => Ok(after),
        Err(refused) => Err(refused),
    }
}

/// A router starts again from its disk.
fn router_again<D: Disk>(
    alloc: Global,
    router: u16,
    map: ChunkMap,
    node: RouterNode<DiskLog<D>>,
) -> Result<RouterNode<DiskLog<D>>, (NodeErr, D)>
    ensures { IfOk result (λ n.
        BootsAgain ((d : D) → IsTrue (D.tells d)) map router node.router n.router) }
{
    what_is_left_is_found();
    match RouterNode::start(alloc, router, map, node.into_disk()) {
        Ok(after) => Ok(after),
        Err(refused) => Err(refused),
    }
}

/// A shard starts again in its place; it tells its boot.
fn renew_shard<D: Disk>(alloc: Global, world: &mut DiskWorld<D>, shard: u16) -> Result<u32, Stop<D>>
    requires live { world.old.spent ≡ false }
    requires there { HasNode world.old.nodes (node_kinds.Shard shard) }
    ensures restarts { OnOk result
        (ShardRestarts ((d : D) → IsTrue (D.tells d)) world.old.nodes shard world.new.nodes) }
    ensures boot { IfOk result (λ boot. boot ≡ boot_at world.new.nodes (node_kinds.Shard shard)) }
    ensures live { OnOk result (world.new.spent ≡ false) }
    ensures stop { IfErr result (StopsFor (Renew (node_kinds.Shard shard))) }
    ensures nodes { Leaves result world.old.nodes world.new.nodes }
{
    match world.swap_shard(shard, |node| shard_again(alloc, shard, node)) {
        Ok(()) => Ok(world.shards()[usize::from(shard)].shard().boot()),
        Err(SwapErr::Memory) => Err(Stop::Cut(Cut::Memory)),
        Err(SwapErr::Next((error, disk))) => Err(Stop::Lone {
            node: NodeId::Shard(shard),
            error,
            disk,
        }),
    }
}

/// A router starts again in its place; it tells its boot.
fn renew_router<D: Disk>(
    alloc: Global,
    world: &mut DiskWorld<D>,
    router: u16,
    map: &ChunkMap,
) -> Result<u32, Stop<D>>
    requires live { world.old.spent ≡ false }
    requires there { HasNode world.old.nodes (node_kinds.Router router) }
    ensures restarts { OnOk result (RouterRestarts ((d : D) → IsTrue (D.tells d)) map.now
        world.old.nodes router world.new.nodes) }
    ensures boot { IfOk result (λ boot. boot ≡ boot_at world.new.nodes (node_kinds.Router router)) }
    ensures live { OnOk result (world.new.spent ≡ false) }
    ensures stop { IfErr result (StopsFor (Renew (node_kinds.Router router))) }
    ensures nodes { Leaves result world.old.nodes world.new.nodes }
{
    let Ok(map) = map.copy(alloc) else {
        return Err(Stop::Cut(Cut::Memory));
    };
    match world.swap_router(router, |node| router_again(alloc, router, map, node)) {
        Ok(()) => Ok(world.routers()[usize::from(router)].router().boot()),
        Err(SwapErr::Memory) => Err(Stop::Cut(Cut::Memory)),
        Err(SwapErr::Next((error, disk))) => Err(Stop::Lone {
            node: NodeId::Router(router),
            error,
            disk,
        }),
    }
}

/// A node starts again in its place; it tells its boot.
fn renew_node<D: Disk>(
    alloc: Global,
    world: &mut DiskWorld<D>,
    map: &ChunkMap,
    node: NodeId,
) -> Result<u32, Stop<D>>
    requires live { world.old.spent ≡ false }
    requires there { HasNode world.old.nodes node }
    ensures happened { OnOk result (Happened ((d : D) → IsTrue (D.tells d)) map.now world.old.nodes
        (Swapped node) world.new.nodes) }
    ensures boot { IfOk result (λ boot. boot ≡ boot_at world.new.nodes node) }
    ensures live { OnOk result (world.new.spent ≡ false) }
    ensures stop { IfErr result (StopsFor (Renew node)) }
    ensures nodes { Leaves result world.old.nodes world.new.nodes }
{
    match node {
        NodeId::Shard(shard) => renew_shard(alloc, world, shard),
        NodeId::Router(router) => renew_router(alloc, world, router, map),
    }
}

/// With `log` the boot of a node is written.
fn tell_boot(
    alloc: Global,
    player: &Player,
    node: NodeId,
    boot: u32,
    text: &mut Vec<u8>,
) -> Result<(), AllocError>
    ensures { OnOk result
        (text.new.items ≡ text.old.items ++ where_logs player.now.logs (boot_line node boot)) }
{
    if player.logs() {
        put_boot(alloc, text, node, boot)
    } else {
        Ok(())
    }
}

/// A node starts again; with `log` its boot is written. Where it isn't there, nothing happens.
pub fn renew<D: Disk>(
    alloc: Global,
    player: &Player,
    world: &mut DiskWorld<D>,
    map: &ChunkMap,
    node: NodeId,
    text: &mut Vec<u8>,
) -> Result<(), Stop<D>>
    requires { world.old.spent ≡ false }
    ensures done { OnOk result
        ((item : Option Ran) × (more : List ℕ) × (text.new.items ≡ text.old.items ++ more)
        × Does ((d : D) → IsTrue (D.tells d)) map.now player.now (Renew node) world.old.nodes item
        more player.now world.new.nodes) }
    ensures live { OnOk result (world.new.spent ≡ false) }
    ensures stop { IfErr result (StopsFor (Renew node)) }
    ensures nodes { Leaves result world.old.nodes world.new.nodes }
{
    if !has_node(world, node) {
        return Ok(());
    }
    match renew_node(alloc, world, map, node) {
        Ok(boot) => match tell_boot(alloc, player, node, boot, text) {
            Ok(()) => Ok(()),
            Err(AllocError) => Err(Stop::Cut(Cut::Memory)),
        },
        Err(stop) => Err(stop),
    }
}
