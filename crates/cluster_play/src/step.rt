//! Events at nodes.
ghost use Rattle.std.specs.Prelude.{◌≡◌, ◌≢◌, ◌↔◌, ◌++◌, false, ℕ, List, Option, IsTrue, OnOk, slice_get};
ghost use Rattle.txn_types.specs.declared.event.NodeAnswer.TheVariants as kinds;
ghost use Rattle.txn_model.specs.declared.ran.Ran.{Ran};
ghost use Rattle.cluster_world.specs.World.{HasNode, ComesAlone, GoesTo, MayHappen, AsMany};
ghost use Rattle.play_steps.specs.Steps.{answer_text, behind_answer};
ghost use Rattle.cluster_play.specs.Steps.{Comes};

use cluster_world::{World, WorldErr, WorldEvent};
use node_store::ShardNode;
use outside_core::Disk;
use play_steps::{Given, Player};
use record_store::DiskLog;
use router_store::RouterNode;
use std::alloc::AllocError;
use txn_types::{Happening, NodeAnswer, NodeId};

/// A cluster whose nodes have disks.
pub type DiskWorld<D> = World<ShardNode<DiskLog<D>>, RouterNode<DiskLog<D>>>;

/// Whether the node is there.
pub fn has_node<D: Disk>(world: &DiskWorld<D>, node: NodeId) -> bool
    ensures { IsTrue result ↔ HasNode world.now.nodes node }
{
    match node {
        NodeId::Shard(number) => usize::from(number) < world.shards().len(),
        NodeId::Router(number) => usize::from(number) < world.routers().len(),
    }
}

/// Whether what happens comes by itself: it is no delivery.
fn comes_alone(happening: &Happening) -> bool
    ensures { IsTrue result ↔ ComesAlone happening.now }
{
    match happening {
        Happening::Deliver(_) => false,
        _ => true,
    }
}

/// Whether the message of that number was sent, to a node that is there.
fn may_deliver<D: Disk>(world: &DiskWorld<D>, number: u64) -> bool
    ensures { IsTrue result ↔ GoesTo world.now.nodes (slice_get world.now.nodes.sent number) }
{
    if number >= world.sent() {
        return false;
    }
    has_node(world, world.messages()[number as usize].to)
}

/// Whether the event may come.
fn may_happen<D: Disk>(world: &DiskWorld<D>, event: &WorldEvent) -> bool
    ensures { IsTrue result ↔ MayHappen world.now.nodes event.now }
{
    match event {
        WorldEvent::At { node, event } => has_node(world, *node) && comes_alone(&event.what),
        WorldEvent::Deliver { number, .. } => may_deliver(world, *number),
    }
}

/// What is written of an answer, and what follows; none of out of memory.
fn took(
    player: &mut Player,
    given: Given,
    answer: &NodeAnswer,
    text: &mut Vec<u8>,
) -> Result<(), AllocError>
    ensures room { OnOk result (answer.now ≢ kinds.Memory) }
    ensures text { OnOk result
        (text.new.items ≡ text.old.items ++ answer_text player.old given answer.now) }
    ensures player { OnOk result (player.new ≡ behind_answer player.old given answer.now) }
{
    if matches!(answer, NodeAnswer::Memory) {
        return Err(AllocError);
    }
    player.took(given, answer, text)
}

/// An event comes to its node: what is written of it is put after `text`, and what follows. Where
/// it can't come, nothing happens.
pub fn step<D: Disk>(
    player: &mut Player,
    world: &mut DiskWorld<D>,
    given: Given,
    event: WorldEvent,
    text: &mut Vec<u8>,
) -> Result<(), AllocError>
    requires { world.old.spent ≡ false }
    ensures comes { OnOk result
        ((item : Option Ran) × (more : List ℕ) × (text.new.items ≡ text.old.items ++ more)
        × Comes player.old given event world.old.nodes item more player.new world.new.nodes) }
    ensures live { OnOk result (world.new.spent ≡ false) }
    ensures nodes { AsMany world.old.nodes world.new.nodes }
{
    if !may_happen(world, &event) {
        return Ok(());
    }
    match world.step(event) {
        Ok(answer) => {
            took(player, given, &answer.answer, text)?;
            Ok(())
        }
        Err(WorldErr::Memory) => Err(AllocError),
    }
}
