//! Each event keeps what is known of boots: a law is the contract of a function with an empty body.
ghost use Rattle.std.specs.Prelude.{List, All};
ghost use Rattle.chunk_map.specs.Map.{Map};
ghost use Rattle.txn_model.specs.declared.ran.Ran.{Ran};
ghost use Rattle.cluster_core.specs.Nodes.{Nodes};
ghost use Rattle.cluster_core.specs.Parts.{KnowsBoots, BootsKnown};
ghost use Rattle.cluster_core.specs.Trace.{Happens, IsTrace, IsFresh};
ghost use Rattle.world_laws.specs.Joint.{Stands, DisksStand};
ghost use Rattle.live_laws.specs.Live.{LiveStands};
ghost use Rattle.known_laws.specs.Known.{KnownStands, NamesNone};

/// Where a message has a shard's boot, its transaction has come to that shard in that boot: the
/// session there has it, or has gone on to a larger number. What shards and routers have of boots
/// stands beside it. It stands of nodes that have started on disks that name no transaction. With
/// what live transactions were answered it is the whole of what the joint invariant says of boots.
pub fn what_has_a_boot_has_come()
    ensures step { (old : Nodes) (ran : Ran) (new : Nodes) → Happens old ran new → Stands old
        → KnownStands old → KnownStands new }
    ensures run { (old : Nodes) (run : List Ran) (trace : List Nodes) (new : Nodes)
        → IsTrace old run trace new → Stands old → KnownStands old → KnownStands new }
    ensures fresh { (chunks : Map) (nodes : Nodes) → IsFresh chunks nodes → DisksStand nodes
        → NamesNone nodes → KnownStands nodes }
    ensures part { (nodes : Nodes) → Stands nodes → KnownStands nodes
        → All (KnowsBoots nodes) nodes.sent }
    ensures whole { (nodes : Nodes) → Stands nodes → KnownStands nodes → LiveStands nodes
        → BootsKnown nodes }
{}
