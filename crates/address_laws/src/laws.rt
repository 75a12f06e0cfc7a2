//! Each event keeps that messages go to nodes that are there: a law is the contract of a function
//! with an empty body.
ghost use Rattle.std.specs.Prelude.{List, All};
ghost use Rattle.chunk_map.specs.Map.{Map, IsMap};
ghost use Rattle.txn_model.specs.declared.ran.Ran.{Ran};
ghost use Rattle.cluster_core.specs.Nodes.{Nodes};
ghost use Rattle.cluster_core.specs.Trace.{Happens, IsTrace, IsFresh};
ghost use Rattle.world_laws.specs.Joint.{Stands, DisksStand};
ghost use Rattle.address_laws.specs.Addresses.{AddressesStand, HasNode};

/// Each message that was ever sent goes to a node that is there, after each event and so after
/// each run: a caller who delivers what was sent may always do so. What nodes have of each other
/// stands beside it. A token that names a shard which isn't there is refused by the router that is
/// given it, and nothing is sent for it. It stands of nodes that have started with a map of their
/// shards, where no disk has begun a commit of several shards.
pub fn sent_messages_go_to_nodes_that_are_there()
    ensures step { (old : Nodes) (ran : Ran) (new : Nodes) → Happens old ran new → Stands old
        → AddressesStand old → AddressesStand new }
    ensures run { (old : Nodes) (run : List Ran) (trace : List Nodes) (new : Nodes)
        → IsTrace old run trace new → Stands old → AddressesStand old → AddressesStand new }
    ensures fresh { (chunks : Map) (nodes : Nodes) → IsFresh chunks nodes → IsMap chunks
        → DisksStand nodes → AddressesStand nodes }
    ensures sent { (nodes : Nodes) → AddressesStand nodes
        → All (λ e. HasNode nodes e.to) nodes.sent }
{}
