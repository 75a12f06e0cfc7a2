//! Each event keeps what is told of lost transactions: a law is the contract of a function with an
//! empty body.
ghost use Rattle.std.specs.Prelude.{List};
ghost use Rattle.chunk_map.specs.Map.{Map};
ghost use Rattle.txn_model.specs.declared.ran.Ran.{Ran};
ghost use Rattle.cluster_core.specs.Nodes.{Nodes};
ghost use Rattle.cluster_core.specs.Trace.{Happens, IsTrace, IsFresh};
ghost use Rattle.world_laws.specs.Joint.{Stands};
ghost use Rattle.known_laws.specs.Known.{KnownStands};
ghost use Rattle.lost_laws.specs.Lost.{LostStands};

/// The cause Unavailable, which a shard tells of a transaction that it doesn't know or that came
/// with another boot, names two different boots: no shard tells it of a transaction that came in
/// its own boot. Each event keeps that; it stands of nodes that have started.
pub fn what_is_unavailable_names_two_boots()
    ensures step { (old : Nodes) (ran : Ran) (new : Nodes) → Happens old ran new → Stands old
        → KnownStands old → LostStands old → LostStands new }
    ensures run { (old : Nodes) (run : List Ran) (trace : List Nodes) (new : Nodes)
        → IsTrace old run trace new → Stands old → KnownStands old → LostStands old
        → LostStands new }
    ensures fresh { (chunks : Map) (nodes : Nodes) → IsFresh chunks nodes → LostStands nodes }
{}
