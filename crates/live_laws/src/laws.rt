//! Each event keeps that live transactions are as they were answered: a law is the contract of a
//! function with an empty body.
ghost use Rattle.std.specs.Prelude.{List, All};
ghost use Rattle.chunk_map.specs.Map.{Map};
ghost use Rattle.txn_model.specs.declared.ran.Ran.{Ran};
ghost use Rattle.cluster_core.specs.Nodes.{Nodes};
ghost use Rattle.cluster_core.specs.Parts.{LiveAsAnswered};
ghost use Rattle.cluster_core.specs.Trace.{Happens, IsTrace, IsFresh};
ghost use Rattle.live_laws.specs.Live.{LiveStands};

/// What a running shard has of a live transaction is what its newest statement there was answered
/// in this boot: an Answer was sent that has its tag and that statement's place, the shard's number
/// and boot, what it reads at and what it was told. Each event keeps that, and nodes that have
/// started have nothing live.
pub fn what_is_live_was_answered()
    ensures step { (old : Nodes) (ran : Ran) (new : Nodes) → Happens old ran new → LiveStands old
        → LiveStands new }
    ensures run { (old : Nodes) (run : List Ran) (trace : List Nodes) (new : Nodes)
        → IsTrace old run trace new → LiveStands old → LiveStands new }
    ensures fresh { (chunks : Map) (nodes : Nodes) → IsFresh chunks nodes → LiveStands nodes }
    ensures part { (nodes : Nodes) → LiveStands nodes → All (LiveAsAnswered nodes) nodes.shards }
{}
