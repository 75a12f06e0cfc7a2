//! Laws of the causes that replies tell: a law is the contract of a function with an empty body.
ghost use Rattle.std.specs.Prelude.{List};
ghost use Rattle.chunk_map.specs.Map.{Map};
ghost use Rattle.txn_model.specs.declared.ran.Ran.{Ran};
ghost use Rattle.cluster_core.specs.Nodes.{Nodes};
ghost use Rattle.cluster_core.specs.Telling.{told_in};
ghost use Rattle.cluster_core.specs.Trace.{IsFresh, IsTrace};
ghost use Rattle.world_laws.specs.Joint.{DisksStand};
ghost use Rattle.cluster_core.specs.Right.{past_of};
ghost use Rattle.making_laws.specs.Made.{AllMade};

/// Each cause that a reply tells of a transaction, on any number of shards and with any restarts,
/// losses, repeats and failed appends, was made by a step of the shard that the reply names, before
/// the reply: one that ended the transaction with it, or that told it of a transaction that hadn't
/// been ended with it before. (Of want of memory, and of a vote that refused, any step that told it
/// may stand there.)
pub fn each_cause_told_was_made()
    ensures { (chunks : Map) (start : Nodes) (run : List Ran) (trace : List Nodes) (now : Nodes)
        → IsFresh chunks start → DisksStand start → IsTrace start run trace now
        → AllMade (past_of chunks start run trace now) (told_in start.routers run) }
{}
