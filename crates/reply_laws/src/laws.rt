//! Laws of the replies of a run: a law is the contract of a function with an empty body.
ghost use Rattle.std.specs.Prelude.{List};
ghost use Rattle.chunk_map.specs.Map.{Map};
ghost use Rattle.txn_model.specs.declared.ran.Ran.{Ran};
ghost use Rattle.cluster_core.specs.Ledger.{answered_in, all_replied};
ghost use Rattle.cluster_core.specs.Nodes.{Nodes};
ghost use Rattle.cluster_core.specs.Telling.{ToldRight};
ghost use Rattle.cluster_core.specs.Trace.{IsFresh, IsTrace};

/// A reply of counts or documents, one that these are too large, and one of a statement's own
/// refusal is what the request's statement was answered, by the run's messages alone. The commit of
/// a command by itself may be told why a repeat of the statement is refused, where this was done.
pub fn replies_tell_what_was_answered()
    ensures { (chunks : Map) (start : Nodes) (run : List Ran) (trace : List Nodes) (now : Nodes)
        → IsFresh chunks start → IsTrace start run trace now
        → ToldRight (answered_in start.routers run) (all_replied start.routers run) }
{}
