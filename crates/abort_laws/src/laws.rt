//! Laws of wishes to end transactions: a law is the contract of a function with an empty body.
ghost use Rattle.std.specs.Prelude.{ℕ, List};
ghost use Rattle.txn_types.specs.declared.cause.Cause.TheVariants as cause;
ghost use Rattle.txn_types.specs.declared.names.Tag.{Tag};
ghost use Rattle.chunk_map.specs.Map.{Map};
ghost use Rattle.txn_model.specs.declared.ran.Ran.{Ran};
ghost use Rattle.cluster_core.specs.Causes.{Making, IsMade, Stood};
ghost use Rattle.cluster_core.specs.Nodes.{Nodes};
ghost use Rattle.cluster_core.specs.Trace.{IsTrace, IsFresh};
ghost use Rattle.world_laws.specs.Joint.{DisksStand};
ghost use Rattle.known_laws.specs.Known.{NamesNone};
ghost use Rattle.making_laws.specs.News.{IsNew};
ghost use Rattle.abort_laws.specs.Asked.{IsAskedFor};

/// A shard ends a transaction by a wish only where it is asked to: the step at which that cause is
/// new is the delivery of an Abort of the transaction with this reason, or for a commit by a token
/// of a Recover of it. That holds in each cluster, of any number of shards.
pub fn a_wish_is_delivered()
    ensures { (chunks : Map) (start : Nodes) (run : List Ran) (trace : List Nodes) (now : Nodes)
        → IsFresh chunks start → DisksStand start → NamesNone start → IsTrace start run trace now
        → (within shard : ℕ) (tag : Tag) (why : ℕ) (m : Making)
        → IsMade (record {
          chunks = chunks;
          routers = start.routers;
          run = run;
          trace = trace;
          now = now;
        })
        within shard tag (cause.ClientAbort why) m
        → IsNew m (cause.ClientAbort why) → IsAskedFor m why }
{}

/// Where a wish is new as a cause, it stood: what asks for it was delivered, and the router that
/// sent that had taken, at an earlier place of the run, what its reason says: the client's abort,
/// the end of the session, a commit by the token, the end of the connection of an unanswered
/// statement, a refusal, or a request of the session with a larger number. That holds in each
/// cluster, of any number of shards.
pub fn a_wish_stood()
    ensures { (chunks : Map) (start : Nodes) (run : List Ran) (trace : List Nodes) (now : Nodes)
        → IsFresh chunks start → DisksStand start → NamesNone start → IsTrace start run trace now
        → (within shard : ℕ) (tag : Tag) (why : ℕ) (m : Making)
        → IsMade (record {
          chunks = chunks;
          routers = start.routers;
          run = run;
          trace = trace;
          now = now;
        })
        within shard tag (cause.ClientAbort why) m
        → IsNew m (cause.ClientAbort why)
        → Stood (record {
          chunks = chunks;
          routers = start.routers;
          run = run;
          trace = trace;
          now = now;
        })
        m (cause.ClientAbort why) }
{}
