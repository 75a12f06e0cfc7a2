//! A law is the contract of a function with an empty body.
ghost use Rattle.std.specs.Prelude.{◌≡◌, ℕ, List, Some, slice_get};
ghost use Rattle.chunk_map.specs.Map.{Map};
ghost use Rattle.log_laws.specs.Fitting.{AllFit};
ghost use Rattle.shard_core.specs.NodeStep.{NodeState};
ghost use Rattle.txn_model.specs.declared.ran.Ran.{Ran};
ghost use Rattle.cluster_core.specs.Nodes.{Nodes};
ghost use Rattle.cluster_core.specs.Trace.{IsFresh, IsTrace};
ghost use Rattle.answer_laws.specs.Parts.{SentFit};
ghost use Rattle.one_shard_laws.specs.Concluding.{StartsAlone};
ghost use Rattle.fit_laws.specs.Bytes.{AreOfBytes, AreOnConnections, RoutersFit, StatementFits};

/// Where what clients send is bytes, each statement that a router sends to a shard fits the fields
/// of the records that are made of it.
pub fn what_routers_send_fits()
    ensures { (chunks : Map) (start : Nodes) (run : List Ran) (trace : List Nodes) (now : Nodes)
        → IsFresh chunks start → IsTrace start run trace now → AreOfBytes run
        → SentFit StatementFits now.sent }
{}

/// On one shard that begins on a new disk, where what clients send is bytes: each record of the
/// shard, and each that it has in hand, fits its bytes, so that it is read as it was written. The
/// numbers of clients' connections and of routers, and routers' boots at the start, fit those of a
/// tag; all others stay within theirs by themselves.
pub fn what_a_shard_records_fits()
    ensures { (chunks : Map) (start : Nodes) (run : List Ran) (trace : List Nodes) (now : Nodes)
        → StartsAlone chunks start → IsTrace start run trace now → AreOfBytes run
        → AreOnConnections run → RoutersFit start → (n : ℕ) (s : NodeState)
        → slice_get now.shards n ≡ Some s → AllFit s.records × AllFit s.hand }
{}
