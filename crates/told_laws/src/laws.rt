//! Laws of the statements of a run: a law is the contract of a function with an empty body.
ghost use Rattle.std.specs.Prelude.{◌≡◌, ◌<◌, List, [], ◌∷◌, All, Contains, AllPairs};
ghost use Rattle.txn_model.specs.declared.ran.Ran.{Ran};
ghost use Rattle.cluster_core.specs.Answering.{Unanswered};
ghost use Rattle.cluster_core.specs.Ledger.{answered_in};
ghost use Rattle.cluster_core.specs.Nodes.{Nodes};
ghost use Rattle.cluster_core.specs.Trace.{IsFresh, IsTrace};
ghost use Rattle.answer_laws.specs.Opened.{opened_in};
ghost use Rattle.txn_types.specs.declared.operation.Op.{Op};
ghost use Rattle.txn_semantics.specs.Effect.{AreKnown};
ghost use Rattle.txn_semantics.specs.Meaning.{eval, reply_of, document_rules};
ghost use Rattle.txn_semantics.specs.Rows.{Row, IsRising};
ghost use Rattle.txn_semantics.specs.Splits.{outcome};
ghost use Rattle.chunk_map.specs.Map.{Map, IsMap};
ghost use Rattle.chunk_map.specs.Parts.{part_at};
ghost use Rattle.router_state.specs.State.{RouterState};
ghost use Rattle.told_laws.specs.OneShard.{HaveIds};
ghost use Rattle.told_laws.specs.Places.{Rises, IsLater, HasReply};

/// A transaction and a place in it stand for one statement that a router opened. The places of a
/// transaction's statements rise, and a statement is opened only where each earlier one of its
/// transaction has had a reply: none is opened after a refusal. They are answered in their order,
/// each once.
pub fn each_statement_has_its_place()
    ensures rises { (chunks : Map) (start : Nodes) (run : List Ran) (trace : List Nodes)
        (now : Nodes) → IsFresh chunks start → IsTrace start run trace now
        → AllPairs Rises (opened_in start.routers run) }
    ensures once { (chunks : Map) (start : Nodes) (run : List Ran) (trace : List Nodes)
        (now : Nodes) → IsFresh chunks start → IsTrace start run trace now → (u v : Unanswered)
        → Contains (opened_in start.routers run) u → Contains (opened_in start.routers run) v
        → u.tag ≡ v.tag → u.k ≡ v.k → u ≡ v }
    ensures behind { (chunks : Map) (start : Nodes) (run : List Ran) (trace : List Nodes)
        (now : Nodes) → IsFresh chunks start → IsTrace start run trace now → (u v : Unanswered)
        → Contains (opened_in start.routers run) u → Contains (opened_in start.routers run) v
        → u.tag ≡ v.tag → u.k < v.k → HasReply (answered_in start.routers run) u }
    ensures later { (chunks : Map) (start : Nodes) (run : List Ran) (trace : List Nodes)
        (now : Nodes) → IsFresh chunks start → IsTrace start run trace now
        → AllPairs IsLater (answered_in start.routers run) }
{}

/// The documents of each statement that a router opened have ids.
pub fn documents_have_ids()
    ensures { (routers : List RouterState) (run : List Ran)
        → All (λ u. HaveIds u.op) (opened_in routers run) }
{}

/// On one shard the part of a statement that is sent is the whole statement, where its documents
/// have ids; and what is told of one reply or refusal is what it says, over rows that rise and
/// stand each under its own id.
pub fn one_shard_has_all()
    ensures part { (m : Map) (op : Op) → IsMap m → m.shards ≡ 1 → HaveIds op → part_at m op 0 ≡ op }
    ensures reply { (op : Op) (rows : List Row) → IsRising rows → AreKnown document_rules rows
        → outcome document_rules op (eval op rows ∷ []) ≡ reply_of (eval op rows) }
{}
