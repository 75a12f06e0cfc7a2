//! Laws of what a run has answered: a law is the contract of a function with an empty body.
ghost use Rattle.std.specs.Prelude.{◌≡◌, List, All, length};
ghost use Rattle.txn_types.specs.declared.message.Envelope.{Envelope};
ghost use Rattle.txn_semantics.specs.declared.commits.Answered.{Answered};
ghost use Rattle.chunk_map.specs.Map.{Map};
ghost use Rattle.txn_model.specs.declared.ran.Ran.{Ran};
ghost use Rattle.cluster_core.specs.Answering.{Unanswered};
ghost use Rattle.cluster_core.specs.Ledger.{answered_in};
ghost use Rattle.cluster_core.specs.Nodes.{Nodes};
ghost use Rattle.cluster_core.specs.Trace.{IsFresh, IsTrace};
ghost use Rattle.answer_laws.specs.Opened.{opened_in};
ghost use Rattle.answer_laws.specs.Comes.{IsAnswered, IsOfOne};
ghost use Rattle.answer_laws.specs.Parts.{SentFit, IsPart};

/// Each statement that a run answered was opened by a request that a router took, and is what the
/// Answers of its shards say.
pub fn answered_statements_come_of_answers()
    ensures { (start : Nodes) (run : List Ran) (trace : List Nodes) (now : Nodes)
        → IsTrace start run trace now
        → All (IsAnswered now.sent (opened_in start.routers run)) (answered_in start.routers run) }
{}

/// Each statement that was sent to a shard is the shard's part of one that a router opened for a
/// client's request.
pub fn statements_are_parts_of_requests()
    ensures { (chunks : Map) (start : Nodes) (run : List Ran) (trace : List Nodes) (now : Nodes)
        → IsFresh chunks start → IsTrace start run trace now
        → SentFit (IsPart chunks (opened_in start.routers run)) now.sent }
{}

/// An answered statement that was sent to one shard is what that shard's Answer says.
pub fn one_shard_says_all()
    ensures { (sent : List Envelope) (begun : List Unanswered) (a : Answered) (h : IsAnswered sent
        begun a) → length h.statement.shards ≡ 1 → IsOfOne sent a }
{}
