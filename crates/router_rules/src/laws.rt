//! Laws of the definitions: a law is the contract of a function with an empty body.
ghost use Rattle.std.specs.Prelude.{◌≡◌, ◌≤◌, ℕ, ℤ, List, Option, Some, true, length};
ghost use Rattle.std.specs.Ordering.{nat_cmp};
ghost use Rattle.txn_types.specs.declared.message.Answer.{Answer};
ghost use Rattle.txn_types.specs.declared.message.Outcome.{Outcome};
ghost use Rattle.txn_types.specs.declared.node.Lsid.{Lsid};
ghost use Rattle.txn_types.specs.declared.operation.Op.{Op};
ghost use Rattle.txn_semantics.specs.Keyed.{put};
ghost use Rattle.chunk_map.specs.Map.{Map, IsMap};
ghost use Rattle.router_state.specs.declared.state.Asker.{Asker};
ghost use Rattle.router_state.specs.declared.state.Phase.TheVariants.{Asking};
ghost use Rattle.router_state.specs.declared.state.Seeking.{Seeking};
ghost use Rattle.router_state.specs.declared.state.Session.{Session};
ghost use Rattle.router_state.specs.declared.state.Transaction.{Transaction};
ghost use Rattle.router_state.specs.State.{is_waited};
ghost use Rattle.router_rules.specs.Commits.{commit_asked};
ghost use Rattle.router_rules.specs.Ends.{client_aborts, ends_session, gone_from};
ghost use Rattle.router_rules.specs.Safe.{IsDrawn, IsSafeTransaction, IsSafeIn, IsGood};
ghost use Rattle.router_rules.specs.Serving.{answered_in, ended_in};
ghost use Rattle.router_rules.specs.Statements.{asks, answered_by};
ghost use Rattle.router_rules.specs.Tokens.{seeks_by};

/// A shard's answer leaves a session so that its numbers fit into messages, and what is replied can
/// be spelled.
pub fn an_answer_leaves_a_session_safe()
    ensures { (serial : ℕ) (a : Answer) (lsid : Lsid) (session : Session)
        → IsSafeIn serial lsid session → IsGood serial lsid (answered_in a lsid session) }
{}

/// So does a shard's outcome.
pub fn an_outcome_leaves_a_session_safe()
    ensures { (serial : ℕ) (o : Outcome) (lsid : Lsid) (session : Session)
        → IsSafeIn serial lsid session → IsGood serial lsid (ended_in o lsid session) }
{}

/// So does the end of the session.
pub fn an_end_leaves_a_session_safe()
    ensures { (serial : ℕ) (lsid : Lsid) (session : Session) → IsSafeIn serial lsid session
        → IsGood serial lsid (ends_session lsid session) }
{}

/// So does the end of a connection.
pub fn a_lost_connection_leaves_a_session_safe()
    ensures { (serial conn : ℕ) (lsid : Lsid) (session : Session) → IsSafeIn serial lsid session
        → IsGood serial lsid (gone_from conn lsid session) }
{}

/// So does a statement that is sent.
pub fn a_statement_leaves_its_session_safe()
    ensures { (serial : ℕ) (lsid : Lsid) (number : ℤ) → IsDrawn serial lsid number
        → (chunks : Map) (asker : Asker) (op : Op) (t : Transaction) → IsMap chunks
        → chunks.shards ≤ 65535 → IsSafeTransaction t
        → IsGood serial lsid (asks chunks lsid number asker op t) }
{}

/// So does a request to commit.
pub fn a_commit_leaves_its_session_safe()
    ensures { (serial : ℕ) (lsid : Lsid) (number : ℤ) → IsDrawn serial lsid number
        → (asker : Asker) (t : Transaction) → IsSafeTransaction t
        → IsGood serial lsid (commit_asked lsid number asker t) }
{}

/// So does a request to commit by a token.
pub fn a_commit_by_a_token_leaves_its_session_safe()
    ensures { (serial : ℕ) (lsid : Lsid) (number : ℤ) → IsDrawn serial lsid number
        → (asker : Asker) (k : Seeking) (session : Option Session)
        → ((s : Session) → session ≡ Some s → IsSafeIn serial lsid s)
        → IsGood serial lsid (seeks_by lsid number asker k session) }
{}

/// So does a request to abort.
pub fn an_abort_leaves_its_session_safe()
    ensures { (serial : ℕ) (lsid : Lsid) (number : ℤ) → IsDrawn serial lsid number
        → (asker : Asker) (t : Transaction) → IsSafeTransaction t
        → IsGood serial lsid (client_aborts lsid number asker t) }
{}

/// The shards that wrote can be listed in one message to their coordinator.
pub fn few_shards_write()
    ensures { (t : Transaction) → IsSafeTransaction t → length t.wrote ≤ 65535 }
{}

/// And so can they after an answer that is waited for.
pub fn few_shards_write_behind_an_answer()
    ensures { (a : Answer) (t : Transaction) (asker : Asker) (op : Op) (answers : List (ℕ × Answer))
        → IsSafeTransaction t → t.phase ≡ Asking asker op answers
        → is_waited a.shard t.waiting ≡ true
        → length (answered_by (put nat_cmp a.shard a answers) t).wrote ≤ 65535 }
{}
