//! Laws of the commits of a run: a law is the contract of a function with an empty body.
ghost use Rattle.std.specs.Prelude.{◌≡◌, List, All};
ghost use Rattle.txn_semantics.specs.Answers.{Whole};
ghost use Rattle.chunk_map.specs.Map.{Map, IsMap};
ghost use Rattle.txn_model.specs.declared.ran.Ran.{Ran};
ghost use Rattle.cluster_core.specs.Ledger.{answered_in};
ghost use Rattle.cluster_core.specs.Nodes.{Nodes, commits_of};
ghost use Rattle.cluster_core.specs.Right.{boots_of};
ghost use Rattle.cluster_core.specs.Trace.{IsFresh, IsTrace};
ghost use Rattle.answer_laws.specs.Opened.{opened_in};
ghost use Rattle.one_shard_laws.specs.Concluding.{StartsAlone};
ghost use Rattle.commit_laws.specs.Speaking.{Gave, MsgFollows};

/// On one shard each message of a router tells of the statements before it. The first statement of
/// a transaction names no boot of the shard, and each later one the boot in which the one before it
/// was answered. A commit names the boot in which the newest statement of its transaction was
/// answered, and each statement of it that was ever opened has had its reply: none is opened after
/// a commit.
pub fn messages_tell_of_what_was_answered()
    ensures { (chunks : Map) (start : Nodes) (run : List Ran) (trace : List Nodes) (now : Nodes)
        → IsMap chunks → chunks.shards ≡ 1 → IsFresh chunks start → IsTrace start run trace now
        → All (λ e. MsgFollows (Gave now.sent (answered_in start.routers run))
        (opened_in start.routers run) (answered_in start.routers run) e.to e.msg) now.sent }
{}

/// On one shard each transaction that is committed is whole: its entry holds the last write to each
/// document of all its answered statements, none of which was refused; and it is there once.
pub fn what_is_committed_is_whole()
    ensures { (chunks : Map) (start : Nodes) (run : List Ran) (trace : List Nodes) (now : Nodes)
        → IsMap chunks → StartsAlone chunks start → IsTrace start run trace now
        → Whole (boots_of start.routers) (commits_of now) (answered_in start.routers run) }
{}
