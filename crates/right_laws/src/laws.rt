//! Laws of what a cluster of one shard tells its clients, of the ends of transactions and of their
//! causes, the lower ones first. A law is the contract of a function with an empty body.
ghost use Rattle.std.specs.Prelude.{List, All, ◌≡◌, true, IsTrue, ◌++◌, ◌∷◌, [], Contains, false};
ghost use Rattle.chunk_map.specs.Map.{Map, IsMap};
ghost use Rattle.txn_model.specs.declared.ran.Ran.{Ran};
ghost use Rattle.world_laws.specs.Joint.{DisksStand};
ghost use Rattle.cluster_core.specs.Ledger.{all_replied, fresh_ledger, ledger_behind, answered_in};
ghost use Rattle.cluster_core.specs.Nodes.{Nodes, commits_of};
ghost use Rattle.cluster_core.specs.Trace.{IsFresh, IsTrace};
ghost use Rattle.right_laws.specs.Said.{Came, IsWaiting};
ghost use Rattle.txn_types.specs.declared.names.Tag.{Tag};
ghost use Rattle.txn_semantics.specs.Answers.{began};
ghost use Rattle.txn_model.specs.Commits.{has_entry};
ghost use Rattle.cluster_core.specs.Deciding.{has_written, TokensGiven, OneDecision};
ghost use Rattle.cluster_core.specs.Right.{boots_of, past_of, Right};
ghost use Rattle.cluster_core.specs.Telling.{told_in};
ghost use Rattle.one_shard_laws.specs.Concluding.{StartsAlone};
ghost use Rattle.right_laws.specs.Grounds.{AllGrounded, IsWriteless};
ghost use Rattle.decision_laws.specs.Recovering.{RecoversAgree, RecoversCome};
ghost use Rattle.right_laws.specs.Boots.{RecoversNameBoots};
ghost use Rattle.cluster_core.specs.Causes.{AllCaused};
ghost use Rattle.chain_laws.specs.Completing.{completed_in};
ghost use Rattle.right_laws.specs.Knowing.{RoutersKnowWrites};

/// Each reply to a request, on any number of shards and with any restarts, losses, repeats and
/// failed appends, was given by its router in one of two ways: at the step that took the request,
/// by what it asks; or later, by what a message did in a session in which the request waited. The
/// transaction that the reply is taken to be of is that of this session, or the one that the
/// request names.
pub fn each_reply_has_its_ground()
    ensures { (chunks : Map) (start : Nodes) (run : List Ran) (trace : List Nodes) (now : Nodes)
        → IsFresh chunks start → DisksStand start → IsTrace start run trace now
        → All (Came trace run) (all_replied start.routers run) }
{}

/// Each request that a connection has in hand after a run, likewise, waits in a session of its
/// router: no request is forgotten. The session is of the transaction that the request is taken to
/// be of.
pub fn each_request_in_hand_waits()
    ensures { (chunks : Map) (start : Nodes) (run : List Ran) (trace : List Nodes) (now : Nodes)
        → IsFresh chunks start → DisksStand start → IsTrace start run trace now
        → All (IsWaiting now) (ledger_behind (fresh_ledger start.routers) run).hands }
{}

/// Whatever a reply tells of a transaction has its ground in what its shard told before, at any
/// router, with restarts, losses, repeats and tokens of any kind: a commit that is told as done is
/// in the list of commits, or each participant released the transaction before the reply; one that
/// is told as aborted, or with a cause, isn't in the list, or the shard told it as aborted.
pub fn each_telling_has_its_ground()
    ensures { (chunks : Map) (start : Nodes) (run : List Ran) (trace : List Nodes) (now : Nodes)
        → IsMap chunks → StartsAlone chunks start → IsTrace start run trace now
        → AllGrounded run trace now (told_in start.routers run) }
{}

/// A transaction that is in the list of commits wrote something: its answered statements, as they
/// mean over the commits, leave a write.
pub fn what_is_committed_wrote()
    ensures { (chunks : Map) (start : Nodes) (run : List Ran) (trace : List Nodes) (now : Nodes)
        → IsMap chunks → StartsAlone chunks start → IsTrace start run trace now
        → (tag : Tag) → IsTrue (began (boots_of start.routers) tag)
        → has_entry (commits_of now) tag ≡ true
        → has_written (commits_of now) (answered_in start.routers run) tag ≡ true }
{}

/// On one shard, where tokens are handed back as they were told, a request to recover a transaction
/// names the boot of the shard that each request to commit it names.
pub fn tokens_name_the_boot_of_commits()
    ensures { (chunks : Map) (start : Nodes) (run : List Ran) (trace : List Nodes) (now : Nodes)
        → IsMap chunks → StartsAlone chunks start → IsTrace start run trace now
        → TokensGiven start.routers run → RecoversAgree now.sent }
{}

/// And it names a boot that the shard had when it was sent: after each step, none is above the
/// shard's own, and none is 0.
pub fn recoveries_name_a_boot_that_the_shard_had()
    ensures { (chunks : Map) (start : Nodes) (run : List Ran) (trace : List Nodes) (now : Nodes)
        → IsMap chunks → StartsAlone chunks start → IsTrace start run trace now
        → TokensGiven start.routers run → (nodes : Nodes) → Contains (trace ++ now ∷ []) nodes
        → RecoversNameBoots nodes }
{}

/// And it names a transaction as it was named before, which had come to the shard in that boot:
/// while the shard has the boot still, the session there has the transaction, or has gone on.
pub fn recoveries_are_of_what_had_come()
    ensures { (chunks : Map) (start : Nodes) (run : List Ran) (trace : List Nodes) (now : Nodes)
        → IsMap chunks → StartsAlone chunks start → IsTrace start run trace now
        → TokensGiven start.routers run → (nodes : Nodes) → Contains (trace ++ now ∷ []) nodes
        → RecoversCome nodes }
{}

/// On one shard, where tokens are handed back as they were told, each cause that a reply tells was
/// made by a step of the shard at or before the reply, and what it says stood there.
pub fn each_cause_told_stood()
    ensures { (chunks : Map) (start : Nodes) (run : List Ran) (trace : List Nodes) (now : Nodes)
        → IsMap chunks → StartsAlone chunks start → IsTrace start run trace now
        → TokensGiven start.routers run
        → AllCaused (past_of chunks start run trace now) (told_in start.routers run) }
{}

/// A router knows of a write of each transaction of which an Answer told it one, unless it ended
/// the transaction before its commit was sent.
pub fn routers_know_of_writes()
    ensures { (chunks : Map) (start : Nodes) (run : List Ran) (trace : List Nodes) (now : Nodes)
        → IsMap chunks → StartsAlone chunks start → IsTrace start run trace now
        → RoutersKnowWrites (completed_in start.routers run) now }
{}

/// A transaction that its router has as aborted, behind its commit, and of which it knows no write,
/// is never committed: not by a message that comes late, nor after a restart.
pub fn what_wrote_nothing_is_never_committed()
    ensures { (chunks : Map) (start : Nodes) (run : List Ran) (trace : List Nodes) (now : Nodes)
        → IsMap chunks → StartsAlone chunks start → IsTrace start run trace now
        → (tag : Tag) → IsWriteless (trace ++ now ∷ []) tag
        → has_entry (commits_of now) tag ≡ false }
{}

/// What replies tell of transactions that began in the run is one decision of each: a commit that
/// is told as done is in the list of commits, or wrote nothing and was released by each participant
/// before the reply; one that is told as aborted, or with a cause, isn't in the list. Tokens have
/// to be handed back as they were told.
pub fn what_is_told_is_one_decision()
    ensures { (chunks : Map) (start : Nodes) (run : List Ran) (trace : List Nodes) (now : Nodes)
        → IsMap chunks → StartsAlone chunks start → IsTrace start run trace now
        → TokensGiven start.routers run
        → OneDecision (began (boots_of start.routers)) run (commits_of now)
        (answered_in start.routers run) (told_in start.routers run) }
{}

/// Behind each run of one shard that begins on a new disk, with any routers, restarts, losses,
/// repeats and failed appends: what clients were answered and told is right against the list of
/// commits as it is now.
pub fn what_one_shard_tells_is_right()
    ensures { (chunks : Map) (start : Nodes) (run : List Ran) (trace : List Nodes) (now : Nodes)
        → IsMap chunks → StartsAlone chunks start → IsTrace start run trace now
        → Right chunks start run now }
{}
