//! A law is the contract of a function with an empty body.
ghost use Rattle.std.specs.Prelude.{◌≡◌, false, List, ◌++◌, ◌∷◌, [], All, Contains};
ghost use Rattle.txn_types.specs.declared.names.Tag.{Tag};
ghost use Rattle.chunk_map.specs.Map.{Map, IsMap};
ghost use Rattle.txn_model.specs.Commits.{has_entry};
ghost use Rattle.txn_model.specs.declared.ran.Ran.{Ran};
ghost use Rattle.cluster_core.specs.Nodes.{Nodes, commits_of};
ghost use Rattle.cluster_core.specs.Trace.{Happens, IsTrace};
ghost use Rattle.one_shard_laws.specs.Concluding.{StartsAlone};
ghost use Rattle.decision_laws.specs.Ends.{IsEnded, IsLost, NameOneBoot, TellsRight, TellsNever};
ghost use Rattle.decision_laws.specs.Recovering.{RecoversAgree, RecoversCome};
ghost use Rattle.decision_laws.specs.Flags.{CommitsToldWrites, RepliesAgree};
ghost use Rattle.cluster_core.specs.Deciding.{has_written};
ghost use Rattle.cluster_core.specs.Ledger.{answered_in};
ghost use Rattle.txn_types.specs.declared.decision.Told.TheVariants as told;
ghost use Rattle.txn_types.specs.declared.message.Envelope.{Envelope};
ghost use Rattle.txn_types.specs.declared.message.Msg.TheVariants as msg;
ghost use Rattle.txn_types.specs.declared.message.Outcome.{Outcome};

/// What a shard told as committed is in the list of commits.
pub fn what_is_told_as_committed_is_there()
    ensures { (chunks : Map) (start : Nodes) (run : List Ran) (trace : List Nodes) (now : Nodes)
        → StartsAlone chunks start → IsTrace start run trace now
        → All (λ e. TellsRight (commits_of now) e.msg) now.sent }
{}

/// A transaction that its router has as aborted, without having asked the shard to commit it, is
/// never committed: not by a message that comes late, nor after a restart.
pub fn what_is_lost_is_never_committed()
    ensures { (chunks : Map) (start : Nodes) (run : List Ran) (trace : List Nodes) (now : Nodes)
        → IsMap chunks → StartsAlone chunks start → IsTrace start run trace now
        → (nodes : Nodes) (tag : Tag) → Contains (trace ++ now ∷ []) nodes → IsLost nodes tag
        → has_entry (commits_of now) tag ≡ false }
{}

/// A transaction that its router ends before it asks the shard to commit it, as a client's abort, a
/// refused statement and the end of a session or connection do, is never committed.
pub fn what_ends_before_its_commit_is_never_committed()
    ensures { (chunks : Map) (start : Nodes) (run : List Ran) (trace : List Nodes) (old : Nodes)
        (ran : Ran) (new : Nodes) (more : List Ran) (later : List Nodes) (now : Nodes)
        → IsMap chunks → StartsAlone chunks start → IsTrace start run trace old
        → Happens old ran new → IsTrace new more later now → (tag : Tag) → IsEnded old new tag
        → has_entry (commits_of now) tag ≡ false }
{}

/// All requests to commit one transaction name one boot of the shard, however often and by whatever
/// way they were sent.
pub fn requests_to_commit_name_one_boot()
    ensures { (chunks : Map) (start : Nodes) (run : List Ran) (trace : List Nodes) (now : Nodes)
        → IsMap chunks → StartsAlone chunks start → IsTrace start run trace now
        → NameOneBoot now.sent }
{}

/// What a shard told as aborted is never committed: not by a message that comes late, nor after a
/// restart. Requests to recover a transaction have to be of one that had come to the shard, in the
/// boot that requests to commit it name: a made-up one would be told as aborted before it began.
pub fn what_is_told_as_aborted_is_never_committed()
    ensures { (chunks : Map) (start : Nodes) (run : List Ran) (trace : List Nodes) (now : Nodes)
        → IsMap chunks → StartsAlone chunks start → IsTrace start run trace now
        → RecoversAgree now.sent
        → ((nodes : Nodes) → Contains (trace ++ now ∷ []) nodes → RecoversCome nodes)
        → All (λ e. TellsNever (commits_of now) e.msg) now.sent }
{}

/// Of each committed transaction some Answer tells that a statement of it wrote: one of the boot
/// that the request to commit it names.
pub fn what_is_committed_was_told_to_write()
    ensures { (chunks : Map) (start : Nodes) (run : List Ran) (trace : List Nodes) (now : Nodes)
        → IsMap chunks → StartsAlone chunks start → IsTrace start run trace now
        → CommitsToldWrites now.sent (commits_of now) }
{}

/// All replies to one statement in one boot of the shard are alike, and tell alike whether it
/// wrote.
pub fn replies_of_one_statement_agree()
    ensures { (chunks : Map) (start : Nodes) (run : List Ran) (trace : List Nodes) (now : Nodes)
        → IsMap chunks → StartsAlone chunks start → IsTrace start run trace now
        → RepliesAgree now.sent }
{}

/// What a shard told as released wrote nothing: as of the commits of now, no answered statement of
/// it did.
pub fn what_is_told_as_released_wrote_nothing()
    ensures { (chunks : Map) (start : Nodes) (run : List Ran) (trace : List Nodes) (now : Nodes)
        → IsMap chunks → StartsAlone chunks start → IsTrace start run trace now
        → (e : Envelope) (o : Outcome) → Contains now.sent e → e.msg ≡ msg.Outcome o
        → o.told ≡ told.Released
        → has_written (commits_of now) (answered_in start.routers run) o.tag ≡ false }
{}
