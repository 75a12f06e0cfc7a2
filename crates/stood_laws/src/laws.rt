//! A law is the contract of a function with an empty body.
ghost use Rattle.std.specs.Prelude.{◌≡◌, ℕ, List, true};
ghost use Rattle.txn_types.specs.declared.cause.Cause.{Cause};
ghost use Rattle.txn_types.specs.declared.cause.Cause.TheVariants as cause;
ghost use Rattle.txn_types.specs.declared.cause.By.TheVariants as by;
ghost use Rattle.txn_types.specs.declared.id.Id.{Id};
ghost use Rattle.txn_types.specs.declared.names.Tag.{Tag};
ghost use Rattle.txn_types.specs.declared.operation.OpErr.{OpErr};
ghost use Rattle.chunk_map.specs.Map.{Map, IsMap};
ghost use Rattle.txn_model.specs.declared.ran.Ran.{Ran};
ghost use Rattle.cluster_core.specs.Causes.{Making, IsMade, Stood};
ghost use Rattle.cluster_core.specs.Nodes.{Nodes};
ghost use Rattle.cluster_core.specs.Trace.{IsTrace};
ghost use Rattle.one_shard_laws.specs.Concluding.{StartsAlone};
ghost use Rattle.making_laws.specs.News.{IsNew};
ghost use Rattle.cluster_core.specs.Right.{past_of};
ghost use Rattle.stood_laws.specs.Ruled.{is_ruled, is_shown, RecoversEarlier};

/// On one shard, where a cause is made by what stands at the shard's part, its clock or its disk,
/// this stood there.
pub fn what_a_rule_refuses_stood()
    ensures { (chunks : Map) (start : Nodes) (run : List Ran) (trace : List Nodes) (now : Nodes)
        → StartsAlone chunks start → IsTrace start run trace now
        → (within shard : ℕ) (tag : Tag) (why : Cause) (m : Making)
        → IsMade (past_of chunks start run trace now) within shard tag why m → IsNew m why
        → is_ruled why ≡ true → Stood (past_of chunks start run trace now) m why }
{}

/// On one shard, where a message of an earlier boot is refused, the shard's journal has the boot
/// that it names, and later its own, which is the last: where a recovery names a boot that the
/// shard had.
pub fn an_earlier_boot_stood()
    ensures { (chunks : Map) (start : Nodes) (run : List Ran) (trace : List Nodes) (now : Nodes)
        → IsMap chunks → StartsAlone chunks start → IsTrace start run trace now
        → (within shard : ℕ) (tag : Tag) (carried have : ℕ) (m : Making)
        → IsMade (past_of chunks start run trace now) within shard tag
        (cause.Unavailable carried have) m → IsNew m (cause.Unavailable carried have)
        → RecoversEarlier m
        → Stood (past_of chunks start run trace now) m (cause.Unavailable carried have) }
{}

/// On one shard, where a write conflicts with a commit's time, the list of commits has an entry at
/// that time, above what the statement reads at, which wrote the document.
pub fn a_conflict_with_a_commit_stood()
    ensures { (chunks : Map) (start : Nodes) (run : List Ran) (trace : List Nodes) (now : Nodes)
        → StartsAlone chunks start → IsTrace start run trace now
        → (within shard : ℕ) (tag : Tag) (id : Id) (time : ℕ) (m : Making)
        → IsMade (past_of chunks start run trace now) within shard tag
        (cause.WriteConflict id (by.At time)) m → IsNew m (cause.WriteConflict id (by.At time))
        → Stood (past_of chunks start run trace now) m (cause.WriteConflict id (by.At time)) }
{}

/// On one shard, where a statement is refused by its own meaning, this meaning refuses it over what
/// its moment sees of the list of commits, under what the answered statements of its transaction
/// wrote before it.
pub fn a_refused_statement_meant_it()
    ensures { (chunks : Map) (start : Nodes) (run : List Ran) (trace : List Nodes) (now : Nodes)
        → IsMap chunks → StartsAlone chunks start → IsTrace start run trace now
        → (within shard : ℕ) (tag : Tag) (err : OpErr) (m : Making)
        → IsMade (past_of chunks start run trace now) within shard tag (cause.Statement err) m
        → IsNew m (cause.Statement err)
        → Stood (past_of chunks start run trace now) m (cause.Statement err) }
{}

/// On one shard, where a transaction has written too much, what it has live there has this many
/// bytes with what its statement writes over those rows, and this is above what it may have.
pub fn what_is_too_large_was_written()
    ensures { (chunks : Map) (start : Nodes) (run : List Ran) (trace : List Nodes) (now : Nodes)
        → IsMap chunks → StartsAlone chunks start → IsTrace start run trace now
        → (within shard : ℕ) (tag : Tag) (bytes : ℕ) (m : Making)
        → IsMade (past_of chunks start run trace now) within shard tag (cause.Volume bytes) m
        → IsNew m (cause.Volume bytes)
        → Stood (past_of chunks start run trace now) m (cause.Volume bytes) }
{}

/// On one shard, where a cause is made, what it tells stood there: all causes but those of a
/// client.
pub fn what_is_made_stood()
    ensures { (chunks : Map) (start : Nodes) (run : List Ran) (trace : List Nodes) (now : Nodes)
        → IsMap chunks → StartsAlone chunks start → IsTrace start run trace now
        → (within shard : ℕ) (tag : Tag) (m : Making) → RecoversEarlier m → (why : Cause)
        → IsMade (past_of chunks start run trace now) within shard tag why m → IsNew m why
        → is_shown why ≡ true → Stood (past_of chunks start run trace now) m why }
{}
