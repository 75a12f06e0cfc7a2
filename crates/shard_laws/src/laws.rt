//! A law is the contract of a function with an empty body.
ghost use Rattle.std.specs.Prelude.{◌≡◌, ◌++◌, ◌∷◌, [], ℕ, Bool, List, map};
ghost use Rattle.txn_types.specs.declared.write.Write.{Write};
ghost use Rattle.txn_semantics.specs.declared.commits.Entry.{Entry};
ghost use Rattle.txn_semantics.specs.Found.{joined};
ghost use Rattle.txn_semantics.specs.Rows.{at};
ghost use Rattle.txn_semantics.specs.View.{view};
ghost use Rattle.txn_semantics.specs.Writes.{Place, write_set};
ghost use Rattle.shard_laws.specs.Shares.{stands_at, writes_at, entries_at, place_in, AreAmong, AllAmong, shares};

/// What stands here of a view is the view of what commits wrote here; of these, those that wrote
/// nothing may be left out. The shards' views, joined by id, are the view of all, where each of its
/// rows stands at one of them.
pub fn a_view_splits()
    ensures here { (here : Place → Bool) (entries : List Entry) (moment : ℕ) (ns : List ℕ) → at
        (λ id. here (ns, id)) (view entries moment ns) ≡ view (entries_at here entries) moment ns }
    ensures silent { (before behind : List Entry) (entry : Entry) (moment : ℕ) (ns : List ℕ)
        → entry.writes ≡ []
        → view (before ++ entry ∷ behind) moment ns ≡ view (before ++ behind) moment ns }
    ensures join { (shard_of : Place → ℕ) (shards : List ℕ) (entries : List Entry) (moment : ℕ)
        (ns : List ℕ) → AreAmong (place_in shard_of ns) shards (view entries moment ns)
        → joined [] (map (λ s. view (entries_at (stands_at shard_of s) entries) moment ns) shards)
        ≡ view entries moment ns }
{}

/// What stands here of a transaction's write set is the write set of what it wrote here. The
/// shards' shares of it make the write set of all, where each document that is written stands at
/// one of them.
pub fn a_write_set_splits()
    ensures here { (here : Place → Bool) (writes : List Write)
        → writes_at here (write_set writes) ≡ write_set (writes_at here writes) }
    ensures join { (shard_of : Place → ℕ) (shards : List ℕ) (writes : List Write)
        → AllAmong shard_of shards writes
        → write_set (shares shard_of shards writes) ≡ write_set writes }
{}
