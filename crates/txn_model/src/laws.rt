//! Laws of the definitions: a law is the contract of a function with an empty body.
ghost use Rattle.std.specs.Prelude.{◌≡◌, [], ◌∷◌, ◌++◌, ℕ, List, Some, slice_get, slice_set};
ghost use Rattle.std.specs.List.Sorted.{IsSorted};
ghost use Rattle.journal_rec.specs.declared.record.Rec.{Rec};
ghost use Rattle.txn_model.specs.Commits.{Journals, commits, entry_cmp, entry_of, in_order, AllNew, ChangesNone};

/// The list of commits stands in order.
pub fn commits_are_in_order()
    ensures { (journals : Journals) → IsSorted entry_cmp (commits journals) }
{}

/// A record that is added to one journal puts the commit that it makes into the list, and changes
/// no other commit: where none there has the time and tag of the new one, and a record that
/// prepares is of no transaction that committed.
pub fn a_record_puts_its_commit_in()
    ensures { (journals : Journals) (shard : ℕ) (recs : List Rec) (r : Rec)
        → slice_get journals shard ≡ Some recs → ChangesNone (commits journals) r
        → AllNew (commits journals) (entry_of journals recs r) → commits (slice_set journals shard
        (recs ++ r ∷ [])) ≡ in_order (commits journals) (entry_of journals recs r) }
{}
