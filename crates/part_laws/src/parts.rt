//! The same laws of a shard's part: what is said to its messages, and what they leave.
ghost use Rattle.std.specs.Prelude.{◌≡◌, ◌≤◌, ◌++◌, ◌∷◌, [], ℕ, List, Some, None};
ghost use Rattle.txn_types.specs.declared.message.Abort.{Abort};
ghost use Rattle.txn_types.specs.declared.message.Commit.{Commit};
ghost use Rattle.txn_types.specs.declared.message.Decide.{Decide};
ghost use Rattle.txn_types.specs.declared.message.Prepare.{Prepare};
ghost use Rattle.txn_types.specs.declared.message.Recover.{Recover};
ghost use Rattle.txn_types.specs.declared.message.Statement.{Statement};
ghost use Rattle.txn_types.specs.declared.names.Tag.{Tag};
ghost use Rattle.txn_types.specs.declared.node.Lsid.{Lsid};
ghost use Rattle.txn_semantics.specs.declared.commits.Entry.{Entry};
ghost use Rattle.participant.specs.Part.{Part};
ghost use Rattle.participant.specs.Abort.{abort};
ghost use Rattle.participant.specs.Commit.{commit};
ghost use Rattle.participant.specs.Decide.{decide};
ghost use Rattle.participant.specs.Expiry.{expire};
ghost use Rattle.participant.specs.Memory.{ended_for_memory};
ghost use Rattle.participant.specs.Prepare.{prepare};
ghost use Rattle.participant.specs.Recover.{recover};
ghost use Rattle.participant.specs.Statement.{statement};
ghost use Rattle.part_laws.specs.Each.{Each};
ghost use Rattle.part_laws.specs.Sound.{Opened, Opens, with_opened, Served};
ghost use Rattle.part_laws.specs.Steps.{decided_at, entry_of};
ghost use Rattle.part_laws.specs.Parts.{IsServing, Holds, HoldsBut};
ghost use Rattle.part_laws.specs.Kept.{Commits, Prepares, IsDecided};
ghost use Rattle.part_laws.specs.Turned.{Turned, Comes};
ghost use Rattle.part_laws.specs.Start.{first_part, none_open, prepared_ones, Restarts};

/// A statement leaves what holds of the part, with itself among what was served where it was done
/// or its meaning refused it, and nothing else there; and what is said to be done was served so, in
/// this boot.
pub fn a_statement_is_right()
    ensures { (p : Part) (opens : Opens) (last : ℕ) (entries : List Entry) (served : List Served)
        → IsServing p opens last entries served
        → (m : Statement) → Comes p opens last entries served m → (wall : ℕ)
        → Turned p opens last entries served m (statement p last wall m) }
{}

/// A commit leaves it, with the entry of its record among the commits, which holds what its
/// transaction's statements wrote in this boot; without a record with the same commits.
pub fn a_commit_is_right()
    ensures { (p : Part) (last : ℕ) (entries : List Entry) (served : List Served) (opens : Opens)
        → IsServing p opens last entries served
        → (wall : ℕ) (m : Commit) → Commits opens last entries served (commit p last wall m) }
{}

/// What ends live transactions leaves it, with the same commits; and so does a clock that goes on.
pub fn ends_are_right()
    ensures abort { (p : Part) (last : ℕ) (entries : List Entry) (served : List Served)
        (opens : Opens) → IsServing p opens last entries served → (m : Abort)
        → Holds opens (abort p m) last entries served }
    ensures recover { (p : Part) (last : ℕ) (entries : List Entry) (served : List Served)
        (opens : Opens) → IsServing p opens last entries served → (m : Recover)
        → Holds opens (recover p m).1 last entries served }
    ensures memory { (p : Part) (last : ℕ) (entries : List Entry) (served : List Served)
        (opens : Opens) → IsServing p opens last entries served → (lsid : Lsid) (tag : Tag)
        → Holds opens (ended_for_memory p lsid tag) last entries served }
    ensures expire { (p : Part) (opens : Opens) (last : ℕ) (entries : List Entry)
        (served : List Served) → IsServing p opens last entries served → (wall : ℕ)
        → Holds opens (expire p wall) last entries served }
    ensures clock { (p : Part) (opens : Opens) (last : ℕ) (entries : List Entry)
        (served : List Served) → IsServing p opens last entries served → (later : ℕ) → last ≤ later
        → IsServing p opens later entries served }
{}

/// A prepare leaves it, and the transaction of its record stands prepared; the entry of a prepared
/// transaction may come to the commits at any time from its prepare timestamp on; and a decision
/// that is among the commits, or aborts, leaves it.
pub fn two_phases_are_right()
    ensures prepare { (p : Part) (last : ℕ) (entries : List Entry) (served : List Served)
        (opens : Opens) → IsServing p opens last entries served
        → (wall : ℕ) (m : Prepare) → Prepares opens last entries served (prepare p last wall m) }
    ensures enter { (p : Part) (opens : Opens) (last : ℕ) (before behind : List Entry)
        (served : List Served) → IsServing p opens last (before ++ behind) served
        → (tag : Tag) (o : Opened) (since at : ℕ) → opens tag ≡ Some o → o.prepared ≡ Some since
        → o.decided ≡ None → since ≤ at → Each (λ e. at ≤ e.at) behind
        → IsServing p (with_opened tag (Some (decided_at o at)) opens) last
        (before ++ entry_of tag o at ∷ behind) served }
    ensures decide { (p : Part) (last : ℕ) (entries : List Entry) (served : List Served)
        (opens : Opens) → IsServing p opens last entries served
        → (m : Decide) → IsDecided opens m
        → HoldsBut m.tag opens (decide p m).1 last entries served }
{}

/// It holds of a part at its first start.
pub fn the_first_part_is_right()
    ensures { (shard boot limit last : ℕ)
        → IsServing (first_part shard boot limit) none_open last [] [] }
{}

/// It holds of a part that starts again.
pub fn a_restart_is_right()
    ensures { (p q : Part) (opens : Opens) (last : ℕ) (entries : List Entry) (served : List Served)
        → IsServing p opens last entries served
        → Restarts p q → IsServing q (prepared_ones opens) last entries served }
{}
