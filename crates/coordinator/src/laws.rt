//! Laws of two-phase commit: a law is the contract of a function with an empty body.
ghost use Rattle.std.specs.Prelude.{◌≡◌, ℕ, List, [], ◌∷◌, Some, false, true, nat_eq, nat_le, Result, IsSomeAnd};
ghost use Rattle.std.specs.List.{list_any, list_all};
ghost use Rattle.txn_types.specs.Order.{same_tag};
ghost use Rattle.txn_types.specs.declared.cause.Cause.{Cause};
ghost use Rattle.txn_types.specs.declared.decision.Decision.{Decision as AnyDecision};
ghost use Rattle.txn_types.specs.declared.names.Tag.{Tag};
ghost use Rattle.coordinator.specs.declared.plan.Plan.{Plan as AnyPlan};
ghost use Rattle.coordinator.specs.Decisions.{Ballot, heard, first_votes, outcome};
ghost use Rattle.coordinator.specs.TwoPhase.{Coordinated, Coordinations, coordinated_of, undecided, greatest, started, asked, voted, acked, is_last_ack};

/// Of all votes that reach a coordinator the first of each participant decide: the first that
/// refuses aborts, and where all are timestamps the transaction commits at the greatest.
pub fn first_votes_decide()
    ensures { (plan : AnyPlan) (ballots : List Ballot)
        → (heard ballots (undecided plan)).decision ≡ outcome plan (first_votes plan [] ballots) }
{}

/// No vote is above the greatest, and one is at it.
pub fn greatest_is_greatest()
    ensures most { (votes : List (ℕ × ℕ))
        → list_all (λ vote. nat_le vote.1 (greatest votes)) votes ≡ true }
    ensures one { (vote : ℕ × ℕ) (votes : List (ℕ × ℕ))
        → list_any (λ other. nat_eq other.1 (greatest (vote ∷ votes))) (vote ∷ votes) ≡ true }
{}

/// A decision that stands never changes: no vote and no question changes anything, and until the
/// transaction is forgotten an acknowledgement leaves the decision.
pub fn a_decision_stands()
    ensures votes { (tag : Tag) (shard : ℕ) (vote : Result ℕ Cause) (c : Coordinated)
        (coords : Coordinations) (d : AnyDecision) → c.decision ≡ Some d
        → voted tag shard vote c coords ≡ coords }
    ensures questions { (tag : Tag) (router : ℕ) (c : Coordinated) (coords : Coordinations)
        (d : AnyDecision) → c.decision ≡ Some d → asked tag router c coords ≡ coords }
    ensures acks { (tag : Tag) (shard : ℕ) (c : Coordinated) (coords : Coordinations)
        (d : AnyDecision) → c.decision ≡ Some d → coordinated_of coords tag ≡ Some c
        → is_last_ack shard c ≡ false
        → IsSomeAnd (coordinated_of (acked tag shard c coords) tag)
        (λ after. after.decision ≡ Some d) }
{}

/// What happens to one transaction leaves all others.
pub fn others_are_left()
    ensures starts { (tag other : Tag) (plan : AnyPlan) (coords : Coordinations)
        → same_tag tag other ≡ false
        → coordinated_of (started tag plan coords) other ≡ coordinated_of coords other }
    ensures questions { (tag other : Tag) (router : ℕ) (c : Coordinated) (coords : Coordinations)
        → same_tag tag other ≡ false
        → coordinated_of (asked tag router c coords) other ≡ coordinated_of coords other }
    ensures votes { (tag other : Tag) (shard : ℕ) (vote : Result ℕ Cause)
        (c : Coordinated) (coords : Coordinations) → same_tag tag other ≡ false
        → coordinated_of (voted tag shard vote c coords) other ≡ coordinated_of coords other }
    ensures acks { (tag other : Tag) (shard : ℕ) (c : Coordinated) (coords : Coordinations)
        → same_tag tag other ≡ false
        → coordinated_of (acked tag shard c coords) other ≡ coordinated_of coords other }
{}
