//! Laws of a shard's step, its records and its node: a law is the contract of a function with an
//! empty body.
ghost use Rattle.std.specs.Prelude.{◌≡◌, ◌<◌, ◌^◌, ◌++◌, ℕ, List, [], Some, None};
ghost use Rattle.txn_types.specs.declared.event.NodeAnswer.{NodeAnswer};
ghost use Rattle.txn_types.specs.declared.event.NodeEvent.{NodeEvent};
ghost use Rattle.journal_rec.specs.Follows as journal;
ghost use Rattle.journal_rec.specs.declared.record.Rec.{Rec};
ghost use Rattle.shard_image.specs.Sound.{AreWritten};
ghost use Rattle.shard_core.specs.State.{ShardState};
ghost use Rattle.shard_core.specs.Core.{Room, core_step};
ghost use Rattle.shard_core.specs.NodeStep.{NodeState, appends_of, joined, Failed, ShardTakes, started};
ghost use Rattle.shard_core.specs.Laws.{IsClock, HasTimes, NamesTimes, Fits};
ghost use Rattle.durable_laws.specs.Fitting.{AreOrdered};
ghost use Rattle.durable_laws.specs.Backed.{IsShard, IsBacked, kept_state, lost_state, IsFoundAgain, IsDurableNode, IsLeft, left_state};

use shard_core::laws::a_record_can_follow;

/// A shard's part stays of one piece after each step, whatever the event names: statement, commit,
/// preparation, decision, abort, recovery, expiry, or out of memory that is told.
pub fn a_step_keeps_its_part()
    ensures { (room : Room) (s : ShardState) (e : NodeEvent) → IsShard s
        → IsShard (core_step room s e).core }
{}

/// What a shard's records hold of it stays so after each step, with all that it appends, whatever
/// the event names; and the writes of what it appends rise.
pub fn a_step_is_durable()
    ensures backed { (room : Room) (s : ShardState) (e : NodeEvent) (recs : List Rec)
        → IsBacked recs s
        → IsBacked (recs ++ joined (appends_of (core_step room s e))) (core_step room s e).core }
    ensures written { (room : Room) (s : ShardState) (e : NodeEvent) (recs : List Rec)
        → IsBacked recs s → AreWritten (joined (appends_of (core_step room s e))) }
{}

/// Where an append fails, the records then hold the state before the step, or that with the step's
/// ceiling where the ceiling's append was made; with the records in hand they hold the state with
/// the step's ceiling, where its record was still to follow, or else the state after the step.
pub fn a_failed_append_is_durable()
    ensures { (old : NodeState) (e : NodeEvent) (room : Room) (a : NodeAnswer) (new : NodeState)
        (f : Failed old (core_step room old.core e) a new) → IsBacked old.records old.core
        → IsBacked new.records (kept_state old.core (core_step room old.core e) f.kept) × IsBacked
        (new.records ++ new.hand) (lost_state old.core (core_step room old.core e) f.rest) }
{}

/// A start finds the shard again: from records that hold a state it leaves what outlives a stop of
/// that state, with the next boot and the clock at the last ceiling. Whatever records it takes, its
/// own hold its state, which is of one piece. It takes an empty journal.
pub fn a_start_is_durable()
    ensures found { (shard : ℕ) (recs : List Rec) (faults : ℕ) (n : NodeState) (s : ShardState)
        → IsBacked recs s → started shard recs faults ≡ Some n → IsFoundAgain s n.core }
    ensures backed { (shard : ℕ) (recs : List Rec) (faults : ℕ) (n : NodeState) → AreWritten recs
        → started shard recs faults ≡ Some n → IsBacked n.records n.core }
    ensures first { (shard faults : ℕ) → (n : NodeState) × (started shard [] faults ≡ Some n)
        × IsBacked n.records n.core }
{}

/// A node keeps it: what it takes leaves a durable node, stopped or not; a start makes one; and
/// where what a stop of the machine left of one is started again, the new node is durable and finds
/// again the state that these records hold. After a step of a node that ran that is the state
/// after the step, or, where an append failed, that of the appends made.
pub fn a_node_is_durable()
    ensures takes { (old : NodeState) (e : NodeEvent) (a : NodeAnswer) (new : NodeState)
        → ShardTakes old e a new → IsDurableNode old → IsDurableNode new }
    ensures starts { (shard : ℕ) (recs : List Rec) (faults : ℕ) (n : NodeState) → AreWritten recs
        → started shard recs faults ≡ Some n → IsDurableNode n }
    ensures again { (n : NodeState) (recs : List Rec) (shard faults : ℕ) (m : NodeState)
        → IsDurableNode n → IsLeft n recs → started shard recs faults ≡ Some m
        → IsDurableNode m × ((s : ShardState) × IsBacked recs s × IsFoundAgain s m.core) }
    ensures crash { (old : NodeState) (e : NodeEvent) (a : NodeAnswer) (new : NodeState)
        (t : ShardTakes old e a new) → IsDurableNode old → old.core.stopped ≡ None
        → (recs : List Rec) (left : IsLeft new recs) (shard faults : ℕ) (m : NodeState)
        → started shard recs faults ≡ Some m
        → IsFoundAgain (left_state old (core_step t.0 old.core e) a new recs t.1 left) m.core }
{}

/// Records that hold a shard's state, each of which could follow those before it, fit the state:
/// its next record can follow them, where no time among them and no vote is above the clock.
pub fn records_fit_their_shard()
    ensures { (recs : List Rec) (s : ShardState) → IsBacked recs s → AreOrdered recs s
        → Fits (journal.ledger_of recs) s }
{}

/// What a step appends can follow the records that hold the shard's state, where its clock is at or
/// below the ceiling and a message that is delivered names no time above that of its envelope.
pub fn a_step_is_followed()
    ensures { (room : Room) (s : ShardState) (e : NodeEvent) (recs : List Rec) → IsBacked recs s
        → AreOrdered recs s → IsClock s.clock → s.wall < 2 ^ 32 → e.wall < 2 ^ 32
        → HasTimes e.what → NamesTimes e.what
        → journal.first_refused (recs ++ joined (appends_of (core_step room s e))) ≡ None }
{
    a_record_can_follow()
}
