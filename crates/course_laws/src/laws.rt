//! A law is the contract of a function with an empty body.
ghost use Rattle.std.specs.Prelude.{◌≡◌, ◌≢◌, ◌≤◌, ℕ, [], List, length, Option, Some, IsTrue};
ghost use Rattle.txn_types.specs.declared.event.NodeAnswer.{NodeAnswer};
ghost use Rattle.txn_types.specs.declared.event.NodeAnswer.TheVariants as answer;
ghost use Rattle.txn_types.specs.declared.event.NodeEvent.{NodeEvent};
ghost use Rattle.shard_core.specs.NodeStep.{NodeState, ShardTakes};
ghost use Rattle.chunk_map.specs.Map.{Map};
ghost use Rattle.router_state.specs.State.{RouterState};
ghost use Rattle.router_core.specs.Step.{RouterTakes};
ghost use Rattle.txn_model.specs.declared.ran.Ran.{Ran};
ghost use Rattle.cluster_core.specs.Nodes.{Nodes};
ghost use Rattle.play_steps.specs.declared.want.Want.{Want};
ghost use Rattle.play_steps.specs.Player.{Player};
ghost use Rattle.cluster_play.specs.declared.status.Status.{Status};
ghost use Rattle.cluster_play.specs.Ended.{Ended};
ghost use Rattle.cluster_play.specs.Plays.{Plays, PlaysTo};
ghost use Rattle.cluster_play.specs.Steps.{status_at};
ghost use Rattle.course_laws.specs.Unharmed.{IsUnharmed};
ghost use Rattle.course_laws.specs.Course.{AreUndisturbed, uncounted, items_uncounted, AreSame};
ghost use Rattle.course_laws.specs.Course.{HaveNothingInHand, AreRestored, GoesOn};
ghost use Rattle.course_laws.specs.Ends.{Ends, IsRestored, FoundBy};
ghost use Rattle.course_laws.specs.Clients.{AreOfClients, JudgedBy};

use outside_core::Disk;

/// What a node answers to an event, and how it is after it, is determined, where no append failed
/// and there was memory: but for the count of faults, which a shard's step doesn't go by.
pub fn a_node_takes_an_event_in_one_way()
    ensures shard { (before before' after after' : NodeState) (e : NodeEvent) (a a' : NodeAnswer)
        → uncounted before ≡ uncounted before' → ShardTakes before e a after
        → ShardTakes before' e a' after' → IsUnharmed a → IsUnharmed a'
        → (a ≡ a') × (uncounted after ≡ uncounted after') }
    ensures router { (before after after' : RouterState) (e : NodeEvent) (a a' : NodeAnswer)
        → RouterTakes before e a after → RouterTakes before e a' after' → a ≢ answer.Memory
        → a' ≢ answer.Memory → (a ≡ a') × (after ≡ after') }
{}

/// From the same nodes and the same player, of which nothing is asked yet, there is one course,
/// where nothing outside fails: of two playings the longer one goes on from the shorter one; and
/// two that come to where a status ends them are the same.
pub fn there_is_one_course<D: Disk>()
    ensures front { let told : Type 0 = (d : D) → IsTrue (D.tells d) in
        (chunks : Map) (p q q' : Player) (start start' : Nodes) (items items' : List (Option Ran))
        (text text' : List ℕ) (behind behind' : Nodes)
        → p.queue ≡ [] → AreSame start start' → HaveNothingInHand start
        → (h : PlaysTo told chunks p start items text q behind)
        → AreRestored told chunks p start items text q behind h → AreUndisturbed items
        → PlaysTo told chunks p start' items' text' q' behind' → AreUndisturbed items'
        → length items ≤ length items'
        → GoesOn told chunks items items' text text' q q' behind behind' }
    ensures whole { let told : Type 0 = (d : D) → IsTrue (D.tells d) in
        (chunks : Map) (p : Player) (start start' : Nodes) (last last' : Want) (s s' : Status)
        (items items' : List (Option Ran)) (text text' : List ℕ) (behind behind' : Nodes)
        → p.queue ≡ [] → AreSame start start' → HaveNothingInHand start
        → (h : Plays told chunks last p start items text behind)
        → AreRestored told chunks p start items h.front h.player behind h.turns
        → AreUndisturbed items
        → status_at last ≡ Some s
        → Plays told chunks last' p start' items' text' behind' → AreUndisturbed items'
        → status_at last' ≡ Some s' → (items_uncounted items ≡ items_uncounted items')
        × (text ≡ text') × AreSame behind behind' × (last ≡ last') }
{}

/// A schedule has one status over the same nodes, and one text, where nothing outside fails.
pub fn a_schedule_has_one_status<D: Disk>()
    ensures { let told : Type 0 = (d : D) → IsTrue (D.tells d) in
        (lines : List (List ℕ)) (start start' : Nodes) (text text' : List ℕ) (s s' : Status)
        → AreSame start start' → HaveNothingInHand start
        → (e : Ends told lines start text s) → IsRestored told lines start text s e
        → Ends told lines start' text' s'
        → (s ≡ s') × (text ≡ text') }
{}

/// So the status that a playing ended with, where nothing outside failed in it, is the schedule's:
/// over the nodes that it started from, and where disks tell what they hold, over any that start on
/// new disks. Over one shard that is so with any restarts.
pub fn the_status_that_was_found_is_the_only_one<D: Disk>()
    ensures { let told : Type 0 = (d : D) → IsTrue (D.tells d) in
        (lines : List (List ℕ)) (held held' : Option (List ℕ)) (s : Status)
        (w : Ended told lines held held' s) → FoundBy told lines held held' s w }
{}

/// Of a schedule whose lines are all of clients, the status tells of the lines: each asks something
/// and there are not too many; or which is the first that asks nothing; or there are too many, or a
/// settling has delivered all that it may.
pub fn what_a_status_says_of_clients_lines<D: Disk>()
    ensures { let told : Type 0 = (d : D) → IsTrue (D.tells d) in
        (lines : List (List ℕ)) (held held' : Option (List ℕ)) (s : Status)
        (w : Ended told lines held held' s) → AreOfClients lines
        → JudgedBy told lines held held' s w }
{}
