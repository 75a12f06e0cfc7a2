//! Each event keeps what holds of a cluster's clocks, times and messages: a law is the contract of
//! a function with an empty body.
ghost use Rattle.std.specs.Prelude.{◌≡◌, [], ℕ, List, Some, All};
ghost use Rattle.chunk_map.specs.Map.{Map};
ghost use Rattle.shard_core.specs.NodeStep.{NodeState, started};
ghost use Rattle.txn_model.specs.declared.ran.Ran.{Ran};
ghost use Rattle.cluster_core.specs.Nodes.{Nodes};
ghost use Rattle.cluster_core.specs.Trace.{Happens, IsTrace, IsFresh};
ghost use Rattle.cluster_core.specs.Parts.{ClockBelowCeiling, ReadsBehind, TagsBegunOnce, CommitsRecorded};
ghost use Rattle.world_laws.specs.Clocks.{ClocksStand};
ghost use Rattle.world_laws.specs.Asking.{AllRoutersAsk};
ghost use Rattle.world_laws.specs.Joint.{Stands, DiskStands, DisksStand};
ghost use Rattle.world_laws.specs.ReadTimes.{ReadsStand, RoutersAsk};
ghost use Rattle.world_laws.specs.Begins.{AllBegunOnce};
ghost use Rattle.world_laws.specs.Recorded.{RecordsStand};
ghost use Rattle.world_laws.specs.Tags.{AllPlansNamed};
ghost use Rattle.world_laws.specs.Boots.{BootsStand};
ghost use Rattle.world_laws.specs.Above.{ResolvedStand, AllGrow};

/// A running shard's clock is at or below its last ceiling, after each event.
pub fn clocks_stay_below_their_ceilings()
    ensures step { (old : Nodes) (ran : Ran) (new : Nodes) → Happens old ran new → ClocksStand old
        → ClocksStand new }
    ensures part { (nodes : Nodes) → ClocksStand nodes → All ClockBelowCeiling nodes.shards }
{}

/// What a router sends, and what it waits for, is no message of a shard, at each event.
pub fn routers_ask_and_shards_tell()
    ensures step { (old : Nodes) (ran : Ran) (new : Nodes) → Happens old ran new → AllRoutersAsk old
        → AllRoutersAsk new }
    ensures sent { (old : Nodes) (ran : Ran) (new : Nodes) → Happens old ran new → AllRoutersAsk old
        → RoutersAsk ran }
{}

/// Each read timestamp that a shard answered, and each time in its records, is at or below its
/// clock while it runs and its last ceiling, after each event.
pub fn reads_stay_behind()
    ensures step { (old : Nodes) (ran : Ran) (new : Nodes) → Happens old ran new → AllRoutersAsk old
        → ClocksStand old → ReadsStand old → ReadsStand new }
    ensures part { (nodes : Nodes) → ReadsStand nodes → ReadsBehind nodes }
{}

/// What a shard coordinates was named by a message, after each event.
pub fn what_is_coordinated_was_named()
    ensures { (old : Nodes) (ran : Ran) (new : Nodes) → Happens old ran new → AllPlansNamed old
        → AllPlansNamed new }
{}

/// A tag stands for one begin at one router, after each event. What names it names one session and
/// number; its serial was drawn at its router; and a router begins one transaction for a session
/// and number in a boot. What a router has begun in this boot stands beside it: its session has it
/// still, or has gone on to a larger number.
pub fn tags_are_begun_once()
    ensures begun { (old : Nodes) (ran : Ran) (new : Nodes) → Happens old ran new
        → AllPlansNamed old → TagsBegunOnce old → AllBegunOnce old → AllBegunOnce new }
    ensures tags { (old : Nodes) (ran : Ran) (new : Nodes) → Happens old ran new → AllPlansNamed old
        → AllBegunOnce old → TagsBegunOnce old → TagsBegunOnce new }
{}

/// What is told as committed has its record: a vote with a time the record that prepares, and a
/// commit that was told its own record or its coordinator's decision, after each event. What
/// shards hold of it stands beside it.
pub fn what_is_told_is_recorded()
    ensures step { (old : Nodes) (ran : Ran) (new : Nodes) → Happens old ran new → RoutersAsk ran
        → ReadsStand old → ReadsStand new → RecordsStand old → RecordsStand new }
    ensures part { (nodes : Nodes) → RecordsStand nodes → CommitsRecorded nodes }
{}

/// No message has a boot above that of the shard that it is of, but for a token's, after each
/// event. What routers have of the shards that take part, and what shards coordinate and record,
/// stands beside it, with each shard's boot, which is that of its records.
pub fn boots_stay_behind()
    ensures { (old : Nodes) (ran : Ran) (new : Nodes) → Happens old ran new → ReadsStand old
        → BootsStand old → BootsStand new }
{}

/// What is resolved at a shard stays so, as far as it commits alone: at each event its records go
/// on, and each commit and each prepared transaction among the new ones is above what was resolved
/// there. That holds of a stopped shard that starts again with what it had in hand, too.
pub fn what_is_resolved_stays_so()
    ensures step { (old : Nodes) (ran : Ran) (new : Nodes) → Happens old ran new → ClocksStand old
        → ResolvedStand old → ResolvedStand new }
    ensures grows { (old : Nodes) (ran : Ran) (new : Nodes) → Happens old ran new → ClocksStand old
        → ResolvedStand old → AllGrow old new }
{}

/// All of this stands after each event, and so after each run, where it stood before. It stands
/// of nodes that have started where their disks' records have no time above their last ceiling,
/// begin no commit of several shards, and have the record of each commit that they apply; a new
/// disk's do.
pub fn each_run_keeps_what_stands()
    ensures step { (old : Nodes) (ran : Ran) (new : Nodes) → Happens old ran new → Stands old
        → Stands new }
    ensures run { (old : Nodes) (run : List Ran) (trace : List Nodes) (new : Nodes)
        → IsTrace old run trace new → Stands old → Stands new }
    ensures fresh { (chunks : Map) (nodes : Nodes) → IsFresh chunks nodes → DisksStand nodes
        → Stands nodes }
    ensures disk { (nodes : Nodes) (number faults : ℕ) (n : NodeState)
        → started number [] faults ≡ Some n → DiskStands nodes n.records }
{}
