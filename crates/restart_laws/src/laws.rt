//! A law is the contract of a function with an empty body.
ghost use Rattle.std.specs.Prelude.{◌≡◌, ℕ, List, Option, IsTrue, Ok};
ghost use Rattle.txn_model.specs.declared.ran.Ran.{Ran};
ghost use Rattle.cluster_core.specs.Nodes.{Nodes};
ghost use Rattle.fit_laws.specs.Bytes.{AreOfBytes, AreOnConnections};
ghost use Rattle.play_steps.specs.Player.{Player};
ghost use Rattle.cluster_play.specs.Ended.{AreStarted};
ghost use Rattle.cluster_play.specs.Plays.{PlaysTo, ran_of};
ghost use Rattle.cluster_play.specs.Schedule.{Schedule, schedule_of, player_of};
ghost use Rattle.restart_laws.specs.Restarts.{RestartsFit};

use outside_core::Disk;

/// What is played of a schedule brings bytes of clients, each on a connection whose number has 32
/// bits, whatever its lines are.
pub fn what_is_played_brings_bytes<D: Disk>()
    ensures { let told : Type 0 = (d : D) → IsTrue (D.tells d) in
        (schedule : Schedule) (start : Nodes) (items : List (Option Ran)) (text : List ℕ)
        (q : Player) (behind : Nodes)
        → PlaysTo told schedule.conf.map (player_of schedule) start items text q behind
        → AreOfBytes (ran_of items) × AreOnConnections (ran_of items) }
{}

/// So where a schedule over one shard is played on disks that tell what they hold, each record of
/// the shard fits its bytes whenever it is started again.
pub fn records_of_one_shard_fit_at_restarts<D: Disk>()
    ensures { let told : Type 0 = (d : D) → IsTrue (D.tells d) in
        (lines : List (List ℕ)) (schedule : Schedule) (start : Nodes) (items : List (Option Ran))
        (text : List ℕ) (q : Player) (behind : Nodes) → told → schedule_of lines ≡ Ok schedule
        → schedule.conf.shards ≡ 1 → AreStarted told schedule.conf start
        → (h : PlaysTo told schedule.conf.map (player_of schedule) start items text q behind)
        → RestartsFit told schedule.conf.map (player_of schedule) start items text q behind h }
{}
