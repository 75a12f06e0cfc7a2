//! A law is the contract of a function with an empty body.
ghost use Rattle.std.specs.Prelude.{ℕ, List, Option, IsTrue};
ghost use Rattle.cluster_play.specs.declared.status.Status.{Status};
ghost use Rattle.cluster_play.specs.Ended.{Ended};
ghost use Rattle.played_laws.specs.Throughout.{RightBy};

use outside_core::Disk;

/// What was played of a schedule whose disks tell what they hold: after every event, what clients
/// of one shard were answered by then is right against the list of commits as it was then, with
/// any restarts of routers and of the shard. On several shards what is shown of a cluster of any
/// number of them holds after every event; of their restarts, where their records fit their bytes.
/// So it is wherever the playing ended: at the schedule's end, its first bad line, too much, a node
/// that doesn't start again, a fault of the output or the want of memory.
pub fn what_is_played_is_right_throughout<D: Disk>()
    ensures { (lines : List (List ℕ)) (held held' : Option (List ℕ)) (ending : Status)
        (w : Ended ((d : D) → IsTrue (D.tells d)) lines held held' ending)
        → RightBy ((d : D) → IsTrue (D.tells d)) lines held held' ending w }
{}
