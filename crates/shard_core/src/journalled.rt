//! A node that is a shard.
ghost use Rattle.std.specs.Prelude.{◌≡◌};
ghost use Rattle.txn_types.specs.declared.event.NodeAnswer.{NodeAnswer as Answer};
ghost use Rattle.txn_types.specs.declared.event.NodeEvent.{NodeEvent as Event};
ghost use Rattle.shard_core.specs.NodeStep.{NodeState, ShardTakes};

use crate::shard::Shard;
use journal_rec::Rec;
use machine::Machine;
use txn_types::{NodeAnswer, NodeEvent};

/// A machine that is a shard's node: its core, and a journal that holds a step's records before
/// anything is given out.
pub trait Journalled: Machine<Event = NodeEvent, Answer = NodeAnswer> {
    /// The core, the journal's records and those in hand, what was resolved before the step that
    /// failed, and the count of the disk's faults.
    ghost state: { Self → NodeState };

    /// The core.
    fn shard(&self) -> &Shard
        ensures { result.now ≡ (state self.now).core };

    /// The records of the journal, in their order; after an append that failed, those before it.
    fn records(&self) -> &[Rec]
        ensures { result.now ≡ (state self.now).records };

    /// How often the disk has failed; 0 where there is none.
    fn faults(&self) -> u64
        ensures { result ≡ (state self.now).faults };

    /// Each `take` is a step of the core, and then the appends of its ceiling and of its record, or
    /// the first that fails.
    ghost steps: { (old new : Self) (event : Event) (answer : Answer) → Self.takes old event answer new → ShardTakes (state old) event answer (state new) };
}
