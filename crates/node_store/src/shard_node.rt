ghost use Rattle.std.specs.Prelude.{◌≡◌, ◌≤◌, [], false, Some, IsTrue, IfOk, IfErr};
ghost use Rattle.outcomes.specs.Causes.{Rose};
ghost use Rattle.shard_image.specs.Sound.{AreWritten};
ghost use Rattle.shard_core.specs.NodeStep.{ShardTakes, resolved_at, started};
ghost use Rattle.shard_core.specs.Steps.{answer_by};
ghost use Rattle.record_store.specs.Logged.{listed, LeftOf};
ghost use Rattle.node_store.specs.Starts.{RefusesRecords, RefusesStart, StartsFrom};

use crate::appending::{append_all, payload_of};
use crate::booting::boot;
use journal_rec::Rec;
use machine::Machine;
use outside_core::{Disk, DiskErr};
use record_store::{DiskLog, NodeErr, RecordLog};
use shard_core::{Journalled, Outbox, Shard, Step, StepErr};
use std::alloc::{AllocError, Global};
use std::marker::Model;
use txn_types::{NodeAnswer, NodeEvent, Ts};
use version_store::Held;

/// A shard's node: its core, the log of its records, and what was resolved before a step whose
/// append failed.
#[derive(Drop)]
pub struct ShardNode<L: RecordLog> {
    alloc: Global,
    core: Shard,
    log: L,
    settled: Option<Ts>,
}

impl<L: RecordLog> Model for ShardNode<L> {
    ghost use Rattle.std.specs.Coded.{codes};
    ghost use Rattle.bson_core.specs.contracts.value.Value as value;
    ghost use Rattle.node_store.specs.Nodes.{ShardOn, IsNode};

    ghost Value = { ShardOn L };

    ghost coded = { Prim.hlevel (codes, L.code, value.the_row.coded) };

    ghost view = { λ n. record {
      node = record {
        core = n.core;
        records = L.kept n.log;
        hand = L.lost n.log;
        settled = n.settled;
        faults = L.fault_count n.log;
      };
      log = n.log;
    } };

    ghost invariant = { λ n. IsNode n.core (L.is_closed n.log) };
}

/// What is given out, or that a key is held.
fn answer_of(out: Outbox, held: Option<Held>) -> NodeAnswer
    ensures { result ≡ answer_by out held }
{
    match held {
        None => NodeAnswer::Did {
            out: out.envelopes,
            replies: out.replies,
            closed: out.closed,
        },
        Some(held) => NodeAnswer::Blocked {
            id: held.id,
            tag: held.tag,
            ts: held.ts,
        },
    }
}

/// Stops the shard whose log has failed.
fn stop<L: RecordLog>(core: &mut Shard, log: &L)
    ensures { core.new ≡ record core.old { stopped = Some (L.fault_count log.now) } }
{
    core.stop(log.faults());
}

impl<L: RecordLog> ShardNode<L> {
    /// Starts the shard of this number from the records of a log, to which the record of the next
    /// boot is appended. A refusal gives the log back.
    pub fn over(alloc: Global, shard: u16, log: L) -> Result<ShardNode<L>, (NodeErr, L)>
        requires written { AreWritten (L.kept log) }
        requires open { L.is_closed log ≡ false }
        requires lost { L.lost log ≡ [] }
        ensures starts { IfOk result (λ n. started shard (L.kept log) n.node.faults ≡ Some n.node) }
        ensures refused { IfErr result (λ e. RefusesRecords (L.kept log) e.0) }
        ensures later { IfOk result (λ n. L.fault_count log ≤ n.node.faults) }
        ensures fault { IfErr result (λ e.
            e.0 ≡ NodeErr.DiskFault → Rose (L.fault_count log) (L.fault_count e.1)) }
    {
        let mut log = log;
        match boot(alloc, &mut log) {
            Ok(image) => Ok(ShardNode {
                alloc,
                core: Shard::of(alloc, shard, image),
                log,
                settled: None,
            }),
            Err(error) => Err((error, log)),
        }
    }

    /// What is resolved at the shard, below which no commit comes any more; after a step whose
    /// append failed, what was resolved before it.
    pub fn resolved(&self) -> Ts
        ensures { result ≡ resolved_at self.now.node }
    {
        match self.settled {
            Some(at) => at,
            None => self.core.resolved(),
        }
    }
}

impl<L: RecordLog> Machine for ShardNode<L> {
    type Event = NodeEvent;

    type Answer = NodeAnswer;

    ghost takes = { λ old e a new. ShardTakes old.node e a new.node };

    fn take(&mut self, event: &NodeEvent) -> NodeAnswer {
        let Ok(mut payload) = payload_of(self.alloc, &self.core, &event.what) else {
            return NodeAnswer::Memory;
        };
        if self.log.reserve(2).is_err() {
            return NodeAnswer::Memory;
        }
        let settled = self.core.resolved();
        let mut out = Outbox::new(self.alloc);
        match self.core.step(event, &mut out) {
            Err(StepErr::Memory) => NodeAnswer::Memory,
            Err(StepErr::Stopped) => NodeAnswer::Stopped,
            Ok(
                Step {
                    ceiling,
                    then,
                    held,
                },
            ) => match append_all(&mut self.log, &mut payload, ceiling, then) {
                Ok(()) => answer_of(out, held),
                Err(DiskErr::Failed) => {
                    stop(&mut self.core, &self.log);
                    self.settled = Some(settled);
                    NodeAnswer::DiskFault
                }
            },
        }
    }

    fn copy_event(alloc: Global, event: &NodeEvent) -> Result<NodeEvent, AllocError> {
        event.copy(alloc)
    }
}

impl<L: RecordLog> Journalled for ShardNode<L> {
    ghost state = { λ n. n.node };

    fn shard(&self) -> &Shard {
        &self.core
    }

    fn records(&self) -> &[Rec] {
        self.log.records()
    }

    fn faults(&self) -> u64 {
        self.log.faults()
    }

    ghost steps = { λ old new e a h. h };
}

impl<D: Disk> ShardNode<DiskLog<D>> {
    /// Starts the shard of this number from the journal on a disk. A refusal gives the disk back;
    /// what the start has appended by then stays.
    pub fn start(alloc: Global, shard: u16, disk: D) -> Result<ShardNode<DiskLog<D>>, (NodeErr, D)>
        ensures starts { IfOk result
            (λ n. StartsFrom shard (IsTrue (D.tells disk)) (D.seen disk) n.node) }
        ensures refused { IfErr result
            (λ e. RefusesStart (IsTrue (D.tells disk)) (D.seen disk) e.0) }
        ensures later { IfOk result (λ n. D.fault_count disk ≤ n.node.faults) }
        ensures fault { IfErr result (λ e.
            e.0 ≡ NodeErr.DiskFault → Rose (D.fault_count disk) (D.fault_count e.1)) }
    {
        match DiskLog::start(alloc, disk) {
            Ok(log) => match ShardNode::over(alloc, shard, log) {
                Ok(node) => Ok(node),
                Err((error, log)) => Err((error, log.into_disk())),
            },
            Err(refused) => Err(refused),
        }
    }

    /// The disk, to start again. A crash leaves the node's records, or these and the one in hand.
    pub fn into_disk(self) -> D
        ensures disk { result ≡ self.log.journal.disk }
        ensures faults { D.fault_count result ≡ self.node.faults }
        ensures hand { self.node.hand ≡ listed self.log.hand }
        ensures left { IsTrue (D.tells result)
            → LeftOf (D.may_leave result) self.node.records self.log.hand }
    {
        let ShardNode { log, .. } = self;
        log.into_disk()
    }
}
