ghost use Rattle.std.specs.Prelude.{◌≡◌, ◌≤◌, [], None, false, IsTrue, IfOk, IfErr};
ghost use Rattle.outcomes.specs.Causes.{Rose};
ghost use Rattle.record_store.specs.Logged.{LeftOf};
ghost use Rattle.router_core.specs.Step.{RouterTakes};
ghost use Rattle.router_store.specs.Boots.{AreBoots, RefusesBoots, RefusesRouter};
ghost use Rattle.router_store.specs.Routers.{Boots, StartsFrom};

use crate::booting::boot;
use chunk_map::ChunkMap;
use journal_rec::Rec;
use machine::Machine;
use outside_core::Disk;
use record_store::{DiskLog, NodeErr, RecordLog};
use router_core::{Router, Routing};
use std::alloc::{AllocError, Global};
use std::marker::Model;
use txn_types::{NodeAnswer, NodeEvent};

/// A router's node: its core, and the log of its boots.
#[derive(Drop)]
pub struct RouterNode<L: RecordLog> {
    router: Router,
    log: L,
}

impl<L: RecordLog> Model for RouterNode<L> {
    ghost use Rattle.std.specs.Prelude.{◌≡◌, []};
    ghost use Rattle.std.specs.Coded.{codes};
    ghost use Rattle.bson_core.specs.contracts.value.Value as value;
    ghost use Rattle.txn_types.specs.contracts.filter.Filter as filter;
    ghost use Rattle.router_store.specs.Boots.{AreBoots};
    ghost use Rattle.router_store.specs.Routers.{RouterOn};

    ghost Value = { RouterOn L };

    ghost coded = { Prim.hlevel (codes, L.code, value.the_row.coded, filter.the_row.coded) };

    ghost view = { λ n. record {
      router = n.router;
      records = L.kept n.log;
      log = n.log;
    } };

    ghost invariant = { λ n. AreBoots (L.kept n.log) n.router.boot × (L.lost n.log ≡ []) };
}

impl<L: RecordLog> RouterNode<L> {
    /// Starts the router of this number after the records of a log, to which the record of the
    /// next boot is appended. It sends by the map. No append to the log has failed. A refusal gives
    /// the log back.
    pub fn over(
        alloc: Global,
        router: u16,
        map: ChunkMap,
        log: L,
    ) -> Result<RouterNode<L>, (NodeErr, L)>
        requires open { L.is_closed log ≡ false }
        requires whole { L.lost log ≡ [] }
        ensures boots { IfOk result (λ n. Boots router map (L.kept log) n.router n.records) }
        ensures refused { IfErr result (λ e. RefusesBoots (L.kept log) e.0) }
        ensures fault { IfErr result (λ e.
            e.0 ≡ NodeErr.DiskFault → Rose (L.fault_count log) (L.fault_count e.1)) }
    {
        let mut log = log;
        match boot(alloc, &mut log) {
            Ok(boot) => Ok(RouterNode {
                router: Router::of(alloc, router, boot, map),
                log,
            }),
            Err(error) => Err((error, log)),
        }
    }

    /// The records of its journal, in their order.
    pub fn records(&self) -> &[Rec]
        ensures { result.now ≡ self.now.records }
    {
        self.log.records()
    }
}

impl<L: RecordLog> Machine for RouterNode<L> {
    type Event = NodeEvent;

    type Answer = NodeAnswer;

    ghost takes = { λ old e a new. RouterTakes old.router e a new.router × (new.records ≡ old.records) };

    #[tactic(auto, unfolding(router_core::specs::Step::router_step))]
    fn take(&mut self, event: &NodeEvent) -> NodeAnswer {
        match self.router.step(event) {
            Ok(turn) => NodeAnswer::Did {
                out: turn.out,
                replies: turn.replies,
                closed: turn.closed,
            },
            Err(AllocError) => NodeAnswer::Memory,
        }
    }

    fn copy_event(alloc: Global, event: &NodeEvent) -> Result<NodeEvent, AllocError> {
        event.copy(alloc)
    }
}

impl<L: RecordLog> Routing for RouterNode<L> {
    ghost state = { λ n. n.router };

    fn router(&self) -> &Router {
        &self.router
    }

    ghost steps = { λ old new e a h. h.0 };
}

impl<D: Disk> RouterNode<DiskLog<D>> {
    /// Starts the router of this number from the journal on a disk. A refusal gives the disk back;
    /// what the start has appended by then stays.
    pub fn start(
        alloc: Global,
        router: u16,
        map: ChunkMap,
        disk: D,
    ) -> Result<RouterNode<DiskLog<D>>, (NodeErr, D)>
        ensures starts { IfOk result (λ n.
            StartsFrom router map (IsTrue (D.tells disk)) (D.seen disk) n.router n.records) }
        ensures refused { IfErr result (λ e.
            RefusesRouter (IsTrue (D.tells disk)) (D.seen disk) e.0) }
        ensures fault { IfErr result (λ e.
            e.0 ≡ NodeErr.DiskFault → Rose (D.fault_count disk) (D.fault_count e.1)) }
    {
        match DiskLog::start(alloc, disk) {
            Ok(log) => match RouterNode::over(alloc, router, map, log) {
                Ok(node) => Ok(node),
                Err((error, log)) => Err((error, log.into_disk())),
            },
            Err(refused) => Err(refused),
        }
    }

    /// The disk, to start again. A crash leaves the node's records, which are its boots.
    pub fn into_disk(self) -> D
        ensures disk { result ≡ self.log.journal.disk }
        ensures boots { AreBoots self.records self.router.boot }
        ensures whole { self.log.hand ≡ None }
        ensures left { IsTrue (D.tells result)
            → LeftOf (D.may_leave result) self.records self.log.hand }
    {
        let RouterNode { log, .. } = self;
        log.into_disk()
    }
}
