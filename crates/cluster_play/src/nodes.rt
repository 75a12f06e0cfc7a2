//! Nodes and their disks.
ghost use Rattle.std.specs.Prelude.{◌≡◌, ◌<◌, ◌≤◌, ◌+◌, ◌-◌, ◌++◌, ◌∷◌, [], length, IsTrue, IfOk, IfErr, OnOk, OnErr, vec_len, vec_capacity};
ghost use Rattle.router_state.specs.State.{fresh_router};
ghost use Rattle.shard_core.specs.NodeStep.{started};
ghost use Rattle.cluster_play.specs.Ended.{place_of, AreStarted};
ghost use Rattle.cluster_play.specs.Starting.{IsStarted, AllStarted, IsBooted, AllBooted, shard_states, router_states, shard_disks, router_disks, behind_shards, IsLone};
ghost use Rattle.cluster_play.specs.Steps.{nodes_of, status_of, IsStartErr};
ghost use Rattle.cluster_play.specs.Refusing.{IsYoung, RefusesFirst, Replaced, TakenOut, AreYoung, after_shards, after_routers, ShardRefused, RouterRefused, StopsAt, RefusesStarts, AllYoung};

use crate::disks::{put_in, put_routers, put_shards};
use crate::status::Status;
use chunk_map::ChunkMap;
use cluster_conf::{Conf, ROUTERS_AT};
use node_store::ShardNode;
use outside_core::Disk;
use record_store::{DiskLog, NodeErr};
use router_store::RouterNode;
use std::alloc::Global;
use txn_types::NodeId;

/// A journal's header has so many bytes; until old disks are served, a disk that a node is first
/// started from has no more.
const HEADER: u64 = 17;

/// All nodes of a cluster.
pub struct Nodes<D: Disk> {
    pub shards: Vec<ShardNode<DiskLog<D>>>,
    pub routers: Vec<RouterNode<DiskLog<D>>>,
}

/// The status of a start that was refused.
pub fn status_of(error: NodeErr, disk: u16) -> Status
    ensures { result ≡ status_of error disk }
{
    match error {
        NodeErr::DiskFault => Status::DiskFault { disk },
        NodeErr::BadJournal { index } => Status::BadJournal { disk, index },
        NodeErr::Memory => Status::Memory,
    }
}

/// The place of a node's disk among those handed in.
pub fn place_of(node: NodeId) -> u16
    requires { place_of node < 24 }
    ensures { result ≡ place_of node }
{
    match node {
        NodeId::Shard(shard) => shard,
        NodeId::Router(router) => ROUTERS_AT as u16 + router,
    }
}

/// Why a first start isn't made from a disk.
fn check_new<D: Disk>(disk: &mut D) -> Result<(), NodeErr>
    ensures new { OnOk result (IsTrue (D.tells disk.new) → length (D.seen disk.new) ≤ 17) }
    ensures young { OnOk result (IsYoung (IsTrue (D.tells disk.old)) (D.seen disk.old)) }
    ensures later { D.fault_count disk.old ≤ D.fault_count disk.new }
    ensures refused { IfErr result (λ e. RefusesFirst (IsTrue (D.tells disk.old)) D.seen
        D.fault_count e disk.old disk.new) }
{
    match disk.len() {
        Ok(length) => {
            if length > HEADER {
                return Err(NodeErr::BadJournal { index: 0 });
            }
            Ok(())
        }
        Err(_) => Err(NodeErr::DiskFault),
    }
}

/// Starts a shard from a new disk, or gives the disk back.
fn first_shard<D: Disk>(
    alloc: Global,
    shard: u16,
    disk: D,
) -> Result<ShardNode<DiskLog<D>>, (NodeErr, D)>
    ensures started { IfOk result
        (λ n. IsStarted ((d : D) → IsTrue (D.tells d)) shard n.node) }
    ensures young { OnOk result (IsYoung ((d : D) → IsTrue (D.tells d)) (D.seen disk)) }
    ensures refused { IfErr result (λ e. RefusesFirst ((d : D) → IsTrue (D.tells d)) D.seen
        D.fault_count e.0 disk e.1) }
{
    let mut disk = disk;
    match check_new(&mut disk) {
        Ok(()) => match ShardNode::start(alloc, shard, disk) {
            Ok(node) => Ok(node),
            Err(refused) => Err(refused),
        },
        Err(error) => Err((error, disk)),
    }
}

/// Starts a router from a new disk, or gives the disk back.
fn first_router<D: Disk>(
    alloc: Global,
    router: u16,
    map: ChunkMap,
    disk: D,
) -> Result<RouterNode<DiskLog<D>>, (NodeErr, D)>
    ensures booted { IfOk result
        (λ n. IsBooted ((d : D) → IsTrue (D.tells d)) map router n.router) }
    ensures young { OnOk result (IsYoung ((d : D) → IsTrue (D.tells d)) (D.seen disk)) }
    ensures refused { IfErr result (λ e. RefusesFirst ((d : D) → IsTrue (D.tells d)) D.seen
        D.fault_count e.0 disk e.1) }
{
    let mut disk = disk;
    match check_new(&mut disk) {
        Ok(()) => match RouterNode::start(alloc, router, map, disk) {
            Ok(node) => Ok(node),
            Err(refused) => Err(refused),
        },
        Err(error) => Err((error, disk)),
    }
}

impl<D: Disk> Nodes<D> {
    /// Starts the shard whose disk stands first among those that are left.
    fn start_shard(&mut self, alloc: Global, shard: u16, disks: &mut Vec<D>) -> Result<(), NodeErr>
        requires room { vec_len self.old.shards < vec_capacity self.old.shards }
        requires disk { 0 < vec_len disks.old }
        requires next { shard ≡ vec_len self.old.shards }
        requires started { AllStarted ((d : D) → IsTrue (D.tells d))
            (shard_states self.old.shards.items) }
        ensures started { AllStarted ((d : D) → IsTrue (D.tells d))
            (shard_states self.new.shards.items) }
        ensures more { OnOk result (vec_len self.new.shards ≡ vec_len self.old.shards + 1) }
        ensures same { OnErr result (vec_len self.new.shards ≡ vec_len self.old.shards) }
        ensures all { vec_len disks.new + vec_len self.new.shards
            ≡ vec_len disks.old + vec_len self.old.shards }
        ensures capacity { vec_capacity self.new.shards ≡ vec_capacity self.old.shards }
        ensures room { vec_capacity disks.old ≤ vec_capacity disks.new }
        ensures routers { self.new.routers ≡ self.old.routers }
        ensures disk { OnOk result (TakenOut
            (λ d. IsYoung ((d : D) → IsTrue (D.tells d)) (D.seen d))
            disks.old.items disks.new.items 0) }
        ensures why { IfErr result (λ e. Replaced (RefusesFirst ((d : D) → IsTrue (D.tells d))
            D.seen D.fault_count e) disks.old.items disks.new.items 0) }
    {
        match first_shard(alloc, shard, disks.remove(0)) {
            Ok(node) => {
                self.shards.push_reserved(node);
                Ok(())
            }
            Err((error, disk)) => {
                put_in(disks, 0, disk);
                Err(error)
            }
        }
    }

    /// Starts the router whose disk stands at this place among those that are left.
    fn start_router(
        &mut self,
        alloc: Global,
        router: u16,
        map: &ChunkMap,
        place: usize,
        disks: &mut Vec<D>,
    ) -> Result<(), NodeErr>
        requires room { vec_len self.old.routers < vec_capacity self.old.routers }
        requires disk { place < vec_len disks.old }
        requires next { router ≡ vec_len self.old.routers }
        requires booted { AllBooted ((d : D) → IsTrue (D.tells d)) map.now
            (router_states self.old.routers.items) }
        ensures booted { AllBooted ((d : D) → IsTrue (D.tells d)) map.now
            (router_states self.new.routers.items) }
        ensures more { OnOk result (vec_len self.new.routers ≡ vec_len self.old.routers + 1) }
        ensures same { OnErr result (vec_len self.new.routers ≡ vec_len self.old.routers) }
        ensures all { vec_len disks.new + vec_len self.new.routers
            ≡ vec_len disks.old + vec_len self.old.routers }
        ensures capacity { vec_capacity self.new.routers ≡ vec_capacity self.old.routers }
        ensures room { vec_capacity disks.old ≤ vec_capacity disks.new }
        ensures shards { self.new.shards ≡ self.old.shards }
        ensures disk { OnOk result (TakenOut
            (λ d. IsYoung ((d : D) → IsTrue (D.tells d)) (D.seen d))
            disks.old.items disks.new.items place) }
        ensures why { IfErr result (λ e. Replaced (RefusesFirst ((d : D) → IsTrue (D.tells d))
            D.seen D.fault_count e) disks.old.items disks.new.items place) }
    {
        let Ok(map) = map.copy(alloc) else {
            return Err(NodeErr::Memory);
        };
        match first_router(alloc, router, map, disks.remove(place)) {
            Ok(node) => {
                self.routers.push_reserved(node);
                Ok(())
            }
            Err((error, disk)) => {
                put_in(disks, place, disk);
                Err(error)
            }
        }
    }

    /// Starts the shards of a configuration, in the order of their disks' places.
    fn start_shards(&mut self, alloc: Global, conf: &Conf, disks: &mut Vec<D>) -> Result<(), Status>
        requires none { vec_len self.old.shards ≡ 0 }
        requires room { conf.now.shards ≤ vec_capacity self.old.shards }
        requires disks { vec_len disks.old ≡ 24 }
        ensures started { AllStarted ((d : D) → IsTrue (D.tells d))
            (shard_states self.new.shards.items) }
        ensures ok { OnOk result (vec_len self.new.shards ≡ conf.now.shards) }
        ensures refused { IfErr result (IsStartErr conf.now) }
        ensures all { vec_len disks.new + vec_len self.new.shards ≡ 24 }
        ensures room { vec_capacity disks.old ≤ vec_capacity disks.new }
        ensures routers { self.new.routers ≡ self.old.routers }
        ensures young { OnOk result (AreYoung ((d : D) → IsTrue (D.tells d)) D.seen
            disks.old.items 0 conf.now.shards) }
        ensures left { OnOk result
            (disks.new.items ≡ after_shards disks.old.items conf.now.shards) }
        ensures why { IfErr result (ShardRefused ((d : D) → IsTrue (D.tells d)) D.seen
            D.fault_count conf.now (vec_len self.new.shards) disks.old.items disks.new.items) }
    {
        for shard in 0..conf.shards() {
            match self.start_shard(alloc, shard, disks) {
                Ok(()) => {}
                Err(error) => return Err(status_of(error, shard)),
            }
        }
        Ok(())
    }

    /// Starts the routers of a configuration, whose disks stand after those of 16 shards.
    fn start_routers(
        &mut self,
        alloc: Global,
        conf: &Conf,
        disks: &mut Vec<D>,
    ) -> Result<(), Status>
        requires none { vec_len self.old.routers ≡ 0 }
        requires room { conf.now.routers ≤ vec_capacity self.old.routers }
        requires disks { vec_len disks.old + conf.now.shards ≡ 24 }
        ensures booted { AllBooted ((d : D) → IsTrue (D.tells d)) conf.now.map
            (router_states self.new.routers.items) }
        ensures ok { OnOk result (vec_len self.new.routers ≡ conf.now.routers) }
        ensures few { vec_len self.new.routers ≤ 8 }
        ensures refused { IfErr result (IsStartErr conf.now) }
        ensures all { vec_len disks.new + vec_len self.new.routers ≡ vec_len disks.old }
        ensures room { vec_capacity disks.old ≤ vec_capacity disks.new }
        ensures shards { self.new.shards ≡ self.old.shards }
        ensures young { OnOk result (AreYoung ((d : D) → IsTrue (D.tells d)) D.seen
            disks.old.items (16 - conf.now.shards) conf.now.routers) }
        ensures why { IfErr result (RouterRefused ((d : D) → IsTrue (D.tells d)) D.seen
            D.fault_count conf.now (16 - conf.now.shards) (vec_len self.new.routers)
            disks.old.items disks.new.items) }
    {
        let place = ROUTERS_AT - usize::from(conf.shards());
        for router in 0..conf.routers() {
            match self.start_router(alloc, router, conf.map(), place, disks) {
                Ok(()) => {}
                Err(error) => return Err(status_of(error, place_of(NodeId::Router(router)))),
            }
        }
        Ok(())
    }

    /// Starts all nodes of a configuration, in the order of their disks' places.
    fn start_all(&mut self, alloc: Global, conf: &Conf, disks: &mut Vec<D>) -> Result<(), Status>
        requires no_shards { vec_len self.old.shards ≡ 0 }
        requires no_routers { vec_len self.old.routers ≡ 0 }
        requires disks { vec_len disks.old ≡ 24 }
        ensures started { OnOk result
            (AreStarted ((d : D) → IsTrue (D.tells d)) conf.now
            (nodes_of self.new.shards.items self.new.routers.items)) }
        ensures refused { IfErr result (IsStartErr conf.now) }
        ensures all { vec_len disks.new + vec_len self.new.shards + vec_len self.new.routers ≡ 24 }
        ensures few { vec_len self.new.routers ≤ 8 }
        ensures room { vec_capacity disks.old ≤ vec_capacity disks.new }
        ensures young { OnOk result (AllYoung ((d : D) → IsTrue (D.tells d)) D.seen conf.now
            disks.old.items) }
        ensures why { IfErr result (StopsAt ((d : D) → IsTrue (D.tells d)) D.seen D.fault_count
            conf.now (vec_len self.new.shards) (vec_len self.new.routers) disks.old.items
            disks.new.items) }
    {
        if self.shards.reserve(usize::from(conf.shards())).is_err()
            || self.routers.reserve(usize::from(conf.routers())).is_err()
        {
            return Err(Status::Memory);
        }
        self.start_shards(alloc, conf, disks)?;
        self.start_routers(alloc, conf, disks)
    }

    /// Starts all nodes of a configuration, each with its disk. At a refusal all disks stand at
    /// their places again.
    pub fn start(alloc: Global, conf: &Conf, disks: &mut Vec<D>) -> Result<Nodes<D>, Status>
        requires { vec_len disks.old ≡ 24 }
        ensures started { IfOk result
            (λ n. AreStarted ((d : D) → IsTrue (D.tells d)) conf.now
            (nodes_of n.shards.items n.routers.items)) }
        ensures left { IfOk result
            (λ n. vec_len disks.new + vec_len n.shards + vec_len n.routers ≡ 24) }
        ensures refused { IfErr result (IsStartErr conf.now) }
        ensures all { OnErr result (vec_len disks.new ≡ 24) }
        ensures room { vec_capacity disks.old ≤ vec_capacity disks.new }
        // A first start takes new disks alone; a refusal tells the first that isn't one, or that
        // failed in this call.
        ensures young { OnOk result (AllYoung ((d : D) → IsTrue (D.tells d)) D.seen conf.now
            disks.old.items) }
        ensures why { IfErr result (RefusesStarts ((d : D) → IsTrue (D.tells d)) D.seen
            D.fault_count conf.now disks.old.items disks.new.items) }
    {
        let mut nodes = Nodes {
            shards: Vec::new(alloc),
            routers: Vec::new(alloc),
        };
        match nodes.start_all(alloc, conf, disks) {
            Ok(()) => Ok(nodes),
            Err(status) => {
                nodes.give_back(disks);
                Err(status)
            }
        }
    }

    /// Puts all disks at their places again.
    pub fn give_back(self, disks: &mut Vec<D>)
        requires all { vec_len disks.old + vec_len self.shards + vec_len self.routers ≡ 24 }
        requires few { vec_len self.routers ≤ 8 }
        requires room { 24 ≤ vec_capacity disks.old }
        ensures places { disks.new.items ≡ behind_shards (shard_disks self.shards.items
            ++ disks.old.items) (router_disks self.routers.items) }
        ensures all { vec_len disks.new ≡ 24 }
        ensures room { vec_capacity disks.old ≤ vec_capacity disks.new }
    {
        let Nodes { shards, routers } = self;
        put_shards(shards, disks);
        put_routers(routers, disks);
    }

    /// Puts all disks at their places again, where this node isn't among the others: its disk is
    /// handed in.
    pub fn give_back_with(self, node: NodeId, disk: D, disks: &mut Vec<D>)
        requires all { vec_len disks.old + vec_len self.shards + vec_len self.routers + 1 ≡ 24 }
        requires lone { IsLone node (vec_len self.routers) }
        requires room { 24 ≤ vec_capacity disks.old }
        ensures all { vec_len disks.new ≡ 24 }
        ensures room { vec_capacity disks.old ≤ vec_capacity disks.new }
    {
        let Nodes { shards, routers } = self;
        put_shards(shards, disks);
        match node {
            NodeId::Shard(shard) => {
                put_in(disks, usize::from(shard), disk);
                put_routers(routers, disks);
            }
            NodeId::Router(router) => {
                put_routers(routers, disks);
                put_in(disks, ROUTERS_AT + usize::from(router), disk);
            }
        }
    }
}
