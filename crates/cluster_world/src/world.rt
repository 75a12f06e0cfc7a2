//! The cluster.
ghost use Rattle.std.specs.Prelude.{◌≡◌, ◌<◌, ◌++◌, ◌∷◌, [], true, false, map, length, Some, Ok, Err, slice_get, slice_set, remove, IfOk, IfErr, OnOk, OnErr};
ghost use Rattle.txn_types.specs.declared.node.NodeId.TheVariants as node;
ghost use Rattle.txn_model.specs.Commits.{commits};
ghost use Rattle.txn_model.specs.declared.ran.Ran.TheVariants as ran;
ghost use Rattle.txn_types.specs.Letters.{given_out};
ghost use Rattle.cluster_core.specs.Nodes.{commits_of};
ghost use Rattle.cluster_core.specs.Trace.{Happens, MayCome};
ghost use Rattle.cluster_world.specs.World.{records_in, world_of, HasNode, MayHappen, event_of, AsMany, AsManyUnlessNext, TakesAt, Took, Stepped, ShardRenews, RouterRenews};
ghost use Rattle.cluster_world.specs.declared.error.SwapErr.TheVariants as error;

use crate::error::{SwapErr, WorldErr};
use crate::event::{WorldAnswer, WorldEvent};
use crate::listing::{add_from, before_of};
use crate::places::swap_in;
use crate::sending::send;
use crate::taking::{Taken, check_times, take_at_router, take_at_shard};
use router_core::Routing;
use shard_core::Journalled;
use std::alloc::{AllocError, Global};
use std::marker::Model;
use txn_model::{Entry, Ran};
use txn_types::{Envelope, Happening, NodeAnswer, NodeEvent, NodeId};

/// All shards and routers by their numbers; the messages that they ever sent, in their order; the
/// list of commits, as the journals are; and what happened, in its order. Once a call was refused,
/// only the nodes can be had back.
pub struct World<S: Journalled, R: Routing> {
    alloc: Global,
    shards: Vec<S>,
    routers: Vec<R>,
    sent: Vec<Envelope>,
    commits: Vec<Entry>,
    run: Vec<Ran>,
    spent: bool,
}

impl<S: Journalled, R: Routing> Model for World<S, R> {
    ghost use Rattle.std.specs.Prelude.{map};
    ghost use Rattle.std.specs.Coded.{codes};
    ghost use Rattle.bson_core.specs.contracts.value.Value as value;
    ghost use Rattle.txn_types.specs.contracts.filter.Filter as filter;
    ghost use Rattle.cluster_world.specs.World.{WorldState, world_of, IsListed};

    ghost Value = { WorldState };

    ghost coded = { Prim.hlevel (codes, value.the_row.coded, filter.the_row.coded) };

    ghost view = { λ w. world_of (map S.state w.shards.items) (map R.state w.routers.items) w.sent.items w.commits.items w.run.items w.spent };

    ghost invariant = { λ w. IsListed (world_of (map S.state w.shards.items) (map R.state w.routers.items) w.sent.items w.commits.items w.run.items w.spent) };
}

impl<S: Journalled, R: Routing> World<S, R> {
    /// These nodes, as their starts left them; `before` is the list of commits of their records.
    pub fn new(alloc: Global, shards: Vec<S>, routers: Vec<R>, before: Vec<Entry>) -> World<S, R>
        requires { before.items ≡ commits (records_in S.state shards.items) }
        ensures { result ≡ world_of (map S.state shards.items) (map R.state routers.items) []
            before.items [] false }
    {
        World {
            alloc,
            shards,
            routers,
            sent: Vec::new(alloc),
            commits: before,
            run: Vec::new(alloc),
            spent: false,
        }
    }

    /// The messages that were sent, the first being number 0.
    pub fn messages(&self) -> &[Envelope]
        ensures { result.now ≡ self.now.nodes.sent }
    {
        &self.sent
    }

    /// How many messages were sent.
    pub fn sent(&self) -> u64
        ensures { result ≡ length self.now.nodes.sent }
    {
        self.sent.len() as u64
    }

    /// The list of commits, as the journals are now.
    pub fn commits(&self) -> &[Entry]
        requires { self.now.spent ≡ false }
        ensures { result.now ≡ commits_of self.now.nodes }
    {
        &self.commits
    }

    /// What happened since the world was made: each step and each replacement once, in their order.
    pub fn run(&self) -> &[Ran]
        ensures { result.now ≡ self.now.run }
    {
        &self.run
    }

    /// The shards by their numbers.
    pub fn shards(&self) -> &[S]
        ensures { map S.state result.now ≡ self.now.nodes.shards }
    {
        &self.shards
    }

    /// The routers by their numbers.
    pub fn routers(&self) -> &[R]
        ensures { map R.state result.now ≡ self.now.nodes.routers }
    {
        &self.routers
    }

    /// A copy of the message of that number.
    fn message(&self, number: u64) -> Result<Envelope, AllocError>
        requires { number < length self.now.nodes.sent }
        ensures { IfOk result (λ e. slice_get self.now.nodes.sent number ≡ Some e) }
    {
        self.sent[number as usize].copy(self.alloc)
    }

    /// The node that an event comes to, and what comes. A message is copied.
    fn event_of(&self, event: WorldEvent) -> Result<(NodeId, NodeEvent), AllocError>
        requires { MayHappen self.now.nodes event }
        ensures comes { IfOk result (λ x. event_of self.now.nodes event ≡ Some (x.0, x.1)) }
        ensures may { IfOk result
            (λ x. HasNode self.now.nodes x.0 × MayCome self.now.nodes.sent x.0 x.1.what) }
    {
        match event {
            WorldEvent::At { node, event } => Ok((node, event)),
            WorldEvent::Deliver { number, wall } => {
                let envelope = self.message(number)?;
                Ok((
                    envelope.to,
                    NodeEvent {
                        wall,
                        what: Happening::Deliver(envelope),
                    },
                ))
            }
        }
    }

    /// Writes down what a node answered, after what happened before.
    fn note(
        &mut self,
        node: NodeId,
        event: NodeEvent,
        answer: &NodeAnswer,
        faults: u64,
    ) -> Result<(), AllocError>
        requires { self.old.spent ≡ true }
        ensures noted { OnOk result (self.new ≡ record self.old {
          nodes = record self.old.nodes { sent = self.old.nodes.sent ++ given_out answer.now };
          run = self.old.run ++ ran.Step node event answer.now faults ∷ [];
        }) }
        ensures count { AsMany self.old.nodes self.new.nodes }
        ensures spent { self.new.spent ≡ true }
    {
        send(self.alloc, &mut self.sent, answer)?;
        let answer = answer.copy(self.alloc)?;
        self.run.push(Ran::Step {
            node,
            event,
            answer,
            faults,
        })?;
        Ok(())
    }

    /// A shard takes an event, and the list of commits is brought up to its records.
    fn take_shard(&mut self, shard: u16, event: &NodeEvent) -> Result<(NodeAnswer, u64), AllocError>
        requires spent { self.old.spent ≡ true }
        requires there { shard < length self.old.nodes.shards }
        requires listed { self.old.commits ≡ commits_of self.old.nodes }
        ensures took { IfOk result (λ x. TakesAt shard self.old event.now x.0 x.1 self.new) }
        ensures count { AsMany self.old.nodes self.new.nodes }
        ensures spent { self.new.spent ≡ true }
    {
        let Taken {
            answer,
            records,
            faults,
        } = take_at_shard(&mut self.shards[usize::from(shard)], event);
        add_from(self.alloc, &self.shards, shard, records, &mut self.commits)?;
        Ok((answer, faults))
    }

    /// A shard takes an event.
    fn step_shard(&mut self, shard: u16, event: NodeEvent) -> Result<NodeAnswer, AllocError>
        requires spent { self.old.spent ≡ true }
        requires there { shard < length self.old.nodes.shards }
        requires listed { self.old.commits ≡ commits_of self.old.nodes }
        requires comes { MayCome self.old.nodes.sent (node.Shard shard) event.what }
        ensures took { IfOk result (λ a. Took self.old (node.Shard shard) event a self.new) }
        ensures listed { OnOk result (self.new.commits ≡ commits_of self.new.nodes) }
        ensures count { AsMany self.old.nodes self.new.nodes }
        ensures spent { self.new.spent ≡ true }
    {
        check_times(&event);
        let (answer, faults) = self.take_shard(shard, &event)?;
        self.note(NodeId::Shard(shard), event, &answer, faults)?;
        Ok(answer)
    }

    /// A router takes an event.
    fn step_router(&mut self, router: u16, event: NodeEvent) -> Result<NodeAnswer, AllocError>
        requires spent { self.old.spent ≡ true }
        requires there { router < length self.old.nodes.routers }
        requires listed { self.old.commits ≡ commits_of self.old.nodes }
        requires comes { MayCome self.old.nodes.sent (node.Router router) event.what }
        ensures took { IfOk result (λ a. Took self.old (node.Router router) event a self.new) }
        ensures listed { OnOk result (self.new.commits ≡ commits_of self.new.nodes) }
        ensures count { AsMany self.old.nodes self.new.nodes }
        ensures spent { self.new.spent ≡ true }
    {
        check_times(&event);
        let answer = take_at_router(&mut self.routers[usize::from(router)], &event);
        self.note(NodeId::Router(router), event, &answer, 0)?;
        Ok(answer)
    }

    /// The node takes the event.
    fn step_at(&mut self, node: NodeId, event: NodeEvent) -> Result<NodeAnswer, AllocError>
        requires spent { self.old.spent ≡ true }
        requires there { HasNode self.old.nodes node }
        requires listed { self.old.commits ≡ commits_of self.old.nodes }
        requires comes { MayCome self.old.nodes.sent node event.what }
        ensures took { IfOk result (λ a. Took self.old node event a self.new) }
        ensures listed { OnOk result (self.new.commits ≡ commits_of self.new.nodes) }
        ensures count { AsMany self.old.nodes self.new.nodes }
        ensures spent { self.new.spent ≡ true }
    {
        match node {
            NodeId::Shard(shard) => self.step_shard(shard, event),
            NodeId::Router(router) => self.step_router(router, event),
        }
    }

    /// A step: an event comes to its node. At a refusal the node may have made its step, and the
    /// world takes no further call but `into_nodes`.
    pub fn step(&mut self, event: WorldEvent) -> Result<WorldAnswer, WorldErr>
        requires live { self.old.spent ≡ false }
        requires may { MayHappen self.old.nodes event }
        ensures stepped { IfOk result (λ a. Stepped self.old event a self.new) }
        ensures count { AsMany self.old.nodes self.new.nodes }
        ensures live { OnOk result (self.new.spent ≡ false) }
    {
        let first = self.sent();
        self.spent = true;
        let (node, event) = self.event_of(event)?;
        let answer = self.step_at(node, event)?;
        self.spent = false;
        Ok(WorldAnswer {
            node,
            answer,
            first,
        })
    }

    /// Puts in place of a shard the one that is made of it. At a refusal the old one may be gone,
    /// and the world takes no further call but `into_nodes`.
    pub fn swap_shard<E, F: FnOnce(S) -> Result<S, E>>(
        &mut self,
        shard: u16,
        next: F,
    ) -> Result<(), SwapErr<E>>
        requires live { self.old.spent ≡ false }
        requires there { shard < length self.old.nodes.shards }
        requires next { (before : S) → slice_get self.old.nodes.shards shard ≡ Some (S.state before)
            → F.pre next before }
        ensures swapped { OnOk result ((before : S) × (after : S) × (slice_get self.old.nodes.shards
            shard ≡ Some (S.state before)) × F.post next before (Ok after)
            × (self.new.nodes ≡ record self.old.nodes
            { shards = slice_set self.old.nodes.shards shard (S.state after) })) }
        ensures run { OnOk result
            (self.new.run ≡ self.old.run ++ ran.Swapped (node.Shard shard) ∷ []) }
        ensures happens { ((before after : S)
            → slice_get self.old.nodes.shards shard ≡ Some (S.state before)
            → F.post next before (Ok after) → ShardRenews shard (S.state before) (S.state after))
            → OnOk result (Happens self.old.nodes (ran.Swapped (node.Shard shard)) self.new.nodes) }
        ensures live { OnOk result (self.new.spent ≡ false) }
        ensures count { AsManyUnlessNext self.old.nodes result self.new.nodes }
        ensures refused { (e : E) → result ≡ Err (error.Next e)
            → (before : S) × (slice_get self.old.nodes.shards shard ≡ Some (S.state before))
            × F.post next before (Err e)
            × (self.new.nodes
            ≡ record self.old.nodes { shards = remove self.old.nodes.shards shard }) }
    {
        self.spent = true;
        match swap_in(&mut self.shards, usize::from(shard), next) {
            Ok(()) => self.swapped_shard(shard),
            Err(error) => Err(SwapErr::Next(error)),
        }
    }

    /// Brings the list of commits up to the new shard's records, and writes down that it came.
    fn swapped_shard<E>(&mut self, shard: u16) -> Result<(), SwapErr<E>>
        requires { self.old.spent ≡ true }
        ensures ok { OnOk result (self.new ≡ record {
          nodes = self.old.nodes;
          commits = commits_of self.old.nodes;
          run = self.old.run ++ ran.Swapped (node.Shard shard) ∷ [];
          spent = false;
        }) }
        ensures nodes { self.new.nodes ≡ self.old.nodes }
        ensures refused { (e : E) → result ≡ Err (error.Next e) → ⊥ }
    {
        match before_of(self.alloc, &self.shards) {
            Ok(commits) => {
                self.commits = commits;
                self.swapped(NodeId::Shard(shard))
            }
            Err(WorldErr::Memory) => Err(SwapErr::Memory),
        }
    }

    /// The same for a router.
    pub fn swap_router<E, F: FnOnce(R) -> Result<R, E>>(
        &mut self,
        router: u16,
        next: F,
    ) -> Result<(), SwapErr<E>>
        requires live { self.old.spent ≡ false }
        requires there { router < length self.old.nodes.routers }
        requires next { (before : R)
            → slice_get self.old.nodes.routers router ≡ Some (R.state before) → F.pre next before }
        ensures swapped { OnOk result ((before : R) × (after : R) × (slice_get
            self.old.nodes.routers router ≡ Some (R.state before)) × F.post next before (Ok after)
            × (self.new.nodes ≡ record self.old.nodes
            { routers = slice_set self.old.nodes.routers router (R.state after) })) }
        ensures run { OnOk result
            (self.new.run ≡ self.old.run ++ ran.Swapped (node.Router router) ∷ []) }
        ensures happens { ((before after : R)
            → slice_get self.old.nodes.routers router ≡ Some (R.state before)
            → F.post next before (Ok after) → RouterRenews router (R.state before) (R.state after))
            → OnOk result
            (Happens self.old.nodes (ran.Swapped (node.Router router)) self.new.nodes) }
        ensures live { OnOk result (self.new.spent ≡ false) }
        ensures count { AsManyUnlessNext self.old.nodes result self.new.nodes }
        ensures refused { (e : E) → result ≡ Err (error.Next e)
            → (before : R) × (slice_get self.old.nodes.routers router ≡ Some (R.state before))
            × F.post next before (Err e)
            × (self.new.nodes
            ≡ record self.old.nodes { routers = remove self.old.nodes.routers router }) }
    {
        self.spent = true;
        match swap_in(&mut self.routers, usize::from(router), next) {
            Ok(()) => self.swapped(NodeId::Router(router)),
            Err(error) => Err(SwapErr::Next(error)),
        }
    }

    /// Writes down that a new node came, whose records the list of commits has.
    fn swapped<E>(&mut self, node: NodeId) -> Result<(), SwapErr<E>>
        requires spent { self.old.spent ≡ true }
        requires listed { self.old.commits ≡ commits_of self.old.nodes }
        ensures ok { OnOk result (self.new
            ≡ record self.old { run = self.old.run ++ ran.Swapped node ∷ []; spent = false }) }
        ensures nodes { self.new.nodes ≡ self.old.nodes }
        ensures refused { (e : E) → result ≡ Err (error.Next e) → ⊥ }
    {
        match self.run.push(Ran::Swapped { node }) {
            Ok(()) => {
                self.spent = false;
                Ok(())
            }
            Err(_) => Err(SwapErr::Memory),
        }
    }

    /// The nodes by their numbers, without one that a replacement took and didn't give.
    pub fn into_nodes(self) -> (Vec<S>, Vec<R>)
        ensures shards { map S.state result.0.items ≡ self.nodes.shards }
        ensures routers { map R.state result.1.items ≡ self.nodes.routers }
    {
        let World {
            alloc: _alloc,
            shards,
            routers,
            sent: _sent,
            commits: _commits,
            run: _run,
            spent: _spent,
        } = self;
        (shards, routers)
    }
}
