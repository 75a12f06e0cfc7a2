//! The step of a router.
ghost use Rattle.std.specs.Prelude.{◌≡◌, length, IfOk, OnOk, OnErr, false};
ghost use Rattle.router_state.specs.State.{fresh_router};
ghost use Rattle.router_plan.specs.Plans.{state_of, move_of, changed, FitsIn};
ghost use Rattle.router_core.specs.Safe.{IsSafe};
ghost use Rattle.router_core.specs.Step.{router_step};
ghost use Rattle.router_core.specs.Turning.{IsTurn};

use crate::moves::walled;
use crate::serving::{Served, planned};
use chunk_map::ChunkMap;
use router_plan::{Base, Change, Plan, Turn, make, turn_of};
use router_state::{Session, Table};
use sqlite_items::Items;
use std::alloc::{AllocError, Global};
use std::marker::Model;
use txn_types::{Lsid, NodeEvent, Ts};

/// A router: its number and boot, the greatest wall (in seconds since 1970) and cluster time that
/// it has met, the serial that it drew last; the map by which it sends; and its sessions.
#[derive(Drop)]
pub struct Router {
    alloc: Global,
    base: Base,
    chunks: ChunkMap,
    sessions: Table,
}

impl Model for Router {
    ghost use Rattle.std.specs.Coded.{codes};
    ghost use Rattle.bson_core.specs.contracts.value.Value as value;
    ghost use Rattle.txn_types.specs.contracts.filter.Filter as filter;
    ghost use Rattle.router_plan.specs.Plans.{state_of};
    ghost use Rattle.router_core.specs.Safe.{IsSafe};
    ghost use Rattle.router_state.specs.State.{RouterState};

    ghost Value = { RouterState };

    ghost coded = { Prim.hlevel (codes, value.the_row.coded, filter.the_row.coded) };

    ghost view = { λ r. state_of r.base r.chunks r.sessions };

    ghost invariant = { λ r. IsSafe (state_of r.base r.chunks r.sessions) };
}

/// What a step makes of a router, and what it gives out.
#[derive(Drop)]
struct Next {
    base: Base,
    change: Change,
    turn: Turn,
}

/// What an event makes of a router, at the greatest wall that it has met.
#[tactic(auto, unfolding(crate::specs::Step::router_step), using(crate::proofs::Stepping::walled_holds))]
fn stepped(
    alloc: Global,
    base: &Base,
    chunks: &ChunkMap,
    sessions: &[(Lsid, Session)],
    event: &NodeEvent,
) -> Result<Next, AllocError>
    requires { IsSafe (state_of base.now chunks.now sessions.now) }
    ensures state { IfOk result (λ n. state_of n.base chunks.now (changed n.change sessions.now)
        ≡ (router_step false (state_of base.now chunks.now sessions.now) event.now).state) }
    ensures turn { IfOk result (λ n.
        IsTurn (router_step false (state_of base.now chunks.now sessions.now) event.now) n.turn) }
    ensures fits { IfOk result (λ n. FitsIn (length sessions.now) n.change) }
{
    let later = walled(base, chunks, sessions, event.wall);
    let Served { plan, closed } = planned(alloc, &later, chunks, sessions, &event.what)?;
    let Plan {
        base: behind,
        change,
        given,
    } = plan;
    let turn = turn_of(alloc, &behind, given, closed)?;
    Ok(Next {
        base: behind,
        change,
        turn,
    })
}

impl Router {
    /// A router that has started, at this boot.
    pub fn of(alloc: Global, router: u16, boot: u32, map: ChunkMap) -> Router
        ensures { result ≡ fresh_router router boot map }
    {
        let _shards = map.shards();
        Router {
            alloc,
            base: Base {
                number: router,
                boot,
                wall: 0,
                time: Ts(0),
                serial: 0,
            },
            chunks: map,
            sessions: Items::new(alloc),
        }
    }

    /// Its boot.
    pub fn boot(&self) -> u32
        ensures { result ≡ self.now.boot }
    {
        self.base.boot
    }

    /// Takes an event, and tells what is given out. Out of memory, nothing has changed.
    pub fn step(&mut self, event: &NodeEvent) -> Result<Turn, AllocError>
        ensures state { OnOk result (self.new ≡ (router_step false self.old event.now).state) }
        ensures turn { IfOk result (λ t. IsTurn (router_step false self.old event.now) t) }
        ensures err { OnErr result (self.new ≡ self.old) }
    {
        let Next { base, change, turn } = stepped(
            self.alloc,
            &self.base,
            &self.chunks,
            self.sessions.as_slice(),
            event,
        )?;
        make(&mut self.sessions, change)?;
        self.base = base;
        Ok(turn)
    }
}
