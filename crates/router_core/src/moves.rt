//! router_plan's plans and times, at the map and the sessions at hand.
ghost use Rattle.std.specs.Prelude.{◌≡◌, length, IfOk};
ghost use Rattle.router_state.specs.Deeds.{still, answers, done_in};
ghost use Rattle.router_rules.specs.Times.{met, timed, walled, read_time};
ghost use Rattle.router_plan.specs.Plans.{state_of, move_of, told_also, FitsIn};

use chunk_map::ChunkMap;
use client_reply::Reply;
use router_plan::{Base, Plan};
use router_state::{Asker, Deed, Session};
use std::alloc::{AllocError, Global};
use txn_types::{Lsid, Ts};

/// Nothing changes in the sessions, and nothing is given out.
pub fn still(alloc: Global, base: &Base, chunks: &ChunkMap, sessions: &[(Lsid, Session)]) -> Plan
    ensures moved { move_of result chunks.now sessions.now
        ≡ still (state_of base.now chunks.now sessions.now) }
    ensures fits { FitsIn (length sessions.now) result.change }
{
    router_plan::still(alloc, base)
}

/// The request is answered, and nothing changes in the sessions.
pub fn answers(
    alloc: Global,
    base: &Base,
    chunks: &ChunkMap,
    sessions: &[(Lsid, Session)],
    asker: Asker,
    reply: Reply,
) -> Result<Plan, AllocError>
    ensures moved { IfOk result (λ p. move_of p chunks.now sessions.now
        ≡ answers (state_of base.now chunks.now sessions.now) asker reply) }
    ensures fits { IfOk result (λ p. FitsIn (length sessions.now) p.change) }
{
    router_plan::answers(alloc, base, asker, reply)
}

/// What is done in a session.
pub fn done_in(
    base: &Base,
    chunks: &ChunkMap,
    sessions: &[(Lsid, Session)],
    lsid: Lsid,
    deed: Deed,
) -> Plan
    ensures moved { move_of result chunks.now sessions.now
        ≡ done_in (state_of base.now chunks.now sessions.now) lsid deed }
    ensures fits { FitsIn (length sessions.now) result.change }
{
    router_plan::done_in(base, lsid, deed)
}

/// The request is answered besides, in the older form of messages or not.
pub fn told_also(
    alloc: Global,
    chunks: &ChunkMap,
    sessions: &[(Lsid, Session)],
    plan: Plan,
    asker: Asker,
    legacy: bool,
    reply: Reply,
) -> Result<Plan, AllocError>
    ensures moved { IfOk result (λ p. move_of p chunks.now sessions.now
        ≡ told_also (move_of plan chunks.now sessions.now) asker legacy reply) }
    ensures kept { IfOk result (λ p. p.change ≡ plan.change) }
{
    router_plan::told_also(alloc, plan, asker, legacy, reply)
}

/// With the wall that an event names.
pub fn walled(base: &Base, chunks: &ChunkMap, sessions: &[(Lsid, Session)], wall: u32) -> Base
    ensures { state_of result chunks.now sessions.now
        ≡ walled (state_of base.now chunks.now sessions.now) wall }
{
    router_plan::walled(base, wall)
}

/// With a time that was told.
pub fn timed(base: &Base, chunks: &ChunkMap, sessions: &[(Lsid, Session)], time: Ts) -> Base
    ensures { state_of result chunks.now sessions.now
        ≡ timed (state_of base.now chunks.now sessions.now) time }
{
    router_plan::timed(base, time)
}

/// With the times that a request names.
pub fn met(
    base: &Base,
    chunks: &ChunkMap,
    sessions: &[(Lsid, Session)],
    time: Option<Ts>,
    after: Option<Ts>,
) -> Base
    ensures { state_of result chunks.now sessions.now
        ≡ met (state_of base.now chunks.now sessions.now) time after }
{
    router_plan::met(base, time, after)
}

/// What a transaction reads at, 0 where its shard is to choose.
pub fn read_time(
    base: &Base,
    chunks: &ChunkMap,
    sessions: &[(Lsid, Session)],
    plain: bool,
    shards: &[u16],
    at: Option<Ts>,
) -> Ts
    ensures { result ≡ read_time (state_of base.now chunks.now sessions.now) plain shards.now at }
{
    router_plan::read_time(base, plain, shards, at)
}
