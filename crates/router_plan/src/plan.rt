//! What a step is to change at a router, and what it gives out.
ghost use Rattle.std.specs.Prelude.{◌≡◌, ℕ, IfOk};
ghost use Rattle.txn_types.specs.BySession.{BySession};
ghost use Rattle.chunk_map.specs.Map.{Map};
ghost use Rattle.router_state.specs.declared.state.Session.{Session};
ghost use Rattle.router_state.specs.Deeds.{still, answers, done_in};
ghost use Rattle.router_plan.specs.Plans.{state_of, move_of, told_also, FitsIn};

use crate::change::Change;
use client_reply::Reply;
use router_state::{Asker, Deed, Given, Sent};
use sqlite_items::Items;
use std::alloc::{AllocError, Global};
use txn_types::{Lsid, Ts};

/// What a router counts: its number and boot, the greatest wall and time that it has met, and the
/// serial that it drew last.
#[derive(Clone, Copy)]
pub struct Base {
    pub number: u16,
    pub boot: u32,
    pub wall: u32,
    pub time: Ts,
    pub serial: u64,
}

impl Base {
    pub fn copy(&self) -> Base
        ensures { result ≡ self.now }
    {
        Base {
            number: self.number,
            boot: self.boot,
            wall: self.wall,
            time: self.time,
            serial: self.serial,
        }
    }
}

/// What a step is to change, and what it gives out.
#[derive(Drop)]
pub struct Plan {
    pub base: Base,
    pub change: Change,
    pub given: Given,
}

/// Nothing changes in the sessions, and nothing is given out.
pub fn still(alloc: Global, base: &Base) -> Plan
    ensures moved { (chunks : Map) (sessions : BySession Session)
        → move_of result chunks sessions ≡ still (state_of base.now chunks sessions) }
    ensures fits { (n : ℕ) → FitsIn n result.change }
{
    Plan {
        base: base.copy(),
        change: Change::Nothing,
        given: Given::nothing(alloc),
    }
}

/// The request is answered, and nothing changes in the sessions.
pub fn answers(alloc: Global, base: &Base, asker: Asker, reply: Reply) -> Result<Plan, AllocError>
    ensures moved { (chunks : Map) (sessions : BySession Session) → IfOk result (λ p.
        move_of p chunks sessions ≡ answers (state_of base.now chunks sessions) asker reply) }
    ensures fits { (n : ℕ) → IfOk result (λ p. FitsIn n p.change) }
{
    Ok(Plan {
        base: base.copy(),
        change: Change::Nothing,
        given: Given::telling_one(alloc, asker, reply)?,
    })
}

/// What is done in a session.
pub fn done_in(base: &Base, lsid: Lsid, deed: Deed) -> Plan
    ensures moved { (chunks : Map) (sessions : BySession Session)
        → move_of result chunks sessions ≡ done_in (state_of base.now chunks sessions) lsid deed }
    ensures fits { (n : ℕ) → FitsIn n result.change }
{
    Plan {
        base: base.copy(),
        change: Change::One(lsid, deed.session),
        given: deed.given,
    }
}

/// The request is answered besides, in the older form of messages or not.
pub fn told_also(
    alloc: Global,
    plan: Plan,
    asker: Asker,
    legacy: bool,
    reply: Reply,
) -> Result<Plan, AllocError>
    ensures moved { (chunks : Map) (sessions : BySession Session) → IfOk result (λ p.
        move_of p chunks sessions ≡ told_also (move_of plan chunks sessions) asker legacy reply) }
    ensures kept { IfOk result (λ p. p.change ≡ plan.change) }
{
    let mut replies = Items::new(alloc);
    replies.push(Sent {
        conn: asker.conn,
        request: asker.request,
        legacy,
        reply,
    })?;
    let told = Given::telling(alloc, replies);
    let Plan {
        base,
        change,
        given,
    } = plan;
    let given = given.both(told)?;
    Ok(Plan {
        base,
        change,
        given,
    })
}
