//! What an event asks of a router.
ghost use Rattle.std.specs.Prelude.{◌≡◌, ◌≢◌, length, Err, IfOk};
ghost use Rattle.txn_types.specs.declared.event.Happening.TheVariants.{Client, Deliver};
ghost use Rattle.router_rules.specs.Resends.{resent};
ghost use Rattle.router_plan.specs.declared.message.Unserved.TheVariants.{Memory};
ghost use Rattle.router_plan.specs.Plans.{state_of, move_of, FitsIn};
ghost use Rattle.router_core.specs.Safe.{IsSafe};
ghost use Rattle.router_core.specs.Step.{unless_silent, served, closed_by, client, closed_at, delivered, happened};

use crate::moves::{still, timed, told_also};
use crate::news::in_each;
use crate::requests::serves;
use chunk_map::ChunkMap;
use client_cmd::Request;
use client_reply::Reply;
use op_msg::{is_legacy, request_id, wants_reply};
use router_plan::{Base, Change, Plan, Unserved, asked};
use router_state::{Asker, Given, Posts, Session, is_waiting};
use router_txn::unanswered;
use sqlite_items::Items;
use std::alloc::{AllocError, Global};
use txn_types::{Envelope, Happening, Lsid, Msg};

/// What is planned at an event, and the number of the refusal that closes its connection.
#[derive(Drop)]
pub struct Served {
    pub plan: Plan,
    pub closed: Option<u8>,
}

/// Without the replies, where the sender wants none.
fn unless_silent(
    alloc: Global,
    chunks: &ChunkMap,
    sessions: &[(Lsid, Session)],
    wants: bool,
    plan: Plan,
) -> Plan
    ensures moved { move_of result chunks.now sessions.now
        ≡ unless_silent wants (move_of plan chunks.now sessions.now) }
    ensures kept { result.change ≡ plan.change }
{
    if wants {
        return plan;
    }
    let mut silent = plan;
    silent.given.replies = Items::new(alloc);
    silent
}

/// What is done at a request, or at bytes that are none.
fn served_by(
    alloc: Global,
    base: &Base,
    chunks: &ChunkMap,
    sessions: &[(Lsid, Session)],
    conn: u32,
    bytes: &[u8],
    asked: Result<Request, Unserved>,
) -> Result<Served, AllocError>
    requires { IsSafe (state_of base.now chunks.now sessions.now) }
    ensures moved { IfOk result (λ s. move_of s.plan chunks.now sessions.now
        ≡ served (state_of base.now chunks.now sessions.now) conn bytes.now asked) }
    ensures fits { IfOk result (λ s. FitsIn (length sessions.now) s.plan.change) }
    ensures closed { IfOk result (λ s. s.closed ≡ closed_by asked) }
    ensures memory { IfOk result (λ s. asked ≢ Err Memory) }
{
    let asker = Asker {
        conn,
        request: request_id(bytes),
    };
    let legacy = is_legacy(bytes);
    match asked {
        Ok(request) => Ok(Served {
            plan: serves(alloc, base, chunks, sessions, asker, legacy, &request)?,
            closed: None,
        }),
        Err(Unserved::Told(why)) => {
            let plan = still(alloc, base, chunks, sessions);
            let reply = Reply::Refused(why);
            Ok(Served {
                plan: told_also(alloc, chunks, sessions, plan, asker, legacy, reply)?,
                closed: None,
            })
        }
        Err(Unserved::Closed { number }) => Ok(Served {
            plan: still(alloc, base, chunks, sessions),
            closed: Some(number),
        }),
        Err(Unserved::Memory) => Err(AllocError),
    }
}

/// What a client's message asks for. While a request of its connection is unanswered, no other is
/// taken.
fn client(
    alloc: Global,
    base: &Base,
    chunks: &ChunkMap,
    sessions: &[(Lsid, Session)],
    conn: u32,
    bytes: &[u8],
) -> Result<Served, AllocError>
    requires { IsSafe (state_of base.now chunks.now sessions.now) }
    ensures moved { IfOk result (λ s. move_of s.plan chunks.now sessions.now
        ≡ client (state_of base.now chunks.now sessions.now) conn bytes.now) }
    ensures fits { IfOk result (λ s. FitsIn (length sessions.now) s.plan.change) }
    ensures closed { IfOk result (λ s. s.closed
        ≡ closed_at (state_of base.now chunks.now sessions.now) (Client conn bytes.now)) }
{
    if is_waiting(conn, sessions) {
        return Ok(Served {
            plan: still(alloc, base, chunks, sessions),
            closed: None,
        });
    }
    let asked = asked(alloc, base.wall, bytes);
    let Served { plan, closed } = served_by(alloc, base, chunks, sessions, conn, bytes, asked)?;
    Ok(Served {
        plan: unless_silent(alloc, chunks, sessions, wants_reply(bytes), plan),
        closed,
    })
}

/// What a message of a shard does: each session that waits for it takes it, and no other message is
/// a matter of a router.
fn delivered(
    alloc: Global,
    base: &Base,
    chunks: &ChunkMap,
    sessions: &[(Lsid, Session)],
    what: &Happening,
    envelope: &Envelope,
) -> Result<Plan, AllocError>
    requires safe { IsSafe (state_of base.now chunks.now sessions.now) }
    requires is { what.now ≡ Deliver envelope.now }
    ensures moved { IfOk result (λ p. move_of p chunks.now sessions.now
        ≡ delivered (state_of base.now chunks.now sessions.now) envelope.now.msg) }
    ensures fits { IfOk result (λ p. FitsIn (length sessions.now) p.change) }
{
    match &envelope.msg {
        Msg::Answer(_) | Msg::Outcome(_) => in_each(alloc, base, chunks, sessions, what),
        _ => Ok(still(alloc, base, chunks, sessions)),
    }
}

/// What is sent again: a nudge to each shard, and then each unanswered message.
fn resent(
    alloc: Global,
    base: &Base,
    chunks: &ChunkMap,
    sessions: &[(Lsid, Session)],
) -> Result<Posts, AllocError>
    ensures { IfOk result (λ p. p ≡ resent (state_of base.now chunks.now sessions.now)) }
{
    let mut posts = Items::new(alloc);
    for shard in 0..chunks.shards() {
        posts.push((shard, Msg::Nudge))?;
    }
    posts.append(unanswered(alloc, sessions)?)?;
    Ok(posts)
}

/// What an event asks, at this wall.
#[tactic(auto, using(crate::proofs::Stepping::timed_holds))]
pub fn planned(
    alloc: Global,
    base: &Base,
    chunks: &ChunkMap,
    sessions: &[(Lsid, Session)],
    what: &Happening,
) -> Result<Served, AllocError>
    requires { IsSafe (state_of base.now chunks.now sessions.now) }
    ensures moved { IfOk result (λ s. move_of s.plan chunks.now sessions.now
        ≡ happened (state_of base.now chunks.now sessions.now) what.now) }
    ensures fits { IfOk result (λ s. FitsIn (length sessions.now) s.plan.change) }
    ensures closed { IfOk result
        (λ s. s.closed ≡ closed_at (state_of base.now chunks.now sessions.now) what.now) }
{
    let plan = match what {
        Happening::Client { conn, frame } => {
            return client(alloc, base, chunks, sessions, *conn, frame.as_slice());
        }
        Happening::Gone { .. } => in_each(alloc, base, chunks, sessions, what)?,
        Happening::Deliver(envelope) => {
            let later = timed(base, chunks, sessions, envelope.time);
            delivered(alloc, &later, chunks, sessions, what, envelope)?
        }
        Happening::Resend => Plan {
            base: base.copy(),
            change: Change::Nothing,
            given: Given::sending(alloc, resent(alloc, base, chunks, sessions)?),
        },
        Happening::Moment => still(alloc, base, chunks, sessions),
    };
    Ok(Served { plan, closed: None })
}
