//! How a router serves requests.
ghost use Rattle.std.specs.Prelude.{◌≡◌, length, IfOk};
ghost use Rattle.router_plan.specs.Plans.{state_of, move_of, FitsIn};
ghost use Rattle.router_core.specs.Requests.{serves};
ghost use Rattle.router_core.specs.Safe.{IsSafe};

use crate::commits::{abort, commit};
use crate::ends::end_sessions;
use crate::moves::{met, still, told_also};
use crate::statements::statement;
use chunk_map::ChunkMap;
use client_cmd::Request;
use client_reply::Reply;
use router_plan::{Base, Plan};
use router_state::{Asker, Session};
use std::alloc::{AllocError, Global};
use txn_types::Lsid;

/// What a request asks, in the older form of messages or not.
#[tactic(auto, unfolding(crate::specs::Requests::serves), using(crate::proofs::Stepping::met_holds))]
pub fn serves(
    alloc: Global,
    base: &Base,
    chunks: &ChunkMap,
    sessions: &[(Lsid, Session)],
    asker: Asker,
    legacy: bool,
    request: &Request,
) -> Result<Plan, AllocError>
    requires { IsSafe (state_of base.now chunks.now sessions.now) }
    ensures moved { IfOk result (λ p. move_of p chunks.now sessions.now
        ≡ serves (state_of base.now chunks.now sessions.now) asker legacy request.now) }
    ensures fits { IfOk result (λ p. FitsIn (length sessions.now) p.change) }
{
    match request {
        Request::Ping { time, .. } => {
            let later = met(base, chunks, sessions, *time, None);
            let plan = still(alloc, &later, chunks, sessions);
            told_also(alloc, chunks, sessions, plan, asker, legacy, Reply::Ping)
        }
        Request::Hello { old_name, time, .. } => {
            let reply = Reply::Hello {
                old_name: *old_name,
                wall: base.wall,
                conn: asker.conn,
            };
            let later = met(base, chunks, sessions, *time, None);
            let plan = still(alloc, &later, chunks, sessions);
            told_also(alloc, chunks, sessions, plan, asker, legacy, reply)
        }
        Request::Statement {
            op,
            txn,
            at,
            after,
            time,
            ..
        } => {
            let later = met(base, chunks, sessions, *time, *after);
            statement(alloc, &later, chunks, sessions, asker, *txn, op, *at)
        }
        Request::Commit {
            txn,
            token,
            time,
            ..
        } => {
            let later = met(base, chunks, sessions, *time, None);
            commit(alloc, &later, chunks, sessions, asker, *txn, *token)
        }
        Request::Abort { txn, time, .. } => {
            let later = met(base, chunks, sessions, *time, None);
            abort(alloc, &later, chunks, sessions, asker, *txn)
        }
        Request::EndSessions { ids, time, .. } => {
            let later = met(base, chunks, sessions, *time, None);
            let plan = end_sessions(alloc, &later, chunks, sessions, ids.as_slice())?;
            let reply = Reply::Ended { token: None };
            told_also(alloc, chunks, sessions, plan, asker, legacy, reply)
        }
    }
}
